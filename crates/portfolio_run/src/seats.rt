// The passes of the rings: handed out before the rings run, and gathered after them.
ghost use Rattle.std.specs.Prelude.{◌≡◌, ◌≢◌, ℕ, ◌+◌, ◌++◌, ◌∷◌, ◌<◌, ◌≤◌, [], All, length, vec_capacity};
ghost use Rattle.share_rule.specs.Passes.{IsPassOf, IsSamePass};
ghost use Rattle.share_rule.specs.Steps.{after_load, new_part, without_right};
ghost use Rattle.share_rule.specs.Views.{IsRight, times_in};
ghost use Rattle.portfolio_run.specs.Reached.{HaveRested};
ghost use Rattle.portfolio_run.specs.Seats.{HasRightsFrom, IsSameTable, IsBegun, AreBegun, IsAtRest, all_parts, stop_among};

use ref_count::take_grant;
use share_rule::{Ledger, Pass, Shared, join, split};

/// Splits a pass off for the ring, which takes its grant.
fn begin<B: Ledger>(table: &Shared<B>, first: &mut Pass<B>, ring: u32) -> Pass<B>
    requires first { IsPassOf table.now first.old }
    requires right { IsRight ring first.old.me.0 }
    ensures first { IsPassOf table.now first.new × IsSamePass first.old first.new }
    ensures old { (found : ℕ) × (first.new.me.0 ≡ after_load 0 found (without_right ring first.old.me.0)) }
    ensures begun { IsBegun table.now first.old.me.0 ring result }
{
    let mut pass = split(table, first, ring);
    take_grant(table, &mut pass, ring);
    pass
}

/// Hands a pass out for each ring, in order, with the ring's grant taken and nothing else done. The first pass is left with no
/// ring and no right.
pub(crate) fn hand_out<B: Ledger>(
    table: &Shared<B>,
    first: &mut Pass<B>,
    rings: u32,
    passes: &mut Vec<Pass<B>>,
)
    requires first { HasRightsFrom table.now first.old 0 }
    requires rings { rings ≡ first.old.me.0.opening.rings }
    requires none { passes.old.items ≡ [] }
    requires room { rings ≤ vec_capacity passes.old }
    ensures first { HasRightsFrom table.now first.new rings }
    ensures same { IsSameTable first.old.me.0 first.new.me.0 }
    ensures many { length passes.new.items ≡ rings }
    ensures begun { AreBegun table.now first.old.me.0 passes.new.items }
{
    for ring in 0..rings {
        let pass = begin(table, first, ring);
        passes.push_reserved(pass);
    }
}

/// Takes the ring's grant, and takes the ring in.
fn grant<B: Ledger>(table: &Shared<B>, first: &mut Pass<B>, ring: u32)
    requires first { IsAtRest table.now first.old }
    requires right { IsRight ring first.old.me.0 }
    ensures first { IsAtRest table.now first.new }
    ensures same { IsSameTable first.old.me.0 first.new.me.0 }
    ensures parts { first.new.me.0.parts ≡ first.old.me.0.parts ++ new_part first.old.me.0.opening ring ∷ [] }
    ensures rights { (r : ℕ) → ring < r → 0 < times_in r first.old.me.0.rights → 0 < times_in r first.new.me.0.rights }
{
    let pass = begin(table, first, ring);
    join(table, first, pass);
}

/// Takes the grants of all rings, and all rings in, if there is no room for passes of their own. It takes no memory.
pub(crate) fn grant_all<B: Ledger>(table: &Shared<B>, first: &mut Pass<B>, rings: u32)
    requires first { HasRightsFrom table.now first.old 0 }
    requires rings { rings ≡ first.old.me.0.opening.rings }
    ensures { HaveRested table.now first.old.me.0 first.new }
{
    for next in 0..rings {
        grant(table, first, next);
    }
}

/// Takes all passes in, in order, with their rings.
pub(crate) fn gather<B: Ledger>(table: &Shared<B>, first: &mut Pass<B>, passes: Vec<Pass<B>>)
    requires first { IsPassOf table.now first.old × (first.old.me.1 ≡ []) }
    requires passes { All (IsAtRest table.now) passes.items }
    ensures first { IsPassOf table.now first.new × (first.new.me.1 ≡ []) }
    ensures same { IsSameTable first.old.me.0 first.new.me.0 }
    ensures parts { first.new.me.0.parts ≡ first.old.me.0.parts ++ all_parts passes.items }
    ensures stop { first.new.me.0.stop ≡ stop_among first.old.me.0.stop passes.items }
{
    for pass in passes {
        join(table, first, pass);
    }
}
