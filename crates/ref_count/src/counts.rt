//! Grants and counts.
ghost use Rattle.std.specs.Prelude.{◌≡◌, ℕ, ◌<◌, [], None};
ghost use Rattle.share_core.specs.declared.event.TheConstants.{MAX_SHARES};
ghost use Rattle.share_core.specs.Readable.{waiting_times};
ghost use Rattle.share_core.specs.State.{times_at};
ghost use Rattle.share_core.specs.Sound.{counted};
ghost use Rattle.share_rule.specs.Passes.{IsPassOf, IsSamePass};
ghost use Rattle.share_rule.specs.Views.{IsRight, IsHolding, only};
ghost use Rattle.share_rule.specs.Steps.{after_grant, after_share, after_drop};
ghost use Rattle.share_rule.specs.Seen.{Seen as IsSeen};
ghost use Rattle.ref_count.specs.Drops.{IsDropped};
ghost use Rattle.ref_count.specs.declared.counts.Dropped.TheVariants.{Last};

use sat_words::Cref;
use share_rule::{Drops, Grants, Ledger, Pass, Shared, Shares};

/// Whether a count that was given up was the last one of its cell.
#[derive(Clone, Copy, PartialEq, Eq, Debug, Drop)]
pub enum Dropped {
    /// Others hold the cell.
    Left,
    /// Nobody does, and it waits at this ring to be deleted.
    Last,
}

/// Takes the grant of a ring, by a swap that finds 1: the pass then has the ring, which holds each start clause once.
pub fn take_grant<B: Ledger>(table: &Shared<B>, pass: &mut Pass<B>, ring: u32)
    requires pass { IsPassOf table.now pass.old }
    requires right { IsRight ring pass.old.me.0 }
    requires none { pass.old.me.0.parts ≡ [] }
    ensures pass { IsPassOf table.now pass.new × IsSamePass pass.old pass.new }
    ensures part { pass.new.me.0 ≡ after_grant ring pass.old.me.0 }
{
    let grant = table.layout.grant(ring);
    table.table.shared.swap::<Grants>(pass, grant, 0);
}

/// Takes one more count of a cell that the pass's ring holds. A ring may share 2^56 times.
pub fn share<B: Ledger>(table: &Shared<B>, pass: &mut Pass<B>, cell: Cref)
    requires pass { IsPassOf table.now pass.old }
    requires held { IsHolding cell.address pass.old.me.0 }
    requires room { (only pass.old.me.0).core.shared < MAX_SHARES }
    ensures pass { IsPassOf table.now pass.new × IsSamePass pass.old pass.new }
    ensures part { (found : ℕ) × (pass.new.me.0 ≡ after_share cell.address found pass.old.me.0) }
{
    table
        .table
        .shared
        .fetch_add::<Shares>(pass, cell.address as usize, 1);
}

/// Gives one count of a cell up. It was the last one exactly if the step found 1; the cell then waits at the pass's
/// ring and at no other, and nobody holds it; if there is no other ring it is the last one exactly if the ring held the
/// cell once. The ring has not the turn, since what a turn writes rests on what is held.
pub fn drop_count<B: Ledger>(table: &Shared<B>, pass: &mut Pass<B>, cell: Cref) -> Dropped
    requires pass { IsPassOf table.now pass.old }
    requires held { IsHolding cell.address pass.old.me.0 }
    requires turn { (only pass.old.me.0).turn ≡ None }
    ensures pass { IsPassOf table.now pass.new × IsSamePass pass.old pass.new }
    ensures part { (found : ℕ) × (pass.new.me.0 ≡ after_drop cell.address found pass.old.me.0) × IsDropped found result }
    ensures lone { pass.old.me.0.opening.rings ≡ 1 → IsDropped (times_at cell.address (only pass.old.me.0).core.held) result }
    ensures alone { result ≡ Last → (s : IsSeen pass.new.me.0) → (waiting_times s.core cell.address ≡ 1) × (counted s.core.opening s.core cell.address ≡ 0) }
{
    let found = table
        .table
        .shared
        .fetch_sub::<Drops>(pass, cell.address as usize, 1);
    if found == 1 {
        Dropped::Last
    } else {
        Dropped::Left
    }
}
