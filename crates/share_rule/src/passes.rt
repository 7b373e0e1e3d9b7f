//! How a pass is cut in two, and how two are joined.
ghost use Rattle.std.specs.Prelude.{◌≡◌, ℕ, []};
ghost use Rattle.share_rule.specs.Passes.{IsPassOf, IsSamePass};
ghost use Rattle.share_rule.specs.Views.{IsRight};
ghost use Rattle.share_rule.specs.Steps.{without_right, with_right, joined, after_load};

use crate::plays::{Cut, Looks, Ring, Together};
use crate::{Ledger, Pass, Shared};
use std::marker::Brand;

/// Cuts a pass with no parts off, and moves one right to it.
fn cut<R: Ring, B: Ledger>(table: &Shared<B>, pass: &mut Pass<B>) -> Pass<B>
    requires pass { IsPassOf table.now pass.old }
    requires right { IsRight R.ring pass.old.me.0 }
    ensures old { IsPassOf table.now pass.new × IsSamePass pass.old pass.new × (pass.new.me.0 ≡ without_right R.ring pass.old.me.0) }
    ensures new { IsPassOf table.now result × (result.me ≡ (with_right R.ring pass.old.me.0, [])) }
{
    table.table.shared.split_seat::<Cut<R>>(pass)
}

fn split_as<R: Ring, B: Ledger>(table: &Shared<B>, pass: &mut Pass<B>, ring: u32) -> Pass<B>
    requires pass { IsPassOf table.now pass.old }
    requires right { (ring ≡ R.ring) × IsRight ring pass.old.me.0 }
    ensures pass { IsPassOf table.now pass.new × IsSamePass pass.old pass.new }
    ensures old { (found : ℕ) × (pass.new.me.0 ≡ after_load 0 found (without_right ring pass.old.me.0)) }
    ensures new { IsPassOf table.now result × (result.me ≡ (with_right ring pass.old.me.0, [])) }
{
    let new = cut::<R, B>(table, pass);
    table.table.shared.load::<Looks>(pass, 0);
    new
}

/// Makes a new pass with no parts, and moves the right to the ring's grant to it. The step that the old pass notes is a
/// load of the turn.
pub fn split<B: Ledger>(table: &Shared<B>, pass: &mut Pass<B>, ring: u32) -> Pass<B>
    requires pass { IsPassOf table.now pass.old }
    requires right { IsRight ring pass.old.me.0 }
    ensures pass { IsPassOf table.now pass.new × IsSamePass pass.old pass.new }
    ensures old { (found : ℕ) × (pass.new.me.0 ≡ after_load 0 found (without_right ring pass.old.me.0)) }
    ensures new { IsPassOf table.now result × (result.me ≡ (with_right ring pass.old.me.0, [])) }
{
    split_as::<Brand, B>(table, pass, ring)
}

/// Puts the views together. That enabled events leave both is known of the two apart alone, until the next step.
fn unite<B: Ledger>(table: &Shared<B>, pass: &mut Pass<B>, other: Pass<B>)
    requires pass { IsPassOf table.now pass.old }
    requires other { IsPassOf table.now other × (other.me.1 ≡ []) }
    ensures pass { (pass.new.table_id ≡ pass.old.table_id) × IsSamePass pass.old pass.new }
    ensures both { pass.new.me.0 ≡ joined pass.old.me.0 other.me.0 }
{
    table.table.shared.join_seat::<Together>(pass, other);
}

/// Takes another pass in, with its parts and rights. The step that the pass notes is a load of the turn.
pub fn join<B: Ledger>(table: &Shared<B>, pass: &mut Pass<B>, other: Pass<B>)
    requires pass { IsPassOf table.now pass.old }
    requires other { IsPassOf table.now other × (other.me.1 ≡ []) }
    ensures pass { IsPassOf table.now pass.new × IsSamePass pass.old pass.new }
    ensures both { (found : ℕ) × (pass.new.me.0 ≡ after_load 0 found (joined pass.old.me.0 other.me.0)) }
{
    unite(table, pass, other);
    let words = &table.table.shared;
    words.load::<Looks>(pass, 0);
}
