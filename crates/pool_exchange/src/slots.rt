//! The slots between rings.
ghost use Rattle.std.specs.Prelude.{◌≡◌, ◌≢◌, ℕ, ◌<◌, ◌≤◌, ◌+◌, ◌*◌, ◌^◌, Contains, IfSome, None};
ghost use Rattle.share_core.specs.declared.stored.ClauseAt.{ClauseAt};
ghost use Rattle.share_rule.specs.Passes.{IsPassOf, IsSamePass};
ghost use Rattle.share_rule.specs.Views.{only, IsHolding};
ghost use Rattle.share_rule.specs.Exchanges.{IsRing, IsOther, KeepsGlues, after_put, after_get};
ghost use Rattle.pool_exchange.specs.Found.{IsFound};

use sat_words::Cref;
use share_rule::{Gets, Ledger, Pass, Puts, Shared};

/// The cell whose address a slot had.
fn cell_at(found: u64) -> Option<Cref>
    ensures { IsFound found result }
{
    if found == 0 {
        None
    } else {
        Some(Cref { address: found })
    }
}

/// Swaps a count of a cell that the pass's ring holds into a slot of its own for another ring. None comes exactly if the
/// slot was empty; what comes out, which the ring had put there, is the ring's from then on, and to be given up. The ring has not
/// the turn, since what a turn writes rests on what is held.
pub fn put<B: Ledger>(
    table: &Shared<B>,
    pass: &mut Pass<B>,
    ring: u32,
    to: u32,
    class: u8,
    place: u32,
    cell: Cref,
) -> Option<Cref>
    requires pass { IsPassOf table.now pass.old }
    requires ring { IsRing ring pass.old.me.0 }
    requires to { IsOther to pass.old.me.0 }
    requires class { class < 4 }
    requires place { place < table.now.layout.depth }
    requires held { IsHolding cell.address pass.old.me.0 }
    requires turn { (only pass.old.me.0).turn ≡ None }
    ensures pass { IsPassOf table.now pass.new × IsSamePass pass.old pass.new }
    ensures part { (h : ClauseAt) × (g : ℕ) × (pass.new.me.0 ≡ after_put to class place cell.address h g pass.old.me.0) × IsFound h.address result × KeepsGlues h g (only pass.old.me.0) × (h.address ≢ 0 → Contains (only pass.old.me.0).gave h) }
    ensures held { IfSome result (λ c. IsHolding c.address pass.new.me.0) }
{
    let slot = table.layout.slot(ring, to, class, place);
    let words = &table.table.shared;
    let found = words.swap::<Puts>(pass, slot, cell.address);
    cell_at(found)
}

/// Swaps what a slot of another ring for the pass's ring has out. None comes exactly if the slot was empty; what comes out
/// is held by the pass's ring, with the count that lay in the slot.
pub fn get<B: Ledger>(
    table: &Shared<B>,
    pass: &mut Pass<B>,
    ring: u32,
    from: u32,
    class: u8,
    place: u32,
) -> Option<Cref>
    requires pass { IsPassOf table.now pass.old }
    requires ring { IsRing ring pass.old.me.0 }
    requires from { IsOther from pass.old.me.0 }
    requires class { class < 4 }
    requires place { place < table.now.layout.depth }
    ensures pass { IsPassOf table.now pass.new × IsSamePass pass.old pass.new }
    ensures part { (h : ClauseAt) × (g : ℕ) × (pass.new.me.0 ≡ after_get from class place h g pass.old.me.0) × IsFound h.address result × KeepsGlues h g (only pass.old.me.0) }
    ensures held { IfSome result (λ c. IsHolding c.address pass.new.me.0) }
{
    let slot = table.layout.slot(from, ring, class, place);
    let words = &table.table.shared;
    let found = words.swap::<Gets>(pass, slot, 0);
    cell_at(found)
}
