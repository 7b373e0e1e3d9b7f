//! The slots of the first class between two rings.
ghost use Rattle.std.specs.Prelude.{◌≡◌, ◌≢◌, ◌<◌, ◌↔◌, ℕ, IfSome, IsSome, None};
ghost use Rattle.pool_exchange.specs.Found.{IsFound};
ghost use Rattle.ref_count.specs.Drops.{IsDropped};
ghost use Rattle.share_core.specs.State.{times_at};
ghost use Rattle.share_core.specs.declared.stored.ClauseAt.{ClauseAt};
ghost use Rattle.share_rule.specs.Exchanges.{after_put, after_get};
ghost use Rattle.share_rule.specs.Steps.{after_drop};
ghost use Rattle.share_rule.specs.Views.{only};
ghost use Rattle.test_tables.specs.Samples.{IsRing as IsAlone};

use pool_exchange::{get, put};
use ref_count::{Dropped, drop_count};
use sat_words::Cref;
use share_rule::{Ledger, Shared};
use test_tables::Ring;

/// Puts a cell that the ring holds into its slot for another at this place, in the first class. It still holds what it
/// held of others.
pub fn put_first<B: Ledger>(
    table: &Shared<B>,
    ring: &mut Ring<B>,
    to: u32,
    place: u32,
    cell: Cref,
) -> Option<Cref>
    requires ring { IsAlone table.now ring.old.pass ring.old.ring }
    requires to { (to < ring.old.pass.me.0.opening.rings) × (to ≢ ring.old.ring) }
    requires place { place < table.now.layout.depth }
    requires held { 0 < times_at cell.address (only ring.old.pass.me.0).core.held }
    ensures ring { IsAlone table.now ring.new.pass ring.new.ring }
    ensures swapped { (h : ClauseAt) × (g : ℕ) × (ring.new.pass.me.0 ≡ after_put to 0 place cell.address h g ring.old.pass.me.0) × IsFound h.address result }
    ensures back { IfSome result (λ c. 0 < times_at c.address (only ring.new.pass.me.0).core.held) }
    ensures held { (a : ℕ) → a ≢ cell.address → 0 < times_at a (only ring.old.pass.me.0).core.held → 0 < times_at a (only ring.new.pass.me.0).core.held }
    ensures same { (ring.new.ring ≡ ring.old.ring) × (ring.new.pass.me.0.opening ≡ ring.old.pass.me.0.opening) }
{
    put(table, &mut ring.pass, ring.ring, to, 0, place, cell)
}

/// Gives up what came back. Whether it was the last count is known.
pub fn give_back<B: Ledger>(
    table: &Shared<B>,
    ring: &mut Ring<B>,
    back: Option<Cref>,
) -> Option<Dropped>
    requires ring { IsAlone table.now ring.old.pass ring.old.ring }
    requires back { IfSome back (λ c. 0 < times_at c.address (only ring.old.pass.me.0).core.held) }
    ensures ring { IsAlone table.now ring.new.pass ring.new.ring }
    ensures told { IsSome result ↔ IsSome back }
    ensures none { back ≡ None → ring.new ≡ ring.old }
    ensures dropped { IfSome back (λ c. IfSome result (λ told. (found : ℕ) × (ring.new.pass.me.0 ≡ after_drop c.address found ring.old.pass.me.0) × IsDropped found told)) }
    ensures same { ring.new.ring ≡ ring.old.ring }
{
    match back {
        Some(cell) => Some(drop_count(table, &mut ring.pass, cell)),
        None => None,
    }
}

/// Gets what another ring's slot for this one has at this place, in the first class.
pub fn get_first<B: Ledger>(
    table: &Shared<B>,
    ring: &mut Ring<B>,
    from: u32,
    place: u32,
) -> Option<Cref>
    requires ring { IsAlone table.now ring.old.pass ring.old.ring }
    requires from { (from < ring.old.pass.me.0.opening.rings) × (from ≢ ring.old.ring) }
    requires place { place < table.now.layout.depth }
    ensures ring { IsAlone table.now ring.new.pass ring.new.ring }
    ensures swapped { (h : ClauseAt) × (g : ℕ) × (ring.new.pass.me.0 ≡ after_get from 0 place h g ring.old.pass.me.0) × IsFound h.address result }
    ensures held { IfSome result (λ c. 0 < times_at c.address (only ring.new.pass.me.0).core.held) }
    ensures same { (ring.new.ring ≡ ring.old.ring) × (ring.new.pass.me.0.opening ≡ ring.old.pass.me.0.opening) }
{
    get(table, &mut ring.pass, ring.ring, from, 0, place)
}
