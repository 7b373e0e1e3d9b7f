//! That each step on slots and on the stop is its event.
ghost use Rattle.std.specs.Prelude.{◌≡◌, ◌≢◌, ℕ, ◌+◌, ◌*◌, ◌==◌, ◌<◌, ◌≤◌, true, List, [], Contains, slice_index, Option, Some};
ghost use mathlib.Core.Option.{some};
ghost use lib.ListN.{get_elem?};
ghost use prog.Atomic.{either};
ghost use Rattle.atomic_table.specs.Table.{State as Table, stepped, keeps};
ghost use Rattle.share_core.specs.declared.event.Event.TheVariants.{Put, Get, Stop};
ghost use Rattle.share_core.specs.declared.event.Stop.{Stop as StopWord};
ghost use Rattle.share_core.specs.declared.stored.ClauseAt.{ClauseAt};
ghost use Rattle.share_core.specs.Events.{after};
ghost use Rattle.share_rule.specs.declared.rule.Key.{Key};
ghost use Rattle.share_rule.specs.declared.view.RingPart.{RingPart};
ghost use Rattle.share_rule.specs.declared.view.View.{View};
ghost use Rattle.share_rule.specs.Books.{StandsFor};
ghost use Rattle.share_rule.specs.Views.{IsHolding, only, own_stop, is_ready};
ghost use Rattle.share_rule.specs.Exchanges.{IsRing, IsOther, slot_word, KeepsGlues, after_put, after_get, after_look, after_set};
ghost use Rattle.share_rule.specs.Seen.{Seen};
ghost use Rattle.share_rule.specs.Shown.{Shows, ring_of};

use crate::Ledger;

/// Putting a count into a slot is its event. What comes out is what the slot had; the ring had given it.
pub fn a_put_is_its_event<B: Ledger>()
    ensures { (k : Key) (s : Table (Option B) View) (h : Shows (StandsFor B.account B.stands) k.layout s) (id to class place a : ℕ) (v : View) → get_elem? s.views id ≡ some v → is_ready v.stage ≡ true → IsHolding a v → IsOther to v → class < 4 → place < v.opening.depth
        → (x : ClauseAt) × (g : ℕ) × (x.address ≡ slice_index s.words (slot_word v (ring_of (only v)) to class place)) × KeepsGlues x g (only v) × (x.address ≢ 0 → Contains (only v).gave x)
        × ((n : Shows (StandsFor B.account B.stands) k.layout (stepped s (slot_word v (ring_of (only v)) to class place) a id [] (after_put to class place a x g v) keeps)) × (n.core ≡ after h.core (Put (ring_of (only v)) to class place a))) }
{}

/// Getting what another ring's slot has is its event.
pub fn a_get_is_its_event<B: Ledger>()
    ensures { (k : Key) (s : Table (Option B) View) (h : Shows (StandsFor B.account B.stands) k.layout s) (id from class place : ℕ) (v : View) → get_elem? s.views id ≡ some v → is_ready v.stage ≡ true → IsOther from v → class < 4 → place < v.opening.depth
        → (x : ClauseAt) × (g : ℕ) × (x.address ≡ slice_index s.words (slot_word v from (ring_of (only v)) class place)) × KeepsGlues x g (only v)
        × ((n : Shows (StandsFor B.account B.stands) k.layout (stepped s (slot_word v from (ring_of (only v)) class place) 0 id [] (after_get from class place x g v) keeps)) × (n.core ≡ after h.core (Get (ring_of (only v)) from class place))) }
{}

/// Trying to set the stop is its event, also if one stands: then it has no effect.
pub fn a_stop_is_its_event<B: Ledger>()
    ensures { (k : Key) (s : Table (Option B) View) (h : Shows (StandsFor B.account B.stands) k.layout s) (id kind r : ℕ) (v : View) → get_elem? s.views id ≡ some v → is_ready v.stage ≡ true → IsRing r v → 1 ≤ kind → kind ≤ 5 → (kind ≡ 2 → (only v).ended ≡ true)
        → (n : Shows (StandsFor B.account B.stands) k.layout (stepped s 1 (either (slice_index s.words 1 == 0) (kind + 8 * r) (slice_index s.words 1)) id [] (after_set (kind + 8 * r) (slice_index s.words 1) v) keeps)) × (n.core ≡ after h.core (Stop r kind)) }
{}

/// Looking at the stop is none.
pub fn a_look_at_the_stop_is_no_event<B: Ledger>()
    ensures { (k : Key) (s : Table (Option B) View) (h : Shows (StandsFor B.account B.stands) k.layout s) (id : ℕ) (v : View) → get_elem? s.views id ≡ some v → is_ready v.stage ≡ true
        → (n : Shows (StandsFor B.account B.stands) k.layout (stepped s 1 (slice_index s.words 1) id [] (after_look (slice_index s.words 1) v) keeps)) × (n.core ≡ h.core) }
{}

/// The stop that a pass has seen stands; the ring whose number it has set it, and no other ring of the pass has set one.
pub fn a_stop_is_of_one_ring()
    ensures stands { (v : View) (s : Seen v) (t : StopWord) → v.stop ≡ Some t → s.core.stop ≡ Some t }
    ensures sets { (v : View) (s : Seen v) (i : ℕ) (p : RingPart) (t : StopWord) → v.stop ≡ Some t → get_elem? v.parts i ≡ some p → p.set ≡ own_stop (ring_of p) (Some t) }
{}
