//! Steps on the turn: whatever the table is when a step comes, what it shows then is the step's events away.
ghost use Rattle.std.specs.Prelude.{◌≡◌, ℕ, ◌+◌, ◌*◌, ◌%◌, ◌<◌, Bool, true, List, [], ◌∷◌, map, fold, length, slice_index, slice_set, Option, Some, None};
ghost use mathlib.Core.Option.{some, none};
ghost use lib.ListN.{get_elem?};
ghost use Rattle.atomic_table.specs.Table.{State as Table, stepped, keeps};
ghost use Rattle.share_core.specs.declared.event.Event.TheVariants.{TakeTurn, GiveTurn};
ghost use Rattle.share_core.specs.Events.{after};
ghost use Rattle.share_rule.specs.declared.note.Note.{Note};
ghost use Rattle.share_rule.specs.declared.rule.Key.{Key};
ghost use Rattle.share_rule.specs.declared.view.Refusal.{Refusal};
ghost use Rattle.share_rule.specs.declared.view.View.{View};
ghost use Rattle.share_rule.specs.Books.{StandsFor};
ghost use Rattle.share_rule.specs.Shown.{Shows, ring_of};
ghost use Rattle.share_rule.specs.Views.{only, is_ready};
ghost use Rattle.share_rule.specs.Turns.{IsFree, IsWriting, MayWrite, WasRefused, written_of, event_of, after_take, after_miss, after_give};

use crate::Ledger;

/// Taking the turn is its event: the word that says that nobody has it comes to tell that the ring has, and the book
/// leaves the slot.
pub fn a_turn_taken_is_its_event<B: Ledger>()
    ensures { (k : Key) (s : Table (Option B) View) (h : Shows (StandsFor B.account B.stands) k.layout s) (id free : ℕ) (v : View) → get_elem? s.views id ≡ some v → is_ready v.stage ≡ true → IsFree v → slice_index s.words 0 ≡ free → free % 256 ≡ 0
        → (n : Shows (StandsFor B.account B.stands) k.layout (record { words = slice_set s.words 0 (free + (ring_of (only v) + 1)); homes = slice_set s.homes 0 none; views = slice_set s.views id (after_take free (free + (ring_of (only v) + 1)) h.core.journal h.fault v) })) × (n.core ≡ after h.core (TakeTurn (ring_of (only v)))) }
{}

/// Missing it is none.
pub fn a_turn_missed_is_no_event<B: Ledger>()
    ensures { (k : Key) (s : Table (Option B) View) (h : Shows (StandsFor B.account B.stands) k.layout s) (id free new : ℕ) (v : View) → get_elem? s.views id ≡ some v → is_ready v.stage ≡ true
        → (n : Shows (StandsFor B.account B.stands) k.layout (stepped s 0 (slice_index s.words 0) id [] (after_miss free new (slice_index s.words 0) v) keeps)) × (n.core ≡ h.core) }
{}

/// The store that gives the turn back is what was written in it, in order, and then the giving.
pub fn a_turn_is_its_events<B: Ledger>()
    ensures { (k : Key) (s : Table (Option B) View) (h : Shows (StandsFor B.account B.stands) k.layout s) (id : ℕ) (v : View) (book : B) (ns : List Note) (x : Option Refusal) (failed : Bool) → 0 < length s.homes → get_elem? s.views id ≡ some v → is_ready v.stage ≡ true → IsWriting v
        → MayWrite v ns → WasRefused v ns x failed → StandsFor B.account B.stands book v.origin v.layout v.opening (written_of v ns).journal failed
        → (n : Shows (StandsFor B.account B.stands) k.layout (record { words = slice_set s.words 0 (256 * length (written_of v ns).journal); homes = slice_set s.homes 0 (some (Some book)); views = slice_set s.views id (after_give ns x failed v) }))
        × (n.core.journal ≡ (written_of v ns).journal) × (n.core ≡ after (fold after h.core (map (event_of (ring_of (only v))) ns)) (GiveTurn (ring_of (only v)))) }
{}
