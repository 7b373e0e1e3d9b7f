//! Steps on listed units: whatever the table is when a step comes, what it shows then is the step's event away.
ghost use Rattle.std.specs.Prelude.{◌≡◌, ℕ, ◌+◌, ◌<◌, true, [], ◌∷◌, length, slice_index, Option, Some};
ghost use mathlib.Core.Option.{some};
ghost use lib.ListN.{get_elem?};
ghost use Rattle.atomic_table.specs.Table.{State as Table, stepped, keeps};
ghost use Rattle.sat_words.specs.Literal.{Literal, code_of};
ghost use Rattle.share_core.specs.declared.event.Event.TheVariants.{Publish, See};
ghost use Rattle.share_core.specs.Events.{after, listed_number};
ghost use Rattle.share_rule.specs.declared.rule.Key.{Key};
ghost use Rattle.share_rule.specs.declared.view.View.{View};
ghost use Rattle.share_rule.specs.Books.{StandsFor};
ghost use Rattle.share_rule.specs.Layout.{number_at, InVars};
ghost use Rattle.share_rule.specs.Steps.{after_load};
ghost use Rattle.share_rule.specs.Shown.{Shows, ring_of};
ghost use Rattle.share_rule.specs.Views.{only, is_ready};
ghost use Rattle.share_rule.specs.Units.{MayPublish, next_unit_at, next_number_at, after_unit, after_number, after_list, after_count, after_see};

use crate::Ledger;

/// Storing the word of a unit after those listed is none.
pub fn a_unit_stored_is_no_event<B: Ledger>()
    ensures { (k : Key) (s : Table (Option B) View) (h : Shows (StandsFor B.account B.stands) k.layout s) (id w : ℕ) (lit : Literal) (number : ℕ) (v : View) → get_elem? s.views id ≡ some v → is_ready v.stage ≡ true → MayPublish lit number v
        → (n : Shows (StandsFor B.account B.stands) k.layout (stepped s (next_unit_at v) w id [] (after_unit w v) keeps)) × (n.core ≡ h.core) }
{}

/// Storing a number after those of the listed units is none.
pub fn a_number_stored_is_no_event<B: Ledger>()
    ensures { (k : Key) (s : Table (Option B) View) (h : Shows (StandsFor B.account B.stands) k.layout s) (id w : ℕ) (lit : Literal) (number : ℕ) (v : View) → get_elem? s.views id ≡ some v → is_ready v.stage ≡ true → MayPublish lit number v
        → (n : Shows (StandsFor B.account B.stands) k.layout (stepped s (next_number_at v) w id [] (after_number w v) keeps)) × (n.core ≡ h.core) }
{}

/// Storing how many units are listed, one more, is the event that lists the unit with its number.
pub fn a_unit_listed_is_its_event<B: Ledger>()
    ensures { (k : Key) (s : Table (Option B) View) (h : Shows (StandsFor B.account B.stands) k.layout s) (id : ℕ) (lit : Literal) (number : ℕ) (v : View) → get_elem? s.views id ≡ some v → is_ready v.stage ≡ true → MayPublish lit number v → (only v).unit ≡ Some (code_of lit) → (only v).number ≡ Some number
        → (n : Shows (StandsFor B.account B.stands) k.layout (stepped s 2 (length (only v).core.seen + 1) id [] (after_list lit number v) keeps)) × (n.core ≡ after h.core (Publish (ring_of (only v)) lit number)) }
{}

/// Loading the number of listed units is none.
pub fn a_unit_count_is_no_event<B: Ledger>()
    ensures { (k : Key) (s : Table (Option B) View) (h : Shows (StandsFor B.account B.stands) k.layout s) (id : ℕ) (v : View) → get_elem? s.views id ≡ some v → is_ready v.stage ≡ true → v.parts ≡ only v ∷ []
        → (n : Shows (StandsFor B.account B.stands) k.layout (stepped s 2 (slice_index s.words 2) id [] (after_count (slice_index s.words 2) v) keeps)) × (n.core ≡ h.core) }
{}

/// Loading the next listed unit is the event that sees it, and the word is the unit's.
pub fn a_unit_seen_is_its_event<B: Ledger>()
    ensures { (k : Key) (s : Table (Option B) View) (h : Shows (StandsFor B.account B.stands) k.layout s) (id : ℕ) (v : View) → get_elem? s.views id ≡ some v → is_ready v.stage ≡ true → v.parts ≡ only v ∷ [] → length (only v).core.seen < (only v).listed
        → (lit : Literal) × (number : ℕ) × (slice_index s.words (next_unit_at v) ≡ code_of lit) × InVars v.layout (lit ∷ [])
        × ((n : Shows (StandsFor B.account B.stands) k.layout (stepped s (next_unit_at v) (slice_index s.words (next_unit_at v)) id [] (after_see lit number v) keeps)) × (n.core ≡ after h.core (See (ring_of (only v))))) }
{}

/// Loading the number of a unit that the ring has seen is none, and the word is that number.
pub fn a_number_loaded_is_no_event<B: Ledger>()
    ensures { (k : Key) (s : Table (Option B) View) (h : Shows (StandsFor B.account B.stands) k.layout s) (id place : ℕ) (v : View) → get_elem? s.views id ≡ some v → is_ready v.stage ≡ true → v.parts ≡ only v ∷ [] → place < length (only v).core.seen
        → (slice_index s.words (number_at v.layout place) ≡ listed_number (only v).core.numbers place)
        × ((n : Shows (StandsFor B.account B.stands) k.layout (stepped s (number_at v.layout place) (slice_index s.words (number_at v.layout place)) id [] (after_load (number_at v.layout place) (slice_index s.words (number_at v.layout place)) v) keeps)) × (n.core ≡ h.core)) }
{}
