//! What the definitions come to: if clauses lie, that each step is its event, and that what is shown is sound.
ghost use Rattle.std.specs.Prelude.{◌≡◌, ◌≢◌, ◌⊎◌, ℕ, ◌+◌, ◌-◌, ◌*◌, ◌%◌, ◌^◌, ◌<◌, ◌≤◌, true, false, List, [], ◌++◌, ◌∷◌, length, fold, slice_index, slice_set, Option, Some, None};
ghost use mathlib.Core.Option.{some, none};
ghost use lib.ListN.{get_elem?};
ghost use Rattle.atomic_table.specs.Table.{State as Table, stepped, keeps};
ghost use Rattle.clause_cell.specs.declared.holes.Hole.{Hole};
ghost use Rattle.clause_cell.specs.Free.{is_within, is_free};
ghost use Rattle.clause_cell.specs.Packing.{words_for};
ghost use Rattle.rup_model.specs.declared.journal.Entry.{Entry};
ghost use Rattle.rup_model.specs.Journal.{book};
ghost use Rattle.share_core.specs.declared.event.TheConstants.{MAX_SHARES};
ghost use Rattle.share_core.specs.declared.event.Event.TheVariants.{Grant, Share, DropCount, OpenCell, Read};
ghost use Rattle.share_core.specs.declared.part.CoreOpening.{CoreOpening};
ghost use Rattle.share_core.specs.State.{State, opened};
ghost use Rattle.share_core.specs.Events.{after};
ghost use Rattle.share_core.specs.Left.{Left};
ghost use Rattle.share_core.specs.Sound.{Sound};
ghost use Rattle.share_rule.specs.declared.Layout.{Layout};
ghost use Rattle.share_rule.specs.declared.rule.Key.{Key};
ghost use Rattle.share_rule.specs.declared.view.BookOrigin.{BookOrigin};
ghost use Rattle.share_rule.specs.declared.view.View.{View};
ghost use Rattle.share_rule.specs.Layout.{first_cell, cells_end, table_words, grant_at};
ghost use Rattle.share_rule.specs.Room.{Room, room, room_after, names, Places};
ghost use Rattle.share_rule.specs.Books.{StandsFor};
ghost use Rattle.share_rule.specs.Openings.{Opens};
ghost use Rattle.share_rule.specs.Views.{closed_view, taken_view, first_view, spent_view, IsRight, IsHolding, IsBuilding, IsBuilt, only, clause_of, making_of, is_ready};
ghost use Rattle.share_rule.specs.Steps.{after_grant, after_share, after_drop, after_store, after_open, after_load, without_right, with_right, joined};
ghost use Rattle.share_rule.specs.Seen.{Stands, Seen};
ghost use Rattle.share_rule.specs.Shown.{Draft, Shown, Shows, ring_of};

use crate::Ledger;

// Where clauses lie

/// The words of clauses lie among those for cells and don't overlap, and none of them is free.
pub fn clauses_lie_apart()
    ensures inside { (l : Layout) (o : CoreOpening) (J : List Entry) (n : ℕ) (r : Hole) → table_words l ≤ 2 ^ 63 → (room l o J).words n ≡ Some r → (first_cell l ≤ r.first) × (r.first + r.len ≤ cells_end l) }
    ensures apart { (l : Layout) (o : CoreOpening) (J : List Entry) (n m : ℕ) (r q : Hole) → table_words l ≤ 2 ^ 63 → (room l o J).words n ≡ Some r → (room l o J).words m ≡ Some q → n ≢ m → (r.first + r.len ≤ q.first) ⊎ (q.first + q.len ≤ r.first) }
    ensures busy { (l : Layout) (o : CoreOpening) (J : List Entry) (n w : ℕ) (r : Hole) → table_words l ≤ 2 ^ 63 → (room l o J).words n ≡ Some r → is_within r.first r.len w ≡ true → is_free (room l o J).holes w ≡ false }
{}

/// An entry changes the words of the clause whose number it has, and of no other.
pub fn entries_change_their_own_words()
    ensures { (m : Room) (e : Entry) (n : ℕ) → names e n ≡ false → (room_after m e).words n ≡ m.words n }
{}

/// Over a longer journal the layout folds on.
pub fn longer_journals_fold_on()
    ensures { (l : Layout) (o : CoreOpening) (J K : List Entry) → length o.journal ≤ length J → room l o (J ++ K) ≡ fold room_after (room l o J) K }
{}

/// If cells lie as their clauses do, they don't overlap.
pub fn cells_lie_apart()
    ensures { (l : Layout) (c : State) → table_words l ≤ 2 ^ 63 → Sound c → Places l c → Stands l c }
{}

// What is shown

/// What an open table shows is a state that enabled events leave, and a sound one; so is what a pass knows a part of.
pub fn what_is_shown_is_sound<B: Ledger>()
    ensures table { (l : Layout) (s : Table (Option B) View) → (h : Shows (StandsFor B.account B.stands) l s) → Left h.core.opening h.core × Sound h.core }
    ensures pass { (v : View) → (s : Seen v) → Left s.core.opening s.core × Sound s.core }
{}

/// What a pass's ring holds is a clause of the log that is not deleted, under its number.
pub fn held_clauses_are_in_the_log()
    ensures { (v : View) (s : Seen v) (a : ℕ) → IsHolding a v → (book s.core.opening.formula s.core.journal).clause (clause_of a v).number ≡ Some (clause_of a v).lits }
{}

// Steps: whatever the table is when a step comes, what it shows then is the step's event away

/// Opening a table is no event. A load takes the slot, which has nothing in it, and the table stays as it was made; the store
/// that brings the book home leaves the opening, whatever the table that is not open is when it comes.
pub fn a_table_opens_with_no_event<B: Ledger>()
    ensures begins { (k : Key) (s : Table (Option B) View) (id : ℕ) → Shown (StandsFor B.account B.stands) k s → get_elem? s.views id ≡ some (closed_view k.layout)
        → Draft (StandsFor B.account B.stands) k (record { words = slice_set s.words 0 (slice_index s.words 0); homes = slice_set s.homes 0 none; views = slice_set s.views id (taken_view k.layout) }) × (get_elem? s.homes 0 ≡ some (some None)) }
    ensures opens { (k : Key) (s : Table (Option B) View) (id entries : ℕ) (o : CoreOpening) (w : BookOrigin) (book : B) → Shown (StandsFor B.account B.stands) k s → 0 < length s.homes → get_elem? s.views id ≡ some (taken_view k.layout) → Opens (StandsFor B.account B.stands) k o w book entries
        → (n : Shows (StandsFor B.account B.stands) k.layout (record { words = slice_set s.words 0 (256 * entries); homes = slice_set s.homes 0 (some (Some book)); views = slice_set s.views id (first_view k.layout o w) })) × (n.core ≡ opened o) }
{}

/// Taking a grant is its event, and finds 1.
pub fn a_grant_is_its_event<B: Ledger>()
    ensures { (k : Key) (s : Table (Option B) View) (h : Shows (StandsFor B.account B.stands) k.layout s) (id r : ℕ) (v : View) → get_elem? s.views id ≡ some v → is_ready v.stage ≡ true → IsRight r v
        → (n : Shows (StandsFor B.account B.stands) k.layout (stepped s (grant_at r) 0 id [] (after_grant r v) keeps)) × (n.core ≡ after h.core (Grant r)) × (slice_index s.words (grant_at r) ≡ 1) }
{}

/// Taking one more count of a cell is its event.
pub fn a_share_is_its_event<B: Ledger>()
    ensures { (k : Key) (s : Table (Option B) View) (h : Shows (StandsFor B.account B.stands) k.layout s) (id a : ℕ) (v : View) → get_elem? s.views id ≡ some v → is_ready v.stage ≡ true → IsHolding a v → (only v).core.shared < MAX_SHARES
        → (n : Shows (StandsFor B.account B.stands) k.layout (stepped s a ((slice_index s.words a + 1) % 2 ^ 64) id [] (after_share a (slice_index s.words a) v) keeps)) × (n.core ≡ after h.core (Share (ring_of (only v)) a)) }
{}

/// Giving a count up is its event.
pub fn a_drop_is_its_event<B: Ledger>()
    ensures { (k : Key) (s : Table (Option B) View) (h : Shows (StandsFor B.account B.stands) k.layout s) (id a : ℕ) (v : View) → get_elem? s.views id ≡ some v → is_ready v.stage ≡ true → IsHolding a v → slice_index s.words a < 2 ^ 64
        → (n : Shows (StandsFor B.account B.stands) k.layout (stepped s a ((slice_index s.words a + (2 ^ 64 - 1)) % 2 ^ 64) id [] (after_drop a (slice_index s.words a) v) keeps)) × (n.core ≡ after h.core (DropCount (ring_of (only v)) a)) }
{}

/// Opening a cell is its event.
pub fn an_opening_is_its_event<B: Ledger>()
    ensures { (k : Key) (s : Table (Option B) View) (h : Shows (StandsFor B.account B.stands) k.layout s) (id a : ℕ) (v : View) → get_elem? s.views id ≡ some v → is_ready v.stage ≡ true → IsBuilding a v → IsBuilt a v
        → (n : Shows (StandsFor B.account B.stands) k.layout (stepped s a 1 id [] (after_open a v) keeps)) × (n.core ≡ after h.core (OpenCell (ring_of (only v)) a)) }
{}

/// Storing a word of a cell under construction is none.
pub fn a_store_is_no_event<B: Ledger>()
    ensures { (k : Key) (s : Table (Option B) View) (h : Shows (StandsFor B.account B.stands) k.layout s) (id a i w : ℕ) (v : View) → get_elem? s.views id ≡ some v → is_ready v.stage ≡ true → IsBuilding a v → 0 < i → i < words_for (length (making_of a v).lits)
        → (n : Shows (StandsFor B.account B.stands) k.layout (stepped s (a + i) w id [] (after_store (a + i) w v) keeps)) × (n.core ≡ h.core) }
{}

/// Loading a word changes nothing: of a cell that is held it is the event of reading, which has no effect.
pub fn a_load_is_no_event<B: Ledger>()
    ensures { (k : Key) (s : Table (Option B) View) (h : Shows (StandsFor B.account B.stands) k.layout s) (id w : ℕ) (v : View) → get_elem? s.views id ≡ some v → is_ready v.stage ≡ true
        → (n : Shows (StandsFor B.account B.stands) k.layout (stepped s w (slice_index s.words w) id [] (after_load w (slice_index s.words w) v) keeps)) × (n.core ≡ h.core) × ((a : ℕ) → n.core ≡ after h.core (Read (ring_of (only v)) a)) }
{}

/// Cutting a pass in two is none: a right moves to a new pass.
pub fn a_split_is_no_event<B: Ledger>()
    ensures { (k : Key) (s : Table (Option B) View) (h : Shows (StandsFor B.account B.stands) k.layout s) (id r : ℕ) (v : View) → get_elem? s.views id ≡ some v → is_ready v.stage ≡ true → IsRight r v
        → (n : Shows (StandsFor B.account B.stands) k.layout (record { words = s.words; homes = s.homes; views = slice_set s.views id (without_right r v) ++ with_right r v ∷ [] })) × (n.core ≡ h.core) }
{}

/// Making two passes one is none: their parts and rights are united.
pub fn a_join_is_no_event<B: Ledger>()
    ensures { (k : Key) (s : Table (Option B) View) (h : Shows (StandsFor B.account B.stands) k.layout s) (id other : ℕ) (v w : View) → get_elem? s.views id ≡ some v → other ≢ id → get_elem? (slice_set s.views id (joined v w)) other ≡ some w
        → (n : Shows (StandsFor B.account B.stands) k.layout (record { words = s.words; homes = s.homes; views = slice_set (slice_set s.views id (joined v w)) other spent_view })) × (n.core ≡ h.core) }
{}
