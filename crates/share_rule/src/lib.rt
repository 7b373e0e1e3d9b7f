//! The shared table of words, and the one rule over it: what the words, the book in the table's slot and the views of
//! the passes show is a state of the core that enabled events leave, so a sound one.
//!
//! A `Pass` is a seat at the table. It moves the words of the rings whose parts it has, by the steps of `plays`,
//! `turn_plays`, `exchange_plays`, `unit_plays` and `ticket_plays`; the crates above take them. `laws`, `turn_laws`,
//! `exchange_laws`, `unit_laws` and `ticket_laws` say of each step which event of the core it is, and `room_laws` what it
//! means that there was no room.
#![tactic(auto)]

mod closing;
mod exchange_laws;
mod exchange_plays;
mod first_words;
mod laws;
mod ledger;
mod making;
mod note;
mod passes;
mod places;
mod plays;
mod rests;
mod room_laws;
mod rule;
mod ticket_laws;
mod ticket_plays;
mod turn_laws;
mod turn_plays;
mod unit_laws;
mod unit_plays;
mod view;

ghost use Rattle.std.specs.Prelude.{◌≡◌, ◌≤◌, ◌^◌};
ghost use Rattle.share_rule.specs.Layout.{table_words};

use atomic_table::Table;
pub use closing::{ClosedTable, close, close_round};
pub use exchange_laws::{
    a_get_is_its_event, a_look_at_the_stop_is_no_event, a_put_is_its_event, a_stop_is_its_event,
    a_stop_is_of_one_ring,
};
pub use exchange_plays::{Gets, LooksAtStop, Puts, SetsStop};
pub use laws::{
    a_drop_is_its_event, a_grant_is_its_event, a_join_is_no_event, a_load_is_no_event,
    a_share_is_its_event, a_split_is_no_event, a_store_is_no_event, a_table_opens_with_no_event,
    an_opening_is_its_event, cells_lie_apart, clauses_lie_apart, entries_change_their_own_words,
    held_clauses_are_in_the_log, longer_journals_fold_on, what_is_shown_is_sound,
};
pub use ledger::Ledger;
pub use making::{MakeStop, make};
pub use note::Note;
pub use passes::{join, split};
pub use plays::{Drops, Grants, Loads, Looks, Opens, Shares, Stores};
pub use rests::Rest;
pub use room_laws::{
    a_noted_want_of_room_is_one, a_turn_without_a_hole_is_tight, longer_journals_stay_tight,
    the_room_is_of_the_starts,
};
pub use rule::{Key, Pass, Rule};
use std::alloc::Global;
pub use ticket_laws::a_draw_is_its_event;
pub use ticket_plays::Draws;
pub use turn_laws::{a_turn_is_its_events, a_turn_missed_is_no_event, a_turn_taken_is_its_event};
pub use turn_plays::{Gives, Notes, Takes};
pub use unit_laws::{
    a_number_loaded_is_no_event, a_number_stored_is_no_event, a_unit_count_is_no_event,
    a_unit_listed_is_its_event, a_unit_seen_is_its_event, a_unit_stored_is_no_event,
};
pub use unit_plays::{
    CountsUnits, ListsUnit, LoadsNumber, SeesUnit, StoresNumber, StoresUnit, Unit,
};
pub use view::{
    BookOrigin, GlueAt, LastStep, Op, Poll, Refusal, RingPart, Stage, StoredWord, Taken, View,
};

/// How many rings, variables, words for cells and slots a table has, and how many tickets there are.
#[derive(Clone, Copy)]
pub struct Layout {
    /// The rings, at most 16.
    pub rings: u32,
    /// The variables, at most 2^30.
    pub vars: u32,
    /// The words for cells, at most 2^31.
    pub words: u64,
    /// The slots for each two rings and class, 1 to 16.
    pub depth: u32,
    /// How many clauses the rings may learn together, at most 2^63.
    pub conflicts: u64,
}

/// The table with its layout. Each step on it takes a pass.
#[derive(Drop)]
pub struct Shared<B: Ledger> {
    /// The words, and the slot with the book.
    pub table: Table<Option<B>, View, Key, Rule<B>, Global>,
    /// Where things lie in the words.
    pub layout: Layout,
    pub ghost sized: { table.shared.table_id.words ≡ table_words layout },
    pub ghost slots: { table.shared.table_id.slots ≡ 1 },
    pub ghost rings: { layout.rings ≤ 16 },
    pub ghost vars: { layout.vars ≤ 2 ^ 30 },
    pub ghost words: { layout.words ≤ 2 ^ 31 },
    pub ghost depth: { layout.depth ≤ 16 },
    pub ghost keyed: { table.shared.key.layout ≡ layout },
}
