//! Rounds of the core, one after another: the ruler writes, the rings open as the program does and take their steps, and
//! the ruler goes on with the journal that they leave.
//!
//! `AreRounds` of specs/ says which rounds leave which journal. The laws say what such a journal is: its log is sound, each
//! entry is the ruler's, begins a round or is of a ring, what a ring learns is fresh in its round, and a round begins after
//! another only if that one learned all that it might. The crate has no code but its laws.
#![tactic(auto)]

mod laws;
mod ruler_laws;

pub use laws::{
    a_round_begins_when_due, a_round_tells_its_opening, entries_are_of_rounds,
    rounds_come_to_an_end, rounds_learn_no_more_than_they_may, rounds_leave_a_hinted_log,
    rounds_leave_a_sound_log, what_is_learned_is_fresh_in_its_round,
};
pub use ruler_laws::the_ruler_keeps_rounds;
