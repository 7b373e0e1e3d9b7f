//! The pure core of the solver's rings: a machine over events, with counted cells that hold the shared clauses, pools
//! of slots through which rings hand them to each other, a list of units, tickets for what is learned, and one journal
//! that all write.
//!
//! `State` of specs/ is what it is in, `IsEnabled` and `after` say when each event may come and what it does, and
//! `Sound` what every list of enabled events keeps: each count is the number of holders, and each line of the log is
//! valid where it stands.
#![tactic(auto)]

mod cell_laws;
mod cells;
mod draws;
mod effects;
mod event;
mod fitting;
mod guards;
mod items;
mod journal;
mod knowledge;
mod laws;
mod next_round;
mod openings;
mod part;
mod progress;
mod ring;
mod ring_laws;
mod round_line;
mod rounds;
mod running;
mod stored;

pub use cell_laws::{
    cells_hold_the_clauses, counts_are_bounded, numbers_are_below_the_next, slots_have_open_cells,
    what_a_ring_builds, what_a_ring_holds, what_follows_is_valid, what_waits,
};
pub use event::{Event, MAX_DEPTH, MAX_SHARES, Stop};
pub use laws::{
    additions_are_hinted, enabled_events_keep_sound, enabled_lists_join, entries_are_of_rings,
    events_keep_sound, events_leave_states, journals_grow, openings_are_sound,
    recent_by_own_entries, sound_is_plain,
};
pub use part::{CoreOpening, Part, Placed};
pub use ring_laws::{
    guards_stay_enabled, others_stay, shares_are_counted, the_first_stop_stays,
    the_turn_is_a_rings, the_turn_keeps_the_log, tickets_are_counted, units_grow,
};
pub use round_line::RoundLine;
pub use running::{Core, Step};
pub use stored::{Cell, ClauseAt, PutNote};
