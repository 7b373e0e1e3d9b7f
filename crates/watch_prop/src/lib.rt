//! Unit propagation by two watched literals (MiniSat, Eén and Sörensson 2003), over the clauses that any port holds.
//!
//! `Watched` of specs/ is the invariant between watches, clauses and trail, `Propagation` says what propagation comes to,
//! and `laws` that the trail's calls keep the invariant, and what detaching leaves.
#![tactic(auto)]

mod choice;
mod clause_scan;
mod laws;
mod lists;
mod propagated;
mod rounds;
mod slots;
mod stretches;
mod watch;
mod watches;

pub use laws::{
    a_decision_keeps_watches, an_assignment_keeps_watches, attached_clauses_keep_reasons,
    attached_clauses_keep_watches, attached_clauses_may_be_reasons, attached_reasons_are_held,
    clauses_may_be_set_aside, detaching_keeps_closed, detaching_keeps_reasons,
    detaching_leaves_the_others, going_back_keeps_watches,
};
pub use propagated::Propagated;
pub use rounds::{
    closed_trails_hold_the_rounds, conflicts_of_rounds_are_unfinished, decisions_are_those_made,
    derived_literals_are_in_the_rounds, fixed_literals_stay,
    propagation_from_level_0_agrees_with_rounds, propagation_from_units_agrees_with_rounds,
    reasoned_trails_agree_with_rounds, reasoned_trails_are_derived,
    trails_are_closed_or_unfinished,
};
pub use watches::Watches;
