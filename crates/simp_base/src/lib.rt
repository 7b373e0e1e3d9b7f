//! What the simplifiers work on: the clauses alive, the units, the reconstruction stack and the log.
//!
//! Each line that a work puts is valid where it stands. A simplifier shows beside that that models lift. `LineStop` says
//! why a call was refused: the output failed, as many lines stand as can, or memory ran out.
#![tactic(auto)]

mod beginning;
mod clause_table;
mod hints;
mod laws;
mod occurrences;
mod part;
mod tautology;
mod unit_table;
mod work;

pub use drat_text::LineStop;
pub use laws::{
    contained_clauses_lift, continuing_grows, ended_refutes, growing_composes,
    implied_clauses_lift, lifted_composes, lifted_itself, logs_compose, rat_over_the_same_sets,
    strengthened_clauses_follow, wider_clauses_follow,
};
pub use part::takes_part;
pub use tautology::is_tautology;
pub use work::{LogEnd, Parts, Run, Work};
