//! The words that every other crate speaks: literals, clauses, formulas, assignments, lines of a proof, and the
//! addresses, heads and stops of clauses that rings share.
#![tactic(auto)]

mod assignment;
mod clause;
mod laws;
mod line;
mod literal;
mod shared;
mod values;

pub use assignment::Assignment;
pub use clause::{Clause, Formula};
pub use laws::{a_clause_is_a_set, equal_lists_are_one, truth_is_of_the_set};
pub use line::{Line, Lits, ProofFormat};
pub use literal::Lit;
pub use shared::{
    Cref, Head, MAX_ENTRIES, NoRoom, STOP_MEMORY, STOP_PROOF, STOP_REFUTED, STOP_ROOM, STOP_SAT,
    Set, Stop,
};
pub use values::Values;

#[cfg(test)]
mod tests;
