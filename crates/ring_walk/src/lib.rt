//! A walk over assignments: a false clause is drawn, and one of its variables is flipped, the sooner the fewer clauses become
//! false by it (after probSAT: Balint and Schöning 2012).
#![tactic(auto)]

mod counting;
mod kept;
mod listed;
mod occurrences;
mod starting;
mod tally;
mod turns;
mod walker;

pub use walker::Walker;

#[cfg(test)]
mod tests;
