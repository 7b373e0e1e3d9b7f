//! Bounded variable elimination: if it makes no more clauses than it removes, the clauses with a variable are replaced by
//! their resolvents on it.
#![tactic(auto)]

mod additions;
mod deletions;
mod entries;
mod occurrences;
mod passes;
mod resolution;

pub use passes::run;
