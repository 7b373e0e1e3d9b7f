//! Subsumption and self-subsuming resolution: clauses that contain another one are deleted, and clauses of which another
//! one is contained except for one negated literal are made shorter by it.
#![tactic(auto)]

mod candidates;
mod compare;
mod passes;
mod relation;
mod signature;

pub use passes::run;
