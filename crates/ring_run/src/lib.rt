//! A ring: conflict-driven clause learning over any port, on one thread.
//!
//! `run_ring` is the loop of MiniSat (Eén and Sörensson 2003). It propagates. At a conflict it learns the
//! clause of the first unique implication point, goes back to where that forces its first literal, and makes this true; or it
//! restarts, and goes back to level 0. Where nothing is left to propagate it decides a variable of the start clauses without a
//! value. A conflict without decisions refutes the clauses, and where each of these variables has a value there is a model.
//! The clauses that it started with or learned are propagated by two watched literals. After a restart it gives up lemmas
//! of great glue, vivifies those of small glue, and probes literals without a value.
#![tactic(auto)]

mod course;
mod decision;
mod imports;
mod job;
mod lemma;
mod probing;
mod reduction;
mod ring;
mod run;
mod search;
mod units;
mod variables;
mod vivification;
mod walking;

pub use job::{Addresses, Counts, End, Job};
pub use probing::PROBES;
pub use run::run_ring;
