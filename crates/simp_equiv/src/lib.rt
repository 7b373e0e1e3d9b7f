//! Equivalent literals: those that imply each other through clauses of two literals are replaced by one of them.
#![tactic(auto)]

mod additions;
mod components;
mod deletions;
mod entries;
mod graph;
mod least;
mod passes;
mod stand_in;
mod table;
mod targets;

pub use passes::run;
