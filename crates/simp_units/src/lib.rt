//! Units: they are propagated, and the clauses that hold their variables are deleted or made shorter.
#![tactic(auto)]

mod clean;
mod look;
mod passes;
mod propagate;
mod start;

pub use passes::run;
