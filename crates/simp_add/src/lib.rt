//! Bounded variable addition: where two literals share three sets of other literals or more, a new variable stands for both of
//! them, so that the clauses become fewer.
#![tactic(auto)]

mod alike;
mod numbers;
mod one_more;
mod partner;
mod passes;
mod replacement;
mod shared;
mod tally;

pub use passes::run;
