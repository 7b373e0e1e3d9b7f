//! When a ring goes back to the start of its search: rings of odd number by Luby's sequence (Luby, Sinclair and
//! Zuckerman 1993), those of even number if the glue of late is greater than on the whole (Glucose).
#![tactic(auto)]

mod laws;
mod restarts;
mod sequence;

pub use laws::{luby_by_cases, luby_restarts_are_counted, luby_sums_grow};
pub use restarts::Restarts;
pub use sequence::luby;

#[cfg(test)]
mod tests;
