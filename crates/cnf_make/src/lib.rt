//! Formulas that need no file: random clauses of three literals on 20000 variables, planted so that a hidden assignment
//! satisfies each of them.
#![tactic(auto)]

mod planted;

pub use planted::{CLAUSES, VARS, make};

#[cfg(test)]
mod tests;
