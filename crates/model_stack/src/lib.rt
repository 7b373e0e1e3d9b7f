//! The reconstruction stack: what has to be mended in a model of a simplified formula, so that it is one of the formula
//! before. The rule is that of Järvisalo, Heule and Biere (Inprocessing Rules, 2012).
#![tactic(auto)]

mod laws;
mod stack;

pub use laws::{lifts_compose, stacks_follow};
pub use stack::{Fix, Stack};

#[cfg(test)]
mod tests;
