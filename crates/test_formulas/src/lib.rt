//! Formulas that tests make clause by clause, each with what a search of it starts from; the program has none.
#![tactic(auto)]

mod problem;

pub use problem::Problem;

#[cfg(test)]
mod tests;
