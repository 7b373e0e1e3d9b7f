//! The plain check of a DRAT proof (Wetzler, Heule and Hunt 2014): each line is tried over the clauses that are alive before
//! it, with no index and nothing kept from line to line.
#![tactic(auto)]

mod lines;
mod verdict;

pub use verdict::{Verdict, check};

#[cfg(test)]
mod tests;
