//! A reader of proofs in LRAT that follows each line. The tests of what writes them share it.
#![tactic(auto)]

mod follower;
mod words;

pub use follower::Follower;

#[cfg(test)]
mod tests;
