//! Formulas decided by rings beside each other, in rounds. The ruler simplifies the formula. In a round a table is opened over what is
//! left, each ring gets a pass of it with its grant and a port over the pass, and all rings run at once. The passes are taken in
//! again after them, and the end that counts gives the answer. If there is none, and lemmas are left to learn, the table is closed,
//! the ruler goes on with what it held, and the next round begins. After the last the proof is finished.
//!
//! The first pass of a table has no ring: it is the one into which all others are gathered.
#![tactic(auto)]

mod answer;
mod counts;
mod decision;
mod finish;
mod jobs;
mod noted;
mod parts;
mod plan;
mod ports;
mod rests;
mod rounds;
mod search;
mod seats;
mod solving;
mod tables;

pub use answer::{Answer, Solved};
pub use plan::Plan;
pub use solving::solve;
