//! Small tables with rings at them, over which the crates that step on a table are tested; the program has none.
#![tactic(auto)]

mod book;
mod making;
mod rings;
mod words;

pub use book::SampleBook;
pub use making::{open, open_with, open_with_tickets, refusal};
pub use rings::{Ring, begin, close_two, gather, give_up, start_cell};
pub use words::word_at;

#[cfg(test)]
mod tests;
