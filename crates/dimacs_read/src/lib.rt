//! Reads a formula in DIMACS CNF, the input format of the SAT Competition.
//!
//! `read` takes the bytes of a source in pieces, through a machine that takes one byte after another. What a text is,
//! is said over its lines and tokens, apart from that machine: a formula, or a first bad place. `pieces` has the loop
//! over the source, `reader` the machine, `spots` what each byte leads to, `header` the header line, and `body` the
//! clauses.
#![tactic(auto)]

mod body;
mod bytes;
mod header;
mod laws;
mod pieces;
mod reader;
mod spot;
mod spots;
mod stop;
#[cfg(test)]
mod tests;

pub use laws::{has_one_first_bad_place, read_or_bad, reads_one_formula};
pub use pieces::read;
pub use stop::{Code, ReadStop};
