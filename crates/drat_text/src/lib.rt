//! The bytes of a proof, as DRAT in text or in binary, or as LRAT: how its lines are spelled. `LineOut` is where the lines of a log go one
//! by one, and `SinkLines` writes them to a sink, `CountedLines` spells none. `put_binary` writes one line in binary, and
//! `read_lines` reads a text. `Piece` is a small fixed buffer that another text is written over.
#![tactic(auto)]

mod binary;
mod blocks;
mod counted_lines;
mod digits;
mod groups;
mod laws;
mod line;
mod line_out;
mod literals;
mod lrat;
mod numbers;
mod piece;
mod read;
mod sink_lines;
mod stop;

pub use binary::put_binary;
pub use blocks::BLOCK;
pub use counted_lines::CountedLines;
pub use laws::{
    a_front_ends_in_a_line, bytes_determine_lines, no_spelling_begins_another,
    one_line_is_the_first_bad,
};
pub use line_out::LineOut;
pub use piece::{CAPACITY, Piece};
pub use read::{ReadLinesStop, read_lines};
pub use sink_lines::SinkLines;
pub use stop::LineStop;

#[cfg(test)]
mod tests;
