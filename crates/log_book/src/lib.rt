//! The log behind its turn. The book has the proof's sink, the numbers of its lines, and the words that are free for
//! cells. While rings run it lies in the shared table's slot; whoever has the turn takes it out, writes, and brings it
//! home. Before the rings it takes lines as any line output does.
//!
//! The text streams: it gathers in a block that is written whenever it is full, so that a write may end inside a line,
//! and the lines themselves are kept only if that is asked for.
#![tactic(auto)]

mod book;
mod book_lines;
mod calls;
mod kept;
mod log_lines;
mod steps;
mod stop;
mod turn;
mod turns;
mod writes;

pub use book::Book;
pub use log_lines::LogLines;
pub use stop::TurnStop;
pub use turn::Turn;
pub use turns::{give_turn, take_turn};
