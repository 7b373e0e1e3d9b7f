//! Counted cells of the shared table: what a ring does with the cells that it holds and builds. Each call takes one
//! atomic step, `read_head` two and `find_open` one a word; none waits for anybody, and none takes memory.
//!
//! A cell's count is the number of its holders, after Gimsatul (Fleury and Biere 2022). Whoever gives the last count up
//! is known so, and the cell waits at that ring alone until it is deleted.
#![tactic(auto)]

mod builds;
mod counts;
mod reads;
mod scans;

pub use builds::{open_cell, store_word};
pub use counts::{Dropped, drop_count, share, take_grant};
pub use reads::{read_head, read_lit};
pub use scans::{find_open, read_shape};
