//! Clauses in words: the number of words that a clause takes, the packing of its head and its literals, and the words that
//! are free.
#![tactic(auto)]

mod block;
mod holes;
mod laws;
mod packing;
mod sorted;

pub use holes::{Hole, HoleStop, Holes};
pub use laws::{
    free_words_are_exact, free_words_tell_the_holes, holes_never_touch, literals_are_read_back,
    none_fits_where_the_longest_is_shorter, words_are_read_back,
};
pub use packing::{
    first_half, glue_of, half, head_word, lit_word, pair_word, second_half, size_of, words_for,
};

#[cfg(test)]
mod tests;
