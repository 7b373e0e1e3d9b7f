//! Random truth values: the lowest bits of the words of a permuted congruential generator (O'Neill 2014, "PCG").
#![tactic(auto)]

mod bits;

pub use bits::lowest_bits;

#[cfg(test)]
mod tests;
