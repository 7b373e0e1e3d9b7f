// The numbers of units, kept by the codes of their literals.
ghost use Rattle.std.specs.Prelude.{◌≡◌, ◌≢◌, [], IfOk, MatchOption, slice_index, slice_set};
ghost use Rattle.sat_words.specs.Literal.{code_of};
ghost use Rattle.ring_pass.specs.Numbers.{HasNumbers};

use sat_words::Lit;
use std::alloc::{AllocError, Global};

/// A table for the numbers of units on the variables up to this one, which has none yet.
pub(crate) fn no_numbers(alloc: Global, vars: u32) -> Result<Vec<u64>, AllocError>
    ensures { IfOk result (λ table. HasNumbers [] [] vars table.items) }
{
    vec![in alloc; 0; 2 * (vars as usize + 1)]
}

/// Keeps the number of a unit. A table that has no place for it stays as it is.
pub(crate) fn note_number(numbers: &mut Vec<u64>, lit: Lit, number: u64)
    ensures { numbers.new.items ≡ slice_set numbers.old.items (code_of lit) number }
{
    let place = lit.code() as usize;
    if place < numbers.len() {
        numbers[place] = number;
    }
}

/// The number that is kept for a unit, which is not 0; none if there is no other.
pub(crate) fn number_of(numbers: &[u64], lit: Lit) -> Option<u64>
    ensures { MatchOption result (slice_index numbers.now (code_of lit) ≡ 0) (λ n. (n ≢ 0) × (slice_index numbers.now (code_of lit) ≡ n)) }
{
    let place = lit.code() as usize;
    if place >= numbers.len() {
        return None;
    }
    match numbers[place] {
        0 => None,
        number => Some(number),
    }
}
