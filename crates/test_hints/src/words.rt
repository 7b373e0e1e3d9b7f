//! The words of a line in LRAT.
use sat_words::Lit;
use std::alloc::{AllocError, Global};

/// The number that these digits spell.
fn digits_of(digits: &[u8]) -> Option<i32> {
    let mut value = 0i32;
    for byte in digits {
        let digit = byte.wrapping_sub(b'0');
        if digit > 9 {
            return None;
        }
        value = value.checked_mul(10)?.checked_add(i32::from(digit))?;
    }
    Some(value)
}

/// The number that the word spells.
fn number_of(word: &[u8]) -> Option<i32> {
    match word {
        [] | [b'-'] => None,
        [b'-', digits @ ..] => digits_of(digits)?.checked_neg(),
        digits => digits_of(digits),
    }
}

/// Whether the line deletes a clause, and its numbers. None where a word is no number.
pub(crate) fn read_line(
    alloc: Global,
    line: &[u8],
) -> Result<Option<(bool, Vec<i32>)>, AllocError> {
    let mut deletes = false;
    let mut numbers = Vec::new(alloc);
    for word in line.split(|byte| *byte == b' ') {
        if word == b"d".as_slice() {
            deletes = true;
        } else {
            let Some(number) = number_of(word) else {
                return Ok(None);
            };
            numbers.push(number)?;
        }
    }
    Ok(Some((deletes, numbers)))
}

/// The literals of these numbers. None where one is not on so many variables.
pub(crate) fn literals_of(
    alloc: Global,
    vars: u32,
    numbers: &[i32],
) -> Result<Option<Vec<Lit>>, AllocError> {
    let mut lits = Vec::new(alloc);
    for number in numbers {
        let var = number.unsigned_abs();
        if var == 0 || var > vars || var > 1 << 30 {
            return Ok(None);
        }
        lits.push(Lit::new(var, *number < 0))?;
    }
    Ok(Some(lits))
}

/// The number of a clause, which is above 0.
pub(crate) fn clause_number(number: i32) -> Option<u64> {
    if number <= 0 {
        return None;
    }
    Some(u64::from(number.unsigned_abs()))
}

/// The numbers of clauses before the 0 that ends them. None where no 0 does, or one is no number of a clause.
pub(crate) fn hints_of(alloc: Global, numbers: &[i32]) -> Result<Option<Vec<u64>>, AllocError> {
    let mut hints = Vec::new(alloc);
    let Some((0, named)) = numbers.split_last() else {
        return Ok(None);
    };
    for number in named {
        let Some(hint) = clause_number(*number) else {
            return Ok(None);
        };
        hints.push(hint)?;
    }
    Ok(Some(hints))
}
