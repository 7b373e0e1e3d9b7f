//! Clauses read and written in words.
//! The port in memory, which the program never runs: tests search over it, with every byte known to contracts.
ghost use Rattle.std.specs.Prelude.{◌≡◌, ◌⊎◌, ℕ, ◌<◌, ◌≤◌, ◌+◌, ◌/◌, ◌^◌, true, All, IfOk, length, vec_len, vec_capacity};
ghost use Rattle.sat_words.specs.Literal.{IsOn};
ghost use Rattle.clause_cell.specs.Packing.{words_for, lit_word};
ghost use Rattle.clause_cell.specs.Free.{is_free};
ghost use Rattle.ring_port.specs.Store.{word_at, size_at, words_at, lit_at, lits_of, IsClaim, IsWritten};

use crate::spare::Spare;
use clause_cell::{glue_of, half, head_word, lit_word, size_of};
use sat_words::{Head, Lit};
use std::alloc::{AllocError, Global};

/// What stands before the literals of the clause at an address.
pub(crate) fn head_at(words: &[u64], first: usize) -> Head
    requires { first + 3 ≤ length words.now }
    ensures { result ≡ record { size = size_at words.now first; glue = word_at words.now (first + 2) / 2 ^ 32; number = word_at words.now (first + 1) } }
{
    let number = words[first + 1];
    let head = words[first + 2];
    Head {
        size: size_of(head),
        glue: glue_of(head),
        number,
    }
}

/// A literal of the clause at an address.
pub(crate) fn lit_at(words: &[u64], first: usize, i: u32) -> Lit
    requires inside { first + 3 + i / 2 < length words.now }
    requires on { IsOn (2 ^ 30) (lit_at words.now first i) }
    ensures { result ≡ lit_at words.now first i }
{
    let word = words[first + 3 + (i / 2) as usize];
    let code = half(word, i);
    Lit::new(code / 2, code % 2 == 1)
}

/// Copies of the literals of the clause at an address.
pub(crate) fn lits_at(alloc: Global, words: &[u64], first: usize) -> Result<Vec<Lit>, AllocError>
    requires fits { first + words_at words.now first ≤ length words.now }
    requires on { All (IsOn (2 ^ 30)) (lits_of words.now first) }
    ensures { IfOk result (λ lits. lits.items ≡ lits_of words.now first) }
{
    let size = head_at(words, first).size;
    let mut lits = Vec::with_capacity(alloc, size as usize)?;
    for i in 0..size {
        lits.push(lit_at(words, first, i))?;
    }
    Ok(lits)
}

/// Takes this many words: of those that are free, or else after all others, for which there is room.
pub(crate) fn take_words(words: &mut Vec<u64>, spare: &mut Spare, need: u64) -> usize
    requires some { 0 < need }
    requires room { vec_len words.old + need ≤ vec_capacity words.old }
    requires inside { (w : ℕ) → is_free spare.old w ≡ true → w < length words.old.items }
    ensures { IsClaim words.old.items words.new.items spare.old spare.new result need }
{
    match spare.take(need) {
        Some(first) => first as usize,
        None => {
            let first = words.len();
            grow(words, need);
            first
        }
    }
}

/// Puts this many words after the others, for which there is room.
pub(crate) fn grow(words: &mut Vec<u64>, need: u64)
    requires { vec_len words.old + need ≤ vec_capacity words.old }
    ensures longer { length words.new.items ≡ length words.old.items + need }
    ensures same { (w : ℕ) → w < length words.old.items → word_at words.new.items w ≡ word_at words.old.items w }
{
    for _ in 0..need {
        words.push_reserved(0);
    }
}

/// Each literal is on a variable that a literal can have. This is known of a literal once its variable is read.
fn read_vars(lits: &[Lit])
    ensures { All (IsOn (2 ^ 30)) lits.now }
{
    for lit in lits {
        lit.var();
    }
}

/// Writes literals, two a word.
fn write_lits(words: &mut Vec<u64>, first: usize, lits: &[Lit])
    requires few { length lits.now < 2 ^ 32 }
    requires fits { first + (length lits.now + 1) / 2 ≤ length words.old.items }
    ensures long { length words.new.items ≡ length words.old.items }
    ensures there { (j : ℕ) → j < (length lits.now + 1) / 2 → word_at words.new.items (first + j) ≡ lit_word lits.now j }
    ensures others { (w : ℕ) → (w < first) ⊎ (first + (length lits.now + 1) / 2 ≤ w) → word_at words.new.items w ≡ word_at words.old.items w }
{
    for place in 0..(lits.len() + 1) / 2 {
        words[first + place] = lit_word(lits, place);
    }
}

/// Writes a clause, which is held once.
pub(crate) fn write_clause(words: &mut Vec<u64>, first: usize, number: u64, glue: u32, lits: &[Lit])
    requires few { length lits.now < 2 ^ 32 }
    requires fits { first + words_for (length lits.now) ≤ length words.old.items }
    ensures { IsWritten words.old.items words.new.items first number glue lits.now }
{
    read_vars(lits);
    words[first] = 1;
    words[first + 1] = number;
    words[first + 2] = head_word(lits.len() as u32, glue);
    write_lits(words, first + 3, lits);
}
