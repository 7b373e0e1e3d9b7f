//! The words of a clause.
ghost use Rattle.std.specs.Prelude.{◌≡◌, ◌+◌, ◌*◌, ◌/◌, ◌%◌, ◌<◌, ◌≤◌, ◌^◌, length};
ghost use Rattle.clause_cell.specs.Packing.{words_for, pair_of, half, code_at, lit_word};

use sat_words::Lit;

/// The number of words that a clause of this size takes: its count, its number, its head, and two literals a word.
pub fn words_for(size: u32) -> u64
    ensures { result ≡ words_for size }
{
    3 + (size as u64 + 1) / 2
}

fn packed(low: u32, high: u32) -> u64
    ensures { result ≡ pair_of low high }
{
    low as u64 + high as u64 * 4294967296
}

/// The word with a clause's size and glue.
pub fn head_word(size: u32, glue: u32) -> u64
    ensures { result ≡ pair_of size glue }
{
    packed(size, glue)
}

/// The word with the codes of two literals. The second is 0 if there is no second literal.
pub fn pair_word(first: u32, second: u32) -> u64
    ensures { result ≡ pair_of first second }
{
    packed(first, second)
}

/// The code of the literal at a place, 0 if there is none.
fn code_at(lits: &[Lit], place: usize) -> u32
    ensures { result ≡ code_at lits.now place }
{
    if place < lits.len() {
        lits[place].code()
    } else {
        0
    }
}

/// The word with the literals at twice the place and after it.
pub fn lit_word(lits: &[Lit], place: usize) -> u64
    requires { place ≤ length lits.now }
    ensures { result ≡ lit_word lits.now place }
{
    pair_word(code_at(lits, 2 * place), code_at(lits, 2 * place + 1))
}

/// The low half of a word.
pub fn first_half(word: u64) -> u32
    ensures { result ≡ word % 2 ^ 32 }
{
    (word % 4294967296) as u32
}

/// The high half of a word.
pub fn second_half(word: u64) -> u32
    ensures { result ≡ word / 2 ^ 32 }
{
    (word / 4294967296) as u32
}

/// The half of a word of literals that has the literal at this place of the clause.
pub fn half(word: u64, place: u32) -> u32
    ensures { result ≡ half word place }
{
    if place % 2 == 0 {
        first_half(word)
    } else {
        second_half(word)
    }
}

/// The size in a head.
pub fn size_of(head: u64) -> u32
    ensures { result ≡ head % 2 ^ 32 }
{
    first_half(head)
}

/// The glue in a head.
pub fn glue_of(head: u64) -> u32
    ensures { result ≡ head / 2 ^ 32 }
{
    second_half(head)
}
