// The literals of a line as text, written from a place on.
ghost use Rattle.std.specs.Prelude.{◌≡◌, ◌≤◌, ◌<◌, ◌+◌, ◌*◌, ◌++◌, [], codes, length, take, if◌then◌else◌};
ghost use Rattle.sat_words.specs.Literal.{lit_text};
ghost use Rattle.drat_text.specs.Text.{lits_text};
ghost use Rattle.drat_text.specs.declared.literals.TheConstants.{LONGEST};

use crate::digits::write_number;
use sat_words::Lit;

/// The most bytes of a literal's text and of the space after it: a sign, ten digits and the space.
pub(crate) const LONGEST: usize = 12;

/// Writes a minus sign, and keeps it if the literal is negative. So the same is done for both signs, and none is guessed.
#[inline(always)]
fn write_sign(bytes: &mut [u8], at: usize, lit: Lit) -> usize
    requires room { at < length bytes.old }
    ensures written { take result bytes.new ≡ take at bytes.old ++ (if lit.neg then codes "-" else []) }
    ensures end { result ≤ at + 1 }
{
    bytes[at] = b'-';
    if lit.is_neg() { at + 1 } else { at }
}

/// Writes the literal's text and a space.
#[inline(always)]
fn write_lit(bytes: &mut [u8], at: usize, lit: Lit) -> usize
    requires room { at + LONGEST ≤ length bytes.old }
    ensures written { take result bytes.new ≡ take at bytes.old ++ (lit_text lit ++ codes " ") }
    ensures end { result ≤ at + LONGEST }
{
    let first = write_sign(bytes, at, lit);
    let end = write_number(bytes, first, lit.var());
    bytes[end] = b' ';
    end + 1
}

/// Writes the literals' texts, each with a space after it. The place is a variable of the loop, so that no byte waits for a
/// place that is read from memory.
#[inline(always)]
pub(crate) fn write_lits(bytes: &mut [u8], start: usize, lits: &[Lit]) -> usize
    requires room { start + LONGEST * length lits.now ≤ length bytes.old }
    ensures written { take result bytes.new ≡ take start bytes.old ++ lits_text lits.now }
    ensures end { result ≤ start + LONGEST * length lits.now }
{
    let mut at = start;
    for lit in lits {
        at = write_lit(bytes, at, *lit);
    }
    at
}

/// Writes the literals' texts from a place on, each with a space after it, and the end of a line. Answers where it ends. What
/// stands before is as it was.
pub(crate) fn write_rest(bytes: &mut [u8], start: usize, lits: &[Lit]) -> usize
    requires room { start + LONGEST * length lits.now + 2 ≤ length bytes.old }
    ensures written { take result bytes.new ≡ take start bytes.old ++ (lits_text lits.now ++ codes "0\n") }
    ensures end { result ≤ start + LONGEST * length lits.now + 2 }
{
    let at = write_lits(bytes, start, lits);
    bytes[at] = b'0';
    bytes[at + 1] = b'\n';
    at + 2
}
