// Numbers in groups of seven bits.
ghost use Rattle.std.specs.Prelude.{◌≡◌, ◌≤◌, ◌+◌, ◌*◌, ◌++◌, length, take};
ghost use Rattle.drat_text.specs.Binary.{groups, lits_bytes, marked_bytes};
ghost use Rattle.drat_text.specs.declared.groups.TheConstants.{MOST};

use sat_words::Lit;
use std::marker::Model;

/// How many groups hold a number of 32 bits.
pub(crate) const MOST: usize = 5;

/// Writes the groups of the number, low first, with 128 added to each but the last.
#[inline(always)]
fn write_groups(bytes: &mut [u8], at: usize, number: u32) -> usize
    requires room { at + MOST ≤ length bytes.old }
    ensures written { take result bytes.new ≡ take at bytes.old ++ groups 5 number }
    ensures end { result ≤ at + MOST }
{
    let mut size = 0;
    let mut rest = number;
    while rest >= 128 {
        bytes[at + size] = (rest % 128 + 128) as u8;
        size += 1;
        rest /= 128;
    }
    bytes[at + size] = rest as u8;
    at + size + 1
}

/// Writes the groups of the literals' codes.
#[inline(always)]
fn write_codes(bytes: &mut [u8], start: usize, lits: &[Lit]) -> usize
    requires room { start + MOST * length lits.now ≤ length bytes.old }
    ensures written { take result bytes.new ≡ take start bytes.old ++ lits_bytes lits.now }
    ensures end { result ≤ start + MOST * length lits.now }
{
    let mut at = start;
    for lit in lits {
        at = write_groups(bytes, at, lit.code());
    }
    at
}

/// Writes a byte from a place on, the groups of the literals' codes, and a zero. Answers where they end. What stands before is
/// as it was.
pub(crate) fn write_marked(bytes: &mut [u8], start: usize, mark: u8, lits: &[Lit]) -> usize
    requires room { start + MOST * length lits.now + 2 ≤ length bytes.old }
    ensures written { take result bytes.new ≡ take start bytes.old ++ marked_bytes mark lits.now }
    ensures end { result ≤ start + MOST * length lits.now + 2 }
{
    bytes[start] = mark;
    let at = write_codes(bytes, start + 1, lits);
    bytes[at] = 0;
    at + 1
}

/// A number in groups of seven bits, as binary DRAT has them.
#[derive(Drop)]
pub(crate) struct Groups {
    bytes: [u8; MOST],
    len: usize,
}

impl Model for Groups {
    ghost use Rattle.std.specs.Prelude.{◌≤◌, List, ℕ, take};
    ghost use Rattle.drat_text.specs.declared.groups.TheConstants.{MOST};

    ghost Value = { List ℕ };

    ghost view = { λ g. take g.len g.bytes };

    ghost invariant = { λ g. g.len ≤ MOST };
}

impl Groups {
    /// The groups of the number, low first, with 128 added to each but the last.
    pub(crate) fn of(number: u32) -> Groups
        ensures { result ≡ groups 5 number }
    {
        let mut bytes = [0; MOST];
        let len = write_groups(&mut bytes, 0, number);
        Groups { bytes, len }
    }

    pub(crate) fn as_slice(&self) -> &[u8]
        ensures is { result.now ≡ self.now }
        ensures short { length result.now ≤ 5 }
    {
        &self.bytes[..self.len]
    }
}
