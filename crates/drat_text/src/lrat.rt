// The spelling of a line in LRAT.
ghost use Rattle.std.specs.Prelude.{◌≡◌, ◌≤◌, ◌<◌, ◌+◌, ◌*◌, ◌++◌, codes, length, take, MatchResult};
ghost use Rattle.std.specs.Fmt.{decimal};
ghost use Rattle.rup_model.specs.NumberedLines.{Added};
ghost use Rattle.drat_text.specs.Gathered.{Gathers, Breaks};
ghost use Rattle.drat_text.specs.Lrat.{numbers_text, lrat_text};
ghost use Rattle.drat_text.specs.Text.{lits_text};
ghost use Rattle.drat_text.specs.declared.blocks.TheConstants.{BLOCK};
ghost use Rattle.drat_text.specs.declared.literals.TheConstants.{LONGEST};
ghost use Rattle.drat_text.specs.declared.lrat.TheConstants.{WORD, DELETION};

use crate::blocks::Blocks;
use crate::digits::write_long;
use crate::literals::write_lits;
use io_edge::{Failed, Sink};
use sat_words::Lit;

/// Room for a number and the space after it.
pub(crate) const WORD: usize = 23;

/// Room for the line of a deletion.
pub(crate) const DELETION: usize = 50;

/// Writes the number and a space.
#[inline(always)]
fn write_word(bytes: &mut [u8], at: usize, number: u64) -> usize
    requires room { at + WORD ≤ length bytes.old }
    ensures written { take result bytes.new ≡ take at bytes.old ++ (decimal number ++ codes " ") }
    ensures end { result ≤ at + WORD }
{
    let end = write_long(bytes, at, number);
    bytes[end] = b' ';
    end + 1
}

/// Writes the numbers, each with a space after it.
#[inline(always)]
fn write_numbers(bytes: &mut [u8], start: usize, numbers: &[u64]) -> usize
    requires room { start + WORD * length numbers.now ≤ length bytes.old }
    ensures written { take result bytes.new ≡ take start bytes.old ++ numbers_text numbers.now }
    ensures end { result ≤ start + WORD * length numbers.now }
{
    let mut at = start;
    for number in numbers {
        at = write_word(bytes, at, *number);
    }
    at
}

/// Writes the end of a clause, its hints and the end of the line.
#[inline(always)]
fn write_hints(bytes: &mut [u8], start: usize, hints: &[u64]) -> usize
    requires room { start + WORD * length hints.now + 4 ≤ length bytes.old }
    ensures written { take result bytes.new ≡ take start bytes.old ++ (codes "0 " ++ numbers_text hints.now ++ codes "0\n") }
    ensures end { result ≤ start + WORD * length hints.now + 4 }
{
    bytes[start] = b'0';
    bytes[start + 1] = b' ';
    let at = write_numbers(bytes, start + 2, hints);
    bytes[at] = b'0';
    bytes[at + 1] = b'\n';
    at + 2
}

/// Writes the line of an addition from a place on, and answers where it ends. What stands before is as it was.
pub(crate) fn write_addition(
    bytes: &mut [u8],
    start: usize,
    number: u64,
    lits: &[Lit],
    hints: &[u64],
) -> usize
    requires room { start + WORD + LONGEST * length lits.now + WORD * length hints.now + 4 ≤ length bytes.old }
    ensures written { take result bytes.new ≡ take start bytes.old ++ lrat_text (Added number lits.now hints.now) }
    ensures end { result ≤ start + WORD + LONGEST * length lits.now + WORD * length hints.now + 4 }
{
    let first = write_word(bytes, start, number);
    let middle = write_lits(bytes, first, lits);
    write_hints(bytes, middle, hints)
}

/// Writes the line of a deletion from a place on, and answers where it ends. What stands before is as it was.
pub(crate) fn write_deletion(bytes: &mut [u8], start: usize, last: u64, number: u64) -> usize
    requires room { start + DELETION ≤ length bytes.old }
    ensures written { take result bytes.new ≡ take start bytes.old ++ (decimal last ++ codes " d " ++ decimal number ++ codes " 0\n") }
    ensures end { result ≤ start + DELETION }
{
    let mark = write_word(bytes, start, last);
    bytes[mark] = b'd';
    bytes[mark + 1] = b' ';
    let end = write_word(bytes, mark + 2, number);
    bytes[end] = b'0';
    bytes[end + 1] = b'\n';
    end + 2
}

impl<S: Sink> Blocks<S> {
    /// Puts the line of an addition: in one go if all of it has room at its longest.
    pub(crate) fn put_lrat_addition(
        &mut self,
        number: u64,
        lits: &[Lit],
        hints: &[u64],
    ) -> Result<(), Failed>
        requires room { length self.old.waiting < BLOCK }
        ensures { MatchResult result (λ _. Gathers S.written S.flushed S.target S.faults self.old self.new (lrat_text (Added number lits.now hints.now))) (λ _. Breaks S.written S.flushed S.target S.faults self.old self.new (lrat_text (Added number lits.now hints.now))) }
    {
        if lits.len() + hints.len() + 2 < self.room() / WORD {
            self.push_addition(number, lits, hints);
            return Ok(());
        }
        match self.append_number(number) {
            Ok(()) => self.append_clause(lits, hints),
            Err(Failed) => Err(Failed),
        }
    }

    /// Puts the literals of an addition and its hints, one by one. One of them may fill a block.
    fn append_clause(&mut self, lits: &[Lit], hints: &[u64]) -> Result<(), Failed>
        requires room { length self.old.waiting < BLOCK }
        ensures { MatchResult result (λ _. Gathers S.written S.flushed S.target S.faults self.old self.new (lits_text lits.now ++ codes "0 " ++ numbers_text hints.now ++ codes "0\n")) (λ _. Breaks S.written S.flushed S.target S.faults self.old self.new (lits_text lits.now ++ codes "0 " ++ numbers_text hints.now ++ codes "0\n")) }
    {
        match self.append_lits(lits) {
            Ok(()) => self.append_hints(hints),
            Err(Failed) => Err(Failed),
        }
    }

    fn append_hints(&mut self, hints: &[u64]) -> Result<(), Failed>
        requires room { length self.old.waiting < BLOCK }
        ensures { MatchResult result (λ _. Gathers S.written S.flushed S.target S.faults self.old self.new (codes "0 " ++ numbers_text hints.now ++ codes "0\n")) (λ _. Breaks S.written S.flushed S.target S.faults self.old self.new (codes "0 " ++ numbers_text hints.now ++ codes "0\n")) }
    {
        match self.append(b"0 ") {
            Ok(()) => self.append_rest(hints),
            Err(Failed) => Err(Failed),
        }
    }

    fn append_rest(&mut self, hints: &[u64]) -> Result<(), Failed>
        requires room { length self.old.waiting < BLOCK }
        ensures { MatchResult result (λ _. Gathers S.written S.flushed S.target S.faults self.old self.new (numbers_text hints.now ++ codes "0\n")) (λ _. Breaks S.written S.flushed S.target S.faults self.old self.new (numbers_text hints.now ++ codes "0\n")) }
    {
        match self.append_numbers(hints) {
            Ok(()) => self.append(b"0\n"),
            Err(Failed) => Err(Failed),
        }
    }

    fn append_numbers(&mut self, numbers: &[u64]) -> Result<(), Failed>
        requires room { length self.old.waiting < BLOCK }
        ensures { MatchResult result (λ _. Gathers S.written S.flushed S.target S.faults self.old self.new (numbers_text numbers.now)) (λ _. Breaks S.written S.flushed S.target S.faults self.old self.new (numbers_text numbers.now)) }
    {
        for number in numbers {
            match self.append_number(*number) {
                Ok(()) => {}
                Err(Failed) => return Err(Failed),
            }
        }
        Ok(())
    }

    /// Puts the number and a space.
    fn append_number(&mut self, number: u64) -> Result<(), Failed>
        requires room { length self.old.waiting < BLOCK }
        ensures { MatchResult result (λ _. Gathers S.written S.flushed S.target S.faults self.old self.new (decimal number ++ codes " ")) (λ _. Breaks S.written S.flushed S.target S.faults self.old self.new (decimal number ++ codes " ")) }
    {
        let mut word = [0; WORD];
        let len = write_word(&mut word, 0, number);
        self.append(&word[..len])
    }

    /// Puts the line of a deletion. It may fill a block.
    pub(crate) fn put_lrat_deletion(&mut self, last: u64, number: u64) -> Result<(), Failed>
        requires room { length self.old.waiting < BLOCK }
        ensures { MatchResult result (λ _. Gathers S.written S.flushed S.target S.faults self.old self.new (decimal last ++ codes " d " ++ decimal number ++ codes " 0\n")) (λ _. Breaks S.written S.flushed S.target S.faults self.old self.new (decimal last ++ codes " d " ++ decimal number ++ codes " 0\n")) }
    {
        if self.room() > DELETION {
            self.push_deletion(last, number);
            return Ok(());
        }
        let mut line = [0; DELETION];
        let len = write_deletion(&mut line, 0, last, number);
        self.append(&line[..len])
    }
}
