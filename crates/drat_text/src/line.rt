// The spelling of a line, as text and in the format that is asked for.
ghost use Rattle.std.specs.Prelude.{◌≡◌, ◌<◌, ◌++◌, length, codes, MatchResult};
ghost use Rattle.std.specs.Fmt.{signed_decimal};
ghost use Rattle.sat_words.specs.Literal.{lit_text};
ghost use Rattle.rup_model.specs.NumberedLines.{Added, Deleted};
ghost use Rattle.drat_text.specs.Gathered.{Gathers, Breaks};
ghost use Rattle.drat_text.specs.Spelling.{spelling};
ghost use Rattle.drat_text.specs.Text.{lits_text};
ghost use Rattle.drat_text.specs.declared.blocks.TheConstants.{BLOCK};

use crate::binary::{ADDED, DELETED};
use crate::blocks::Blocks;
use crate::literals::LONGEST;
use io_edge::{Failed, Sink};
use itoa::Buffer;
use sat_words::{Lit, ProofFormat};

/// The number that stands for the literal.
pub(crate) fn number_of(lit: Lit) -> i32
    ensures { signed_decimal result ≡ lit_text lit }
{
    let positive = lit.var() as i32;
    if lit.is_neg() { -positive } else { positive }
}

impl<S: Sink> Blocks<S> {
    /// Puts the line that adds the clause in this format, unless it would go nowhere. As textual DRAT, which the proof checker
    /// drat-trim reads, the clause 1 or not 2 is `1 -2 0`.
    pub(crate) fn spell_addition(
        &mut self,
        format: ProofFormat,
        number: u64,
        lits: &[Lit],
        hints: &[u64],
    ) -> Result<(), Failed>
        requires room { length self.old.waiting < BLOCK }
        ensures { MatchResult result (λ _. Gathers S.written S.flushed S.target S.faults self.old self.new (spelling format (Added number lits.now hints.now))) (λ _. Breaks S.written S.flushed S.target S.faults self.old self.new (spelling format (Added number lits.now hints.now))) }
    {
        if self.is_nowhere() {
            return Ok(());
        }
        match format {
            ProofFormat::Text => self.put_lits(lits),
            ProofFormat::Binary => self.put_marked(ADDED, lits),
            ProofFormat::Lrat => self.put_lrat_addition(number, lits, hints),
        }
    }

    /// Puts the line that deletes the clause with this number in this format, unless it would go nowhere. As textual DRAT that
    /// of the clause 1 or not 2 is `d 1 -2 0`.
    pub(crate) fn spell_deletion(
        &mut self,
        format: ProofFormat,
        last: u64,
        number: u64,
        lits: &[Lit],
    ) -> Result<(), Failed>
        requires room { length self.old.waiting < BLOCK }
        ensures { MatchResult result (λ _. Gathers S.written S.flushed S.target S.faults self.old self.new (spelling format (Deleted last number lits.now))) (λ _. Breaks S.written S.flushed S.target S.faults self.old self.new (spelling format (Deleted last number lits.now))) }
    {
        if self.is_nowhere() {
            return Ok(());
        }
        match format {
            ProofFormat::Text => self.put_deletion(lits),
            ProofFormat::Binary => self.put_marked(DELETED, lits),
            ProofFormat::Lrat => self.put_lrat_deletion(last, number),
        }
    }

    fn put_deletion(&mut self, lits: &[Lit]) -> Result<(), Failed>
        requires room { length self.old.waiting < BLOCK }
        ensures { MatchResult result (λ _. Gathers S.written S.flushed S.target S.faults self.old self.new (codes "d " ++ lits_text lits.now ++ codes "0\n")) (λ _. Breaks S.written S.flushed S.target S.faults self.old self.new (codes "d " ++ lits_text lits.now ++ codes "0\n")) }
    {
        match self.append(b"d ") {
            Ok(()) => self.put_lits(lits),
            Err(Failed) => Err(Failed),
        }
    }

    /// Puts the literals' texts and the end of the line: in one go if all of them have room at their longest.
    fn put_lits(&mut self, lits: &[Lit]) -> Result<(), Failed>
        requires room { length self.old.waiting < BLOCK }
        ensures { MatchResult result (λ _. Gathers S.written S.flushed S.target S.faults self.old self.new (lits_text lits.now ++ codes "0\n")) (λ _. Breaks S.written S.flushed S.target S.faults self.old self.new (lits_text lits.now ++ codes "0\n")) }
    {
        if lits.len() < self.room() / LONGEST {
            self.push_lits(lits);
            return Ok(());
        }
        match self.append_lits(lits) {
            Ok(()) => self.append(b"0\n"),
            Err(Failed) => Err(Failed),
        }
    }

    /// Puts the literals' texts one by one, each with a space after it. One of them may fill a block.
    pub(crate) fn append_lits(&mut self, lits: &[Lit]) -> Result<(), Failed>
        requires room { length self.old.waiting < BLOCK }
        ensures { MatchResult result (λ _. Gathers S.written S.flushed S.target S.faults self.old self.new (lits_text lits.now)) (λ _. Breaks S.written S.flushed S.target S.faults self.old self.new (lits_text lits.now)) }
    {
        for lit in lits {
            match self.append_lit(*lit) {
                Ok(()) => {}
                Err(Failed) => return Err(Failed),
            }
        }
        Ok(())
    }

    fn append_lit(&mut self, lit: Lit) -> Result<(), Failed>
        requires room { length self.old.waiting < BLOCK }
        ensures { MatchResult result (λ _. Gathers S.written S.flushed S.target S.faults self.old self.new (lit_text lit ++ codes " ")) (λ _. Breaks S.written S.flushed S.target S.faults self.old self.new (lit_text lit ++ codes " ")) }
    {
        let mut digits = Buffer::new();
        match self.append(digits.format(number_of(lit)).as_bytes()) {
            Ok(()) => self.append(b" "),
            Err(Failed) => Err(Failed),
        }
    }
}
