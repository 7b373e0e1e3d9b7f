//! The lines of a log in memory.
ghost use Rattle.std.specs.Prelude.{◌≡◌, ◌<◌, ◌-◌, ◌^◌, false, vec_len};
ghost use Rattle.sat_words.specs.declared.shared.TheConstants.{MAX_ENTRIES};

use drat_text::{LineOut, LineStop};
use sat_words::{Line, Lit, Lits, MAX_ENTRIES, ProofFormat};
use std::alloc::Global;

/// The lines of a log in memory, after those that a formula's clauses have the numbers of.
#[derive(Drop)]
pub struct ListLines {
    /// What the copies of lines take memory of.
    pub alloc: Global,
    /// The lines, in their order.
    pub lines: Vec<Line>,
    /// The last number given.
    pub last: u64,
}

impl ListLines {
    /// Whether no line may follow: as many stand as can, or no number is left.
    fn is_full(&self) -> bool
        ensures { (result ≡ false) → (vec_len self.now.lines < MAX_ENTRIES) × (self.now.last < 2 ^ 64 - 1) }
    {
        self.lines.len() as u64 >= MAX_ENTRIES || self.last == u64::MAX
    }
}

impl LineOut for ListLines {
    ghost use Rattle.std.specs.Prelude.{None, Some, false, vec_len};
    ghost use Rattle.sat_words.specs.declared.line.ProofFormat.TheVariants.{Text};
    ghost use Rattle.drat_text.specs.Text.{text};

    // It says the text of the lines, and keeps them.
    ghost told = { λ l. record { format = Text; entries = vec_len l.lines; last = l.last; spent = false; faults = 0; written = Some (text l.lines.items); target = None; flushed = None; kept = Some l.lines.items } };

    fn format(&self) -> ProofFormat {
        // so that the proof sees what the lines are
        let _ = &self.last;
        ProofFormat::Text
    }

    fn add(&mut self, lits: &[Lit], _hints: &[u64]) -> Result<u64, LineStop> {
        if self.is_full() {
            return Err(LineStop::Memory);
        }
        let Ok(copy) = Lits::from_slice(self.alloc, lits) else {
            return Err(LineStop::Memory);
        };
        if self.lines.push(Line::Add(copy)).is_err() {
            return Err(LineStop::Memory);
        }
        self.last += 1;
        Ok(self.last)
    }

    fn del(&mut self, _number: u64, lits: &[Lit]) -> Result<(), LineStop> {
        if self.is_full() {
            return Err(LineStop::Memory);
        }
        let Ok(copy) = Lits::from_slice(self.alloc, lits) else {
            return Err(LineStop::Memory);
        };
        if self.lines.push(Line::Del(copy)).is_err() {
            return Err(LineStop::Memory);
        }
        Ok(())
    }
}
