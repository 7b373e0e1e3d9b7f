// Lines that are counted and not spelled.
// The program never runs this: it counts lines, for tests and measurements.
ghost use Rattle.std.specs.Prelude.{◌≡◌, ◌≤◌, ◌<◌, ◌^◌, false};
ghost use Rattle.sat_words.specs.declared.shared.TheConstants.{MAX_ENTRIES};
ghost use Rattle.drat_text.specs.CountedData.{begun_counting};

use crate::line_out::LineOut;
use crate::numbers::Numbers;
use crate::stop::LineStop;
use sat_words::{Lit, ProofFormat};
use std::marker::Model;

/// Counts the lines and spells none. One of them may be made to fail, so that a test sees what its caller does then.
#[derive(Drop)]
pub struct CountedLines {
    numbers: Numbers,
    failing: u64,
    spent: bool,
}

impl Model for CountedLines {
    ghost use Rattle.drat_text.specs.LineState.{LineState};
    ghost use Rattle.drat_text.specs.CountedData.{counted_state};

    ghost Value = { LineState };

    ghost view = { λ l. counted_state l.numbers l.spent };
}

impl CountedLines {
    /// Lines for a formula of this many clauses. The line of this number fails, if the first is 1; at 0 none does.
    pub fn new(clauses: u64, failing: u64) -> Self
        requires { clauses ≤ 2 ^ 63 }
        ensures { result ≡ begun_counting clauses }
    {
        CountedLines {
            numbers: Numbers::after(clauses),
            failing,
            spent: false,
        }
    }

    /// Whether the next line is to fail.
    fn is_failing(&self) -> bool
        requires { self.now.entries < MAX_ENTRIES }
    {
        self.numbers.entries() + 1 == self.failing
    }
}

impl LineOut for CountedLines {
    ghost told = { λ l. l };

    fn format(&self) -> ProofFormat {
        // so that the proof sees what the lines are
        let _ = &self.spent;
        ProofFormat::Text
    }

    fn add(&mut self, _lits: &[Lit], _hints: &[u64]) -> Result<u64, LineStop> {
        if self.numbers.is_full() {
            return Err(LineStop::Full);
        }
        if self.is_failing() {
            self.spent = true;
            return Err(LineStop::ProofFault);
        }
        self.numbers.count_addition();
        Ok(self.numbers.last())
    }

    fn del(&mut self, _number: u64, _lits: &[Lit]) -> Result<(), LineStop> {
        if self.numbers.is_full() {
            return Err(LineStop::Full);
        }
        if self.is_failing() {
            self.spent = true;
            return Err(LineStop::ProofFault);
        }
        self.numbers.count_deletion();
        Ok(())
    }
}
