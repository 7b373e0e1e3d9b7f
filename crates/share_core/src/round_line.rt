ghost use Rattle.std.specs.Prelude.{◌≡◌, IfOk};
ghost use Rattle.share_core.specs.NextRound.{line_of};

use rup_model::ClauseNumbers;
use sat_words::{Line, Lits};
use std::alloc::{AllocError, Global};

/// A line that the ruler writes before a round of the rings.
#[derive(Drop)]
pub enum RoundLine {
    /// Adds a clause.
    Add {
        /// The literals, in the order of the line.
        lits: Lits,
        /// In a log with hints, the numbers of clauses that show one after another that it follows.
        hints: ClauseNumbers,
    },
    /// Deletes a clause.
    Del {
        /// The clause's number.
        number: u64,
        /// Its literals, in the order of the line.
        lits: Lits,
    },
}

impl RoundLine {
    /// The line of the log.
    pub(crate) fn line(&self, alloc: Global) -> Result<Line, AllocError>
        ensures { IfOk result (λ line. line ≡ line_of self.now) }
    {
        Ok(match self {
            RoundLine::Add { lits, .. } => Line::Add(Lits::from_slice(alloc, lits.as_slice())?),
            RoundLine::Del { lits, .. } => Line::Del(Lits::from_slice(alloc, lits.as_slice())?),
        })
    }
}
