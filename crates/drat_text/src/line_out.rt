// Where the lines of a log go, one by one.
ghost use Rattle.std.specs.Prelude.{◌≡◌, ◌+◌, false, IfOk};
ghost use Rattle.drat_text.specs.LineState.{LineState};
ghost use Rattle.drat_text.specs.LineOut.{WasPut, added_line, deleted_line};

use crate::stop::LineStop;
use sat_words::{Lit, ProofFormat};

/// Takes the lines of a log, and gives each addition the next number.
///
/// The numbers begin after those of the formula's clauses. In DRAT, bytes have one list of lines.
pub trait LineOut {
    /// What contracts see of it.
    ghost told: { Self → LineState };

    /// How the lines are spelled.
    fn format(&self) -> ProofFormat
        ensures { result ≡ (told self.now).format };

    /// Puts the line that adds a clause after the others, with hints: the numbers of the clauses that show that it follows.
    /// A format without hints passes over them. Answers the clause's number.
    fn add(&mut self, lits: &[Lit], hints: &[u64]) -> Result<u64, LineStop>
        requires unspent { (told self.old).spent ≡ false }
        ensures put { WasPut (told self.old) (told self.new) (added_line (told self.old) lits.now hints.now) result }
        ensures number { IfOk result (λ n. n ≡ (told self.old).last + 1) };

    /// Puts the line that deletes the clause with this number and these literals after the others.
    fn del(&mut self, number: u64, lits: &[Lit]) -> Result<(), LineStop>
        requires unspent { (told self.old).spent ≡ false }
        ensures put { WasPut (told self.old) (told self.new) (deleted_line (told self.old) number lits.now) result };
}
