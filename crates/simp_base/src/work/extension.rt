// What extends a work: variables that stand nowhere, and clauses on them that no others imply.
ghost use Rattle.std.specs.Prelude.{◌≡◌, ◌+◌, [], ◌∷◌, true, false, All};
ghost use Rattle.sat_words.specs.Literal.{IsOn};
ghost use Rattle.rup_model.specs.Rup.{rat};
ghost use Rattle.simp_base.specs.WorkState.{IsWork, lists};
ghost use Rattle.sat_words.specs.Formats.{has_hints};
ghost use Rattle.simp_base.specs.Log.{Grows};
ghost use Rattle.simp_base.specs.Calls.{AddsToLog, IsAboveUnheld, WasAdded, WasWidened};

use crate::work::Work;
use drat_text::{LineOut, LineStop};
use sat_words::Lit;

/// The last variable that a literal can have.
const LAST_VAR: u32 = 1 << 30;

impl<L: LineOut> Work<L> {
    /// Adds a clause that is a resolution asymmetric tautology (RAT; Järvisalo, Heule and Biere 2012) on its first literal
    /// over the clauses alive: its resolvents with all of them on that literal follow by unit propagation. The clauses alive are
    /// those held, if no other has the literal's variable. Answers its number. The line has the literals in the order given, so
    /// that a reader of the log takes the same first one. It has no hints, so that the format must not have them.
    ///
    /// Models of the clauses before need not be models of the one that is added.
    pub fn add_rat(&mut self, lits: &[Lit]) -> Result<u64, LineStop>
        requires unspent { self.old.output.spent ≡ false }
        requires going { self.old.ended ≡ false }
        requires rat { rat (lists self.old.clauses) lits.now ≡ true }
        requires above { IsAboveUnheld self.old lits.now }
        requires plain { has_hints self.old.output.format ≡ false }
        requires on { All (IsOn self.old.vars) lits.now }
        ensures added { WasAdded self.old self.new lits.now result }
        ensures log { AddsToLog self.old self.new lits.now result }
        ensures work { IsWork self.new }
    {
        // The check knows the work's invariant once a field is used.
        let _ = &self.alloc;
        self.put_clause(lits)
    }

    /// A variable that stands nowhere: its positive literal. It is the one after all variables of the formula and of the log,
    /// and from now on one of the work's. None if that would pass 2^30, the last variable that a literal can have. It writes
    /// no line. Memory is the one refusal.
    pub fn fresh(&mut self) -> Result<Option<Lit>, LineStop>
        ensures widened { WasWidened self.old self.new result }
        ensures log { Grows [] self.old self.new }
        ensures work { IsWork self.new }
    {
        // The check knows the work's invariant once a field is used.
        let _ = &self.alloc;
        self.widen()
    }

    /// Has one variable more, if a literal can have it, and answers its positive literal.
    fn widen(&mut self) -> Result<Option<Lit>, LineStop>
        ensures { WasWidened self.old self.new result }
    {
        if self.vars >= LAST_VAR {
            return Ok(None);
        }
        let literal = Lit::new(self.vars + 1, false);
        // Room is taken first, so that a refusal leaves all tables as wide as they were.
        if self.units.make_code_room().is_err() {
            return Err(LineStop::Memory);
        }
        if self.clauses.widen().is_err() {
            return Err(LineStop::Memory);
        }
        self.units.widen();
        self.vars += 1;
        Ok(Some(literal))
    }
}
