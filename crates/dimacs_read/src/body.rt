// The clauses of a formula, token by token.
ghost use Rattle.std.specs.Prelude.{◌≡◌, ◌<◌, ◌≤◌, Some, OnOk, IfErr, length};
ghost use Rattle.dimacs_read.specs.Grammar.{Token, Mark, End, signed};
ghost use Rattle.dimacs_read.specs.declared.stop.Code.TheVariants.{TooFewClauses};
ghost use Rattle.dimacs_read.specs.Body.{Follows, IsBadToken, IsFaultOf, EndsAt, FailsAt, IsLawful, NothingRead};

use crate::header::Header;
use crate::stop::{Code, Halt};
use sat_words::{Clause, Formula, Lit};
use std::alloc::Global;

/// The most literals of a clause.
const LITERALS: usize = 1 << 20;

/// The clauses that were ended, and the literals of the one that is not.
#[derive(Drop)]
pub(crate) struct Body {
    /// The header's number of clauses.
    pub clauses: u32,
    pub formula: Formula,
    pub begun: Vec<Lit>,
}

impl Body {
    /// No clause yet, of this many variables and clauses.
    pub fn new(alloc: Global, header: Header) -> Body
        ensures { NothingRead header.vars header.clauses result }
    {
        Body {
            clauses: header.clauses,
            formula: Formula::new(alloc, header.vars),
            begun: Vec::new(alloc),
        }
    }

    /// Takes the token of an integer. Whether its value is known up to `u64::MAX`.
    pub fn take_integer(&mut self, alloc: Global, neg: bool, value: u64) -> Result<(), Halt>
        requires { IsLawful self.old }
        ensures lawful { OnOk result (IsLawful self.new) }
        ensures vars { self.new.formula.vars ≡ self.old.formula.vars }
        ensures ok { OnOk result (Follows self.old (Token (signed neg (Some value))) self.new) }
        ensures bad { IfErr result (IsBadToken self.old (Token (signed neg (Some value)))) }
    {
        if neg && value == 0 {
            return Err(Halt::Bad(Code::BadToken));
        }
        if self.begun.is_empty() && self.formula.clauses().len() >= self.clauses as usize {
            return Err(Halt::Bad(Code::TooManyClauses));
        }
        if value > u64::from(self.formula.vars()) {
            return Err(Halt::Bad(Code::LiteralRange));
        }
        if value == 0 {
            self.formula.push(Clause::from_lits(alloc, &self.begun)?)?;
            self.begun.clear();
            return Ok(());
        }
        if self.begun.len() >= LITERALS {
            return Err(Halt::Bad(Code::Limit));
        }
        self.begun.push(Lit::new(value as u32, neg))?;
        Ok(())
    }

    /// What a `%` at the front of a line is: the end of the formula, or a bad place.
    pub fn stop_at_mark(&self) -> Halt
        ensures { IsFaultOf self.now Mark result }
    {
        if !self.begun.is_empty() {
            return Halt::Bad(Code::BadToken);
        }
        match self.check_count() {
            Ok(()) => Halt::Done,
            Err(code) => Halt::Bad(code),
        }
    }

    /// Whether the formula may end here with the input.
    pub fn check_end(&self) -> Result<(), Code>
        ensures ok { OnOk result (EndsAt self.now End) }
        ensures bad { IfErr result (λ code. FailsAt self.now End code) }
    {
        if !self.begun.is_empty() {
            return Err(Code::OpenClause);
        }
        self.check_count()
    }

    fn check_count(&self) -> Result<(), Code>
        ensures ok { OnOk result (self.now.clauses ≤ length self.now.formula.clauses) }
        ensures bad { IfErr result (λ code. (code ≡ TooFewClauses) × (length self.now.formula.clauses < self.now.clauses)) }
    {
        if self.formula.clauses().len() < self.clauses as usize {
            return Err(Code::TooFewClauses);
        }
        Ok(())
    }
}
