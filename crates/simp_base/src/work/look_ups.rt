// What a work holds, looked up.
ghost use Rattle.std.specs.Prelude.{◌≡◌, ◌≤◌, ◌+◌, ◌<◌, ◌^◌, ℕ, List, true, IfOk, IfErr, IfSome, IfNone, Contains};
ghost use Rattle.sat_words.specs.Literal.{Literal, IsOn};
ghost use Rattle.sat_words.specs.Clause.{has};
ghost use Rattle.simp_base.specs.WorkState.{IsWork, is_unit, has_unit, unit_lits, AreHeld};

use crate::work::Work;
use drat_text::{LineOut, LineStop};
use sat_words::{Clause, Lit};
use std::alloc::Global;

impl<L: LineOut> Work<L> {
    /// The clauses alive, each with its number, in no particular order: unit clauses and tautologies too.
    pub fn clauses(&self) -> &[(u64, Clause)]
        ensures clauses { result.now ≡ self.now.clauses }
        ensures work { IsWork self.now }
    {
        self.clauses.as_slice()
    }

    /// The units listed, each once, in the order in which they came, each with the number of its clause.
    pub fn units(&self) -> &[(Lit, u64)]
        ensures lits { unit_lits result.now ≡ self.now.units }
        ensures held { AreHeld self.now.clauses result.now }
    {
        self.units.as_slice()
    }

    /// Literals are on the variables 1 to this one: those of the formula, and after them those of `fresh`.
    pub fn vars(&self) -> u32
        ensures { result ≡ self.now.vars }
    {
        self.vars
    }

    /// No clause that is alive and not held has a variable above this one: 0 in a work on all clauses of a formula.
    pub fn unheld_vars(&self) -> u32
        ensures { result ≡ self.now.unheld }
    {
        self.unheld
    }

    /// What memory comes from.
    pub fn alloc(&self) -> Global {
        self.alloc
    }

    /// The clause with this number, if it is alive.
    pub fn clause(&self, number: u64) -> Option<&Clause>
        ensures some { IfSome result (λ clause. Contains self.now.clauses (number, clause.now)) }
        ensures none { IfNone result ((c : List Literal) → Contains self.now.clauses (number, c) → ⊥) }
        ensures work { IsWork self.now }
    {
        self.clauses.get(number)
    }

    /// The numbers of the clauses alive that hold the literal, and perhaps some of clauses that are not alive.
    pub fn numbers_with(&self, lit: Lit) -> Result<Vec<u64>, LineStop>
        requires on { IsOn self.now.vars lit }
        ensures every { IfOk result (λ found. (n : ℕ) (c : List Literal) → Contains self.now.clauses (n, c) → has c lit ≡ true → Contains found.items n) }
        ensures memory { IfErr result (λ stop. stop ≡ LineStop.Memory) }
    {
        match self.clauses.numbers_with(lit) {
            Ok(found) => Ok(found),
            Err(_) => Err(LineStop::Memory),
        }
    }

    /// The numbers noted for the literal, in the order in which the clauses came: those of the clauses alive that hold it,
    /// and perhaps some of clauses that are not alive. It takes no memory.
    pub fn occurrences(&self, lit: Lit) -> &[u64]
        requires on { IsOn self.now.vars lit }
        ensures every { (n : ℕ) (c : List Literal) → Contains self.now.clauses (n, c) → has c lit ≡ true → Contains result.now n }
    {
        self.clauses.occurrences(lit)
    }

    /// The last number given to a clause, 0 before the first. No clause alive has a higher one.
    pub fn last_number(&self) -> u64
        ensures last { result ≡ self.now.output.last }
        ensures low { result + 1 < 2 ^ 64 }
        ensures work { IsWork self.now }
    {
        self.clauses.next_number() - 1
    }

    /// How many lines the log has. If it is as it was, no line was put.
    pub fn line_count(&self) -> u64
        ensures { result ≡ self.now.output.entries }
    {
        self.lines
    }

    /// Whether a literal of this variable is a unit: listed, or alive as a clause.
    pub fn has_unit(&self, var: u32) -> bool
        requires low { 1 ≤ var }
        requires high { var ≤ self.now.vars }
        requires few { var ≤ 2 ^ 30 }
        ensures { result ≡ has_unit self.now var }
    {
        self.is_unit(Lit::new(var, false)) || self.is_unit(Lit::new(var, true))
    }

    fn is_unit(&self, lit: Lit) -> bool
        requires { IsOn self.now.vars lit }
        ensures { result ≡ is_unit self.now lit }
    {
        self.units.is_listed(lit) || self.clauses.is_alone(lit)
    }
}
