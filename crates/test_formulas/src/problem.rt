//! A formula with its start clauses and its units.
ghost use Rattle.std.specs.Prelude.{◌≡◌, ◌≤◌, ◌+◌, ◌++◌, ◌∷◌, [], true, ◌&&◌, nat_le, length, IfOk};
ghost use Rattle.std.specs.List.{list_all};
ghost use Rattle.std.proofs.Props.{props};
ghost use Rattle.sat_words.specs.Clause.{clause_of, has, has_opposites};
ghost use Rattle.sat_words.specs.Literal.{IsOn};
ghost use Rattle.test_formulas.specs.Problems.{IsFine, IsProblem};

use sat_words::{Clause, Formula, Lit};
use std::alloc::Global;
use std::test::Fail;

/// A formula of units and of clauses that a search may start with: two literals or more without opposites. No line of a
/// proof stands behind it.
#[derive(Drop)]
pub struct Problem {
    /// All clauses, in the order in which they came.
    pub formula: Formula,
    /// Those of two literals or more, each with its number, from 1.
    pub start: Vec<(u64, Clause)>,
    /// The literals of the others.
    pub units: Vec<Lit>,
    /// The same literals, each with the number of its clause.
    pub listed: Vec<(Lit, u64)>,
    pub ghost ready: { IsProblem formula start.items units.items listed.items } by { Prim.hlevel props },
}

/// Whether the literal is among them.
fn is_among(lits: &[Lit], lit: Lit) -> bool
    ensures { result ≡ has lits.now lit }
{
    lits.contains(&lit)
}

/// A literal and its negation.
fn has_both(lits: &[Lit]) -> bool
    ensures { result ≡ has_opposites lits.now }
{
    lits.iter().any(|lit| is_among(lits, lit.not()))
}

/// Whether all are on these variables.
fn are_on(lits: &[Lit], vars: u32) -> bool
    ensures { result ≡ list_all (λ k. nat_le 1 k.var && nat_le k.var vars) lits.now }
{
    lits.iter().all(|lit| 1 <= lit.var() && lit.var() <= vars)
}

/// Whether a search over these variables may start with it.
fn is_fine(clause: &Clause, vars: u32) -> bool
    ensures { result ≡ true → IsFine vars clause.now }
{
    let lits = clause.lits();
    if lits.len() < 2 {
        return false;
    }
    if has_both(lits) {
        return false;
    }
    are_on(lits, vars)
}

/// The number of the clause that comes next.
fn next_number(formula: &Formula) -> u64
    ensures { result ≡ length formula.now.clauses + 1 }
{
    formula.clauses().len() as u64 + 1
}

impl Problem {
    /// No clause, over this many variables.
    pub fn new(alloc: Global, vars: u32) -> Problem
        ensures formula { result.formula ≡ record { vars = vars; clauses = [] } }
        ensures none { (result.start.items ≡ []) × (result.units.items ≡ []) × (result.listed.items ≡ []) }
    {
        Problem {
            formula: Formula::new(alloc, vars),
            start: Vec::new(alloc),
            units: Vec::new(alloc),
            listed: Vec::new(alloc),
        }
    }

    /// One clause more, refused if no search may start with it.
    pub fn with(self, alloc: Global, lits: &[Lit]) -> Result<Problem, Fail>
        ensures formula { IfOk result (λ p. p.formula ≡ record self.formula { clauses = self.formula.clauses ++ clause_of lits.now ∷ [] }) }
        ensures start { IfOk result (λ p. p.start.items ≡ self.start.items ++ (length self.formula.clauses + 1, clause_of lits.now) ∷ []) }
        ensures units { IfOk result (λ p. (p.units.items ≡ self.units.items) × (p.listed.items ≡ self.listed.items)) }
    {
        let Problem {
            mut formula,
            mut start,
            units,
            listed,
        } = self;
        let clause = Clause::from_lits(alloc, lits)?;
        if !is_fine(&clause, formula.vars()) {
            return Err(Fail::from("no start clause"));
        }
        let number = next_number(&formula);
        let copy = Clause::from_lits(alloc, lits)?;
        start.push((number, copy))?;
        formula.push(clause)?;
        Ok(Problem {
            formula,
            start,
            units,
            listed,
        })
    }

    /// One unit more, refused if it is there already.
    pub fn with_unit(self, alloc: Global, lit: Lit) -> Result<Problem, Fail>
        ensures formula { IfOk result (λ p. p.formula ≡ record self.formula { clauses = self.formula.clauses ++ (lit ∷ []) ∷ [] }) }
        ensures start { IfOk result (λ p. p.start.items ≡ self.start.items) }
        ensures units { IfOk result (λ p. p.units.items ≡ self.units.items ++ lit ∷ []) }
        ensures listed { IfOk result (λ p. p.listed.items ≡ self.listed.items ++ (lit, length self.formula.clauses + 1) ∷ []) }
    {
        let Problem {
            mut formula,
            start,
            mut units,
            mut listed,
        } = self;
        if lit.var() > formula.vars() || is_among(units.as_slice(), lit) {
            return Err(Fail::from("no unit, or one that is there"));
        }
        let number = next_number(&formula);
        formula.push(Clause::from_lits(alloc, &[lit])?)?;
        units.push(lit)?;
        listed.push((lit, number))?;
        Ok(Problem {
            formula,
            start,
            units,
            listed,
        })
    }
}
