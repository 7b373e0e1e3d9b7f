//! What follows from the clauses of a work.
ghost use Rattle.std.specs.Prelude.{◌≡◌, ◌∷◌, [], List, true, Contains, IfOk};
ghost use Rattle.rup_model.specs.Rup.{rup, rat};
ghost use Rattle.sat_words.specs.Literal.{Literal};
ghost use Rattle.simp_base.specs.WorkState.{known, lists, unit_lits};

use drat_text::LineOut;
use rup_model::{is_rat, is_rup};
use sat_words::{Clause, Lit, Lits};
use simp_base::Work;
use std::alloc::{AllocError, Global};

/// Whether the clause of these literals follows from the one with this number alone.
pub fn follows<L: LineOut>(
    alloc: Global,
    work: &Work<L>,
    number: u64,
    lits: &[Lit],
) -> Result<bool, AllocError>
    ensures follows { IfOk result (λ yes. yes ≡ true → rup (known work.now) lits.now ≡ true) }
    ensures alone { IfOk result (λ yes. (c : List Literal) → Contains work.now.clauses (number, c) → yes ≡ rup (c ∷ []) lits.now) }
    ensures none { IfOk result (λ yes. yes ≡ true → (c : List Literal) × Contains work.now.clauses (number, c)) }
{
    match work.clause(number) {
        Some(clause) => {
            let only = [Lits::from_slice(alloc, clause.lits())?];
            is_rup(alloc, &only, lits)
        }
        None => Ok(false),
    }
}

/// Whether the clause of these literals follows from the clauses that are alive.
pub fn follows_there<L: LineOut>(
    alloc: Global,
    work: &Work<L>,
    lits: &[Lit],
) -> Result<bool, AllocError>
    ensures { IfOk result (λ yes. yes ≡ true → rup (known work.now) lits.now ≡ true) }
{
    let clauses = lists_of(alloc, work.clauses())?;
    is_rup(alloc, clauses.as_slice(), lits)
}

/// The literals of clauses with numbers.
pub fn lists_of(alloc: Global, cells: &[(u64, Clause)]) -> Result<Vec<Lits>, AllocError>
    ensures { IfOk result (λ clauses. clauses.items ≡ lists cells.now) }
{
    let mut clauses = Vec::new(alloc);
    for cell in cells {
        clauses.push(Lits::from_slice(alloc, cell.1.lits())?)?;
    }
    Ok(clauses)
}

/// The literals of units with numbers.
pub fn lits_of(alloc: Global, units: &[(Lit, u64)]) -> Result<Vec<Lit>, AllocError>
    ensures { IfOk result (λ lits. lits.items ≡ unit_lits units.now) }
{
    let mut lits = Vec::new(alloc);
    for unit in units {
        lits.push(unit.0)?;
    }
    Ok(lits)
}

/// Whether the clause of these literals is RAT on the first of them over the clauses that are alive.
pub fn is_rat_there<L: LineOut>(
    alloc: Global,
    work: &Work<L>,
    lits: &[Lit],
) -> Result<bool, AllocError>
    ensures { IfOk result (λ yes. yes ≡ rat (lists work.now.clauses) lits.now) }
{
    let clauses = lists_of(alloc, work.clauses())?;
    is_rat(alloc, clauses.as_slice(), lits)
}
