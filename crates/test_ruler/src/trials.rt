// Trials: each simplifier over many formulas. What it came to is what its definition, run the slow way, comes to; a formula that it
// refutes has no model, and the models of what is left become models of the formula.
ghost use Rattle.std.specs.Prelude.{◌≤◌, All};

use crate::plain::{are_units_taken, is_eliminated, is_reduced, is_substituted};
use crate::{draw_formula, has_no_model, models_lift};
use drat_text::CountedLines;
use sat_words::{Clause, Formula};
use simp_base::{Parts, Run};
use std::alloc::{AllocError, Global};
use std::process::Abort;
use std::test::Fail;
use test_simplifiers::{Simplifier, counted_work, is_on, lits_of, run};

/// How many formulas each one is tried on.
const TRIALS: u64 = 300;

/// What is left has models just if the formula has, and they become models of it; a formula that is refuted has none.
fn keeps_models(
    alloc: Global,
    formula: &Formula,
    answer: Run,
    left: &Parts<CountedLines>,
) -> Result<bool, AllocError>
    requires { All (λ fix. fix.lit.var ≤ 6) left.now.stack }
{
    match answer {
        Run::Done => {
            let units = lits_of(alloc, left.units.as_slice())?;
            models_lift(
                alloc,
                formula,
                left.clauses.as_slice(),
                units.as_slice(),
                &left.stack,
            )
        }
        Run::Refuted => has_no_model(alloc, formula),
    }
}

/// Whether a simplifier came to what its definition, run the slow way, comes to. Two of them refute nothing.
fn is_as_defined(
    alloc: Global,
    simplifier: Simplifier,
    formula: &[Clause],
    answer: Run,
    left: &Parts<CountedLines>,
) -> Result<bool, AllocError> {
    let clauses = left.clauses.as_slice();
    let listed = lits_of(alloc, left.units.as_slice())?;
    let units = listed.as_slice();
    match simplifier {
        Simplifier::Units => are_units_taken(alloc, formula, answer, clauses, units),
        Simplifier::Subsumption => Ok(answer == Run::Done && is_reduced(clauses)),
        Simplifier::Equivalence => is_substituted(alloc, formula, answer, clauses, units),
        Simplifier::Elimination => {
            Ok(answer == Run::Done && is_eliminated(alloc, formula, clauses)?)
        }
    }
}

/// Runs a simplifier on the formula with this number: whether it came to what is defined, and keeps models.
fn goes_well(alloc: Global, simplifier: Simplifier, number: u64) -> Result<bool, Fail> {
    let formula = draw_formula(alloc, number)?;
    if !is_on(&formula) {
        return Ok(false);
    }
    let mut work = counted_work(alloc, &formula, 0)?;
    let Ok(answer) = run(simplifier, &mut work) else {
        return Ok(false);
    };
    let left = work.into_parts();
    Ok(
        is_as_defined(alloc, simplifier, formula.clauses(), answer, &left)?
            && keeps_models(alloc, &formula, answer, &left)?,
    )
}

fn try_all(rt: &impl Abort, alloc: Global, simplifier: Simplifier) -> Result<(), Fail> {
    for number in 0..TRIALS {
        assert!(rt; goes_well(alloc, simplifier, number)?, "{number}");
    }
    Ok(())
}

#[test]
fn units(rt: HostRuntime) -> Result<(), Fail> {
    try_all(&rt, rt.alloc(), Simplifier::Units)
}

#[test]
fn subsumption(rt: HostRuntime) -> Result<(), Fail> {
    try_all(&rt, rt.alloc(), Simplifier::Subsumption)
}

#[test]
fn equivalence(rt: HostRuntime) -> Result<(), Fail> {
    try_all(&rt, rt.alloc(), Simplifier::Equivalence)
}

#[test]
fn elimination(rt: HostRuntime) -> Result<(), Fail> {
    try_all(&rt, rt.alloc(), Simplifier::Elimination)
}
