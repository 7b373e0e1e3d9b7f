//! Assignments to all variables, tried one after another.
ghost use Rattle.std.specs.Prelude.{◌≡◌, ◌≤◌, ◌<◌, ℕ, List, true, false, All, IfOk, length};
ghost use Rattle.model_stack.specs.Extend.{extend};
ghost use Rattle.std.specs.List.{list_all};
ghost use Rattle.sat_words.specs.Literal.{Literal};
ghost use Rattle.sat_words.specs.Truth.{lit_true, clause_true, formula_true};
ghost use Rattle.test_ruler.specs.Models.{assignment, is_model, is_lifted, models_lift};

use crate::draws::VARS;
use model_stack::Stack;
use sat_words::{Assignment, Clause, Formula, Lit};
use std::alloc::{AllocError, Global};

/// How many assignments there are.
pub const ASSIGNMENTS: u32 = 1 << VARS;

/// The assignment with this number: its bits are the values.
pub fn assignment_of(alloc: Global, number: u32) -> Result<Assignment, AllocError>
    ensures { IfOk result (λ a. a ≡ assignment number) }
{
    let mut values = Assignment::new(alloc, VARS)?;
    let mut rest = number;
    for index in 0..VARS {
        values.set(index + 1, rest % 2 == 1);
        rest /= 2;
    }
    Ok(values)
}

fn are_clauses_true(values: &Assignment, clauses: &[(u64, Clause)]) -> bool
    ensures { result ≡ list_all (λ (c : ℕ × List Literal). clause_true values.now c.1) clauses.now }
{
    clauses.iter().all(|cell| values.clause_true(&cell.1))
}

fn are_units_true(values: &Assignment, units: &[Lit]) -> bool
    ensures { result ≡ list_all (lit_true values.now) units.now }
{
    units.iter().all(|unit| values.truth_of_lit(*unit))
}

/// Whether it makes each clause and each unit true.
pub fn is_model_of(values: &Assignment, clauses: &[(u64, Clause)], units: &[Lit]) -> bool
    ensures { result ≡ is_model values.now clauses.now units.now }
{
    are_clauses_true(values, clauses) && are_units_true(values, units)
}

/// Whether the assignment, mended by the stack, makes each clause of the formula true.
fn is_mended(formula: &Formula, stack: &Stack, values: Assignment) -> bool
    requires { All (λ fix. fix.lit.var ≤ length values) stack.now }
    ensures { result ≡ formula_true (extend stack.now values) formula.now.clauses }
{
    let mut values = values;
    stack.extend(&mut values);
    values.formula_true(formula)
}

/// Whether the assignment, if it is a model of what is left, becomes one of the formula over the stack.
fn is_lifted(
    formula: &Formula,
    clauses: &[(u64, Clause)],
    units: &[Lit],
    stack: &Stack,
    values: Assignment,
) -> bool
    requires { All (λ fix. fix.lit.var ≤ length values) stack.now }
    ensures { result ≡ is_lifted formula.now.clauses clauses.now units.now stack.now values }
{
    !is_model_of(&values, clauses, units) || is_mended(formula, stack, values)
}

/// Whether each model of what is left becomes one of the formula over the stack, and what is left has a model just if the
/// formula has one.
pub fn models_lift(
    alloc: Global,
    formula: &Formula,
    clauses: &[(u64, Clause)],
    units: &[Lit],
    stack: &Stack,
) -> Result<bool, AllocError>
    requires { All (λ fix. fix.lit.var ≤ 6) stack.now }
    ensures exact { IfOk result (λ yes. yes ≡ models_lift formula.now.clauses clauses.now units.now stack.now) }
    ensures lifted { IfOk result (λ yes. yes ≡ true → (n : ℕ) → n < 64 → is_model (assignment n) clauses.now units.now ≡ true → formula_true (extend stack.now (assignment n)) formula.now.clauses ≡ true) }
{
    let mut before = false;
    let mut after = false;
    for number in 0..ASSIGNMENTS {
        let values = assignment_of(alloc, number)?;
        before |= values.formula_true(formula);
        after |= is_model_of(&values, clauses, units);
        if !is_lifted(formula, clauses, units, stack, values) {
            return Ok(false);
        }
    }
    Ok(before == after)
}

/// Whether no assignment makes each clause true.
pub fn has_no_model(alloc: Global, formula: &Formula) -> Result<bool, AllocError>
    ensures none { IfOk result (λ none. none ≡ true → (n : ℕ) → n < 64 → formula_true (assignment n) formula.now.clauses ≡ false) }
    ensures some { IfOk result (λ none. none ≡ false → (n : ℕ) × (formula_true (assignment n) formula.now.clauses ≡ true)) }
{
    for number in 0..ASSIGNMENTS {
        let values = assignment_of(alloc, number)?;
        let is_true = values.formula_true(formula);
        if is_true {
            return Ok(false);
        }
    }
    Ok(true)
}
