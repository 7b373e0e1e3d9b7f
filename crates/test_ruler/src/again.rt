// `again` of `ruler_simp`: the ruler goes on with what it left of small formulas.
ghost use Rattle.std.specs.Prelude.{◌≡◌, false, All, length, Ok, IfOk};
ghost use Rattle.sat_words.specs.Formats.{has_hints};
ghost use Rattle.sat_words.specs.Literal.{IsOn};
ghost use Rattle.ruler_simp.specs.declared.ruling.Simplified.{Simplified};
ghost use Rattle.ruler_simp.specs.declared.ruling.Outcome.TheVariants.{Simplified as LeftOver};
ghost use Rattle.test_ruler.specs.Going.{CanGoOn};

use crate::ring_entries::{delete_last, learn, without_stack};
use crate::tallied::{Tallied, Written};
use crate::{model_of, numbers_of};
use drat_text::{LineStop, SinkLines};
use io_edge::MemSink;
use ruler_simp::{
    Outcome, Schedule, Simplified, again, simplify, what_is_left_resumes, with_units,
};
use sat_words::Formula;
use std::alloc::Global;
use std::test::Fail;
use test_simplifiers::{formula_of, is_on, literals, text_lines};

/// The variables of each formula are 1 to this one.
const VARS: u32 = 7;

/// This many rounds, in which no variables are added.
fn without_additions(rounds: u32) -> Schedule
    ensures { result ≡ record { rounds = rounds; additions = false } }
{
    Schedule {
        rounds,
        additions: false,
    }
}

/// Simplifies the formula in so many rounds.
fn begin(
    alloc: Global,
    formula: &Formula,
    rounds: u32,
    lines: Written,
) -> (Result<Outcome, LineStop>, Written)
    requires unspent { lines.spent ≡ false }
    requires plain { has_hints lines.format ≡ false }
    requires blank { lines.entries ≡ 0 }
    requires last { lines.last ≡ length formula.now.clauses }
    requires on { All (All (IsOn formula.now.vars)) formula.now.clauses }
    ensures { (s : Simplified) → result.0 ≡ Ok (LeftOver s) → CanGoOn formula.now.clauses s result.1 }
{
    what_is_left_resumes();
    simplify(alloc, formula, without_additions(rounds), lines)
}

/// Simplifies what is left in so many rounds.
fn go_on(
    alloc: Global,
    formula: &Formula,
    rounds: u32,
    left: Simplified,
    lines: Written,
) -> (Result<Outcome, LineStop>, Written)
    requires { CanGoOn formula.now.clauses left lines }
    ensures { (s : Simplified) → result.0 ≡ Ok (LeftOver s) → CanGoOn formula.now.clauses s result.1 }
{
    what_is_left_resumes();
    let end = lines.end();
    let Simplified {
        vars,
        start,
        units,
        stack,
    } = left;
    let Ok(clauses) = with_units(alloc, start, units.as_slice()) else {
        return (Err(LineStop::Memory), lines);
    };
    let schedule = without_additions(rounds);
    again(
        alloc, formula, vars, clauses, units, schedule, stack, end, lines,
    )
}

/// Simplifies the formula in `first` rounds, and what is left in `later` rounds.
fn simplify_twice(
    alloc: Global,
    formula: &Formula,
    first: u32,
    later: u32,
    lines: Written,
) -> (Result<Outcome, LineStop>, Written)
    requires unspent { lines.spent ≡ false }
    requires plain { has_hints lines.format ≡ false }
    requires blank { lines.entries ≡ 0 }
    requires last { lines.last ≡ length formula.now.clauses }
    requires on { All (All (IsOn formula.now.vars)) formula.now.clauses }
    ensures { (s : Simplified) → result.0 ≡ Ok (LeftOver s) → CanGoOn formula.now.clauses s result.1 }
{
    let (answer, lines) = begin(alloc, formula, first, lines);
    match answer {
        Ok(Outcome::Simplified(left)) => go_on(alloc, formula, later, left, lines),
        Ok(Outcome::Refuted) => (Ok(Outcome::Refuted), lines),
        Err(stop) => (Err(stop), lines),
    }
}

/// What is left, if something is.
fn left_of(answer: Result<Outcome, LineStop>) -> Result<Simplified, Fail>
    ensures { IfOk result (λ left. answer ≡ Ok (LeftOver left)) }
{
    match answer {
        Ok(Outcome::Simplified(left)) => Ok(left),
        _ => Err("nothing is left".into()),
    }
}

/// What so many rounds leave of the formula.
fn first_run(alloc: Global, formula: &Formula, rounds: u32) -> Result<(Simplified, Written), Fail>
    requires { All (All (IsOn formula.now.vars)) formula.now.clauses }
    ensures { IfOk result (λ left. CanGoOn formula.now.clauses left.0 left.1) }
{
    let lines = Tallied::new(
        text_lines(alloc, formula, 1024)?,
        formula.clauses().len() as u64,
    );
    let (answer, lines) = begin(alloc, formula, rounds, lines);
    Ok((left_of(answer)?, lines))
}

/// What one round leaves of what is left, some clauses. If `forgets`, the stack begins anew.
fn next_run(
    alloc: Global,
    formula: &Formula,
    left: Simplified,
    lines: Written,
    forgets: bool,
) -> Result<(Simplified, Written), Fail>
    requires { CanGoOn formula.now.clauses left lines }
    ensures { IfOk result (λ later. CanGoOn formula.now.clauses later.0 later.1) }
{
    if left.start.is_empty() {
        return Err("no clause is left".into());
    }
    let before = if forgets {
        without_stack(alloc, formula, left, &lines)
    } else {
        left
    };
    let (answer, lines) = go_on(alloc, formula, 1, before, lines);
    Ok((left_of(answer)?, lines))
}

/// Whether a model of the formula comes of two runs more, which leave no clause. The stack begins anew before those that forget.
fn makes_a_model(
    alloc: Global,
    formula: &Formula,
    left: Simplified,
    lines: Written,
    forget: (bool, bool),
) -> Result<bool, Fail>
    requires { CanGoOn formula.now.clauses left lines }
{
    if model_of(alloc, left.vars, &left)?.formula_true(formula) {
        return Err("the stack before is enough".into());
    }
    let (left, lines) = next_run(alloc, formula, left, lines, forget.0)?;
    let (left, _lines) = next_run(alloc, formula, left, lines, forget.1)?;
    let model = model_of(alloc, left.vars, &left)?;
    Ok(left.start.is_empty() && model.formula_true(formula))
}

/// Whether both end alike.
fn end_alike(one: &Result<Outcome, LineStop>, other: &Result<Outcome, LineStop>) -> bool {
    match (one, other) {
        (Ok(Outcome::Simplified(left)), Ok(Outcome::Simplified(kept))) => {
            left.start.len() == kept.start.len() && left.units.as_slice() == kept.units.as_slice()
        }
        (Ok(Outcome::Refuted), Ok(Outcome::Refuted)) => true,
        _ => false,
    }
}

/// Whether the same was written.
fn are_equal(some: SinkLines<MemSink<'static>>, others: SinkLines<MemSink<'static>>) -> bool {
    let (some_end, some_sink) = some.finish();
    let (other_end, other_sink) = others.finish();
    some_end.is_ok() && other_end.is_ok() && some_sink.bytes() == other_sink.bytes()
}

/// Whether two calls write and leave what one does, in as many rounds, and the model that both stacks make is one of the formula
/// if no clause is left.
fn goes_on_as_one(alloc: Global, clauses: &[i32], first: u32, later: u32) -> Result<bool, Fail> {
    let formula = formula_of(alloc, VARS, clauses)?;
    if !is_on(&formula) {
        return Ok(false);
    }
    let rounds = without_additions(first.saturating_add(later));
    let (one, whole) = simplify(alloc, &formula, rounds, text_lines(alloc, &formula, 512)?);
    let lines = Tallied::new(
        text_lines(alloc, &formula, 512)?,
        formula.clauses().len() as u64,
    );
    let (two, lines) = simplify_twice(alloc, &formula, first, later, lines);
    if !end_alike(&one, &two) || !are_equal(whole, lines.into_lines()) {
        return Ok(false);
    }
    let Ok(Outcome::Simplified(left)) = two else {
        return Ok(true);
    };
    let model = model_of(alloc, left.vars, &left)?;
    Ok(!left.start.is_empty() || model.formula_true(&formula))
}

/// Of these the first round leaves one, which the second one eliminates.
const TWICE: &[i32] = &[
    1, 4, 7, 0, 2, 3, 5, 0, -1, -5, 7, 0, -1, -5, -6, 0, 1, -2, -3, -5, 0, -1, -6, 7, 0, -2, -4, 5,
    0, 2, 5, -7, 0, 1, -2, 0, -2, 3, 6, 0,
];

/// Units alone find nothing in these, and they have no model.
const REFUTED: &[i32] = &[1, 2, 0, 1, -2, 0, -1, 2, 0, -1, -2, 0];

#[test]
fn both_stacks_make_a_model(rt: HostRuntime) -> Result<(), Fail> {
    assert!(rt; goes_on_as_one(rt.alloc(), TWICE, 1, 1)?);
    Ok(())
}

#[test]
fn what_is_left_is_refuted(rt: HostRuntime) -> Result<(), Fail> {
    assert!(rt; goes_on_as_one(rt.alloc(), REFUTED, 0, 3)?);
    Ok(())
}

/// In runs of one round each, the first leaves thirteen clauses, the second two, and the third none.
const THRICE: &[i32] = &[
    1, 2, 6, 0, -4, -6, 0, 1, 2, 3, 0, 1, 7, 0, -1, -4, 5, 0, -2, 7, 0, -4, -5, -7, 0, -6, -7, 0,
    -2, 5, 6, 0, -3, 5, 0, -3, 4, 7, 0, -1, 4, 6, 0, 2, 3, 6, 0, -1, 3, 4, 0,
];

#[test]
fn three_stacks_make_a_model(rt: HostRuntime) -> Result<(), Fail> {
    let alloc = rt.alloc();
    let formula = formula_of(alloc, VARS, THRICE)?;
    assert!(rt; is_on(&formula));
    for (second, third) in [(false, false), (true, false), (false, true)] {
        let (left, lines) = first_run(alloc, &formula, 1)?;
        let model = makes_a_model(alloc, &formula, left, lines, (second, third))?;
        assert_eq!(rt; model, !second && !third);
    }
    Ok(())
}

#[test]
fn a_ring_writes_between_runs(rt: HostRuntime) -> Result<(), Fail> {
    let alloc = rt.alloc();
    let formula = formula_of(alloc, VARS, THRICE)?;
    assert!(rt; is_on(&formula));
    let (left, lines) = first_run(alloc, &formula, 1)?;
    let lemma = literals(alloc, VARS, &[-6, -2])?;
    let (left, lines) = learn(alloc, &formula, left, lines, lemma.as_slice())?;
    let other = literals(alloc, VARS, &[1, -6])?;
    let (left, lines) = learn(alloc, &formula, left, lines, other.as_slice())?;
    let (left, lines) = delete_last(&formula, left, lines)?;
    assert!(rt; makes_a_model(alloc, &formula, left, lines, (false, false))?);
    Ok(())
}

/// The lines of a ring that learns two lemmas and deletes one, and then those of the ruler, which deletes the other one in order.
const SPELLED: &str =
    "3 1 0\n2 4 0\nd 2 4 0\n2 4 0\n3 4 0\nd 1 2 0\nd 1 3 0\nd -1 4 0\n3 4 0\nd 2 4 0\nd -2 3 0\nd 3 4 0\nd 3 4 0\n";

#[test]
fn a_lemma_is_deleted_in_order(rt: HostRuntime) -> Result<(), Fail> {
    let alloc = rt.alloc();
    let formula = formula_of(alloc, VARS, &[1, 2, 0, -2, 3, 0, -1, 4, 0])?;
    assert!(rt; is_on(&formula));
    let (left, lines) = first_run(alloc, &formula, 0)?;
    let lemma = literals(alloc, VARS, &[3, 1])?;
    let (left, lines) = learn(alloc, &formula, left, lines, lemma.as_slice())?;
    let other = literals(alloc, VARS, &[2, 4])?;
    let (left, lines) = learn(alloc, &formula, left, lines, other.as_slice())?;
    let (left, lines) = delete_last(&formula, left, lines)?;
    assert!(rt; numbers_of(alloc, &left)?.as_slice() == [1, 2, 3, 4].as_slice());
    let (left, lines) = next_run(alloc, &formula, left, lines, false)?;
    assert!(rt; left.start.is_empty() && left.units.is_empty());
    assert!(rt; model_of(alloc, left.vars, &left)?.formula_true(&formula));
    let (end, sink) = lines.into_lines().finish();
    assert!(rt; end.is_ok() && sink.bytes() == SPELLED.as_bytes());
    Ok(())
}
