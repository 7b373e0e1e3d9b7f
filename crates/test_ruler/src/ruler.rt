// `ruler_simp` on small formulas: the lines that it writes and what it leaves of each, by its rounds, and a line that fails.
ghost use Rattle.std.specs.Prelude.{◌≡◌, false, All};
ghost use Rattle.ruler_simp.specs.Ruled.{AreOn};
ghost use Rattle.sat_words.specs.Literal.{IsOn};

use crate::{model_of, models_lift, numbers_of};
use drat_text::{LineStop, SinkLines};
use io_edge::MemSink;
use ruler_simp::{Outcome, Schedule, Simplified, simplify};
use sat_words::Formula;
use std::alloc::{AllocError, Global};
use std::test::Fail;
use test_simplifiers::{counted_lines, formula_of, is_on, literals, lits_of, text_lines};

/// The variables of each row are 1 to this one.
const VARS: u32 = 7;

/// Clauses on these variables, each with a 0 after it, and a number of rounds; the lines that are wanted, and what is left:
/// the numbers of the start clauses and the units, or nothing if the formula is refuted.
#[derive(Clone, Copy)]
struct Row {
    clauses: &'static [i32],
    rounds: u32,
    text: &'static str,
    left: Option<(&'static [u64], &'static [i32])>,
}

const ROWS: &[Row] = &[
    // No clause.
    Row {
        clauses: &[],
        rounds: 3,
        text: "",
        left: Some((&[], &[])),
    },
    // The empty clause.
    Row {
        clauses: &[1, 2, 0, 0],
        rounds: 3,
        text: "0\n",
        left: None,
    },
    // Opposed units, with units alone.
    Row {
        clauses: &[1, 0, -1, 0],
        rounds: 0,
        text: "0\n",
        left: None,
    },
    // A tautology stays, and is no start clause.
    Row {
        clauses: &[1, -1, 0],
        rounds: 3,
        text: "",
        left: Some((&[], &[])),
    },
    // A variable that only a tautology holds.
    Row {
        clauses: &[1, -1, 2, 0, -2, -3, 0],
        rounds: 3,
        text: "d -2 -3 0\n",
        left: Some((&[], &[])),
    },
    // A clause that is there twice.
    Row {
        clauses: &[1, 2, 0, 1, 2, 0],
        rounds: 1,
        text: "d 1 2 0\nd 1 2 0\n",
        left: Some((&[], &[])),
    },
    // All clauses go, and a unit is found.
    Row {
        clauses: &[1, 2, 0, -1, 2, 0, -2, 3, 0, -3, -1, 0],
        rounds: 3,
        text: "2 0\nd -1 2 0\n2 -3 0\nd 1 2 0\nd -1 -3 0\nd -2 3 0\nd 2 -3 0\n",
        left: Some((&[], &[2])),
    },
    // In no round the same clauses stay.
    Row {
        clauses: &[1, 2, 0, -1, 2, 0, -2, 3, 0, -3, -1, 0],
        rounds: 0,
        text: "",
        left: Some((&[1, 2, 3, 4], &[])),
    },
    // In no round a unit is taken out of a clause; what is left has the last number.
    Row {
        clauses: &[1, 0, -1, 2, 3, 0, 3, -3, 2, 0, 2, 3, 0, 2, 3, 0],
        rounds: 0,
        text: "2 3 0\nd -1 2 3 0\n",
        left: Some((&[4, 5, 6], &[1])),
    },
    // Common sets stay if no additions are asked for.
    Row {
        clauses: COMMON,
        rounds: 3,
        text: "",
        left: Some((&[1, 2, 3, 4, 5, 6, 7, 8, 9, 10, 11, 12, 13, 14, 15], &[])),
    },
    // Equivalent literals, once a clause was made shorter.
    Row {
        clauses: &[1, -2, 0, -1, 2, 0, 1, 2, 3, 0],
        rounds: 1,
        text: "1 3 0\nd 1 2 3 0\nd 1 -2 0\nd -1 2 0\nd 1 3 0\n",
        left: Some((&[], &[])),
    },
];

/// Of these the first round leaves one, which the second one eliminates.
const TWICE: &[i32] = &[
    1, 4, 7, 0, 2, 3, 5, 0, -1, -5, 7, 0, -1, -5, -6, 0, 1, -2, -3, -5, 0, -1, -6, 7, 0, -2, -4, 5,
    0, 2, 5, -7, 0, 1, -2, 0, -2, 3, 6, 0,
];

/// On five variables: 1 and 2 have three common sets, and no other simplifier finds anything to do.
const COMMON: &[i32] = &[
    1, -3, -4, 0, 1, -4, -5, 0, 1, 3, 4, 0, 2, -3, -4, 0, 2, -4, -5, 0, 2, 3, 4, 0, 2, -3, -5, 0,
    -1, -2, -4, 0, 1, -2, 5, 0, -2, 4, -5, 0, -3, 4, -5, 0, -1, 2, 3, 0, -1, 4, 5, 0, 1, 3, -5, 0,
    1, -3, 5, 0,
];

/// Of these, 6 is added: it or 1, it or 2, each common set with its negation; then the old clauses are deleted.
const EXCHANGE: &str = "6 1 0\n6 2 0\n-6 -3 -4 0\n-6 -4 -5 0\n-6 3 4 0\n\
    d 1 -3 -4 0\nd 2 -3 -4 0\nd 1 -4 -5 0\nd 2 -4 -5 0\nd 1 3 4 0\nd 2 3 4 0\n";

/// The numbers of the clauses that are left then.
const KEPT_AND_ADDED: &[u64] = &[7, 8, 9, 10, 11, 12, 13, 14, 15, 16, 17, 18, 19, 20];

/// The variables that are left then are 1 to this one.
const WIDER: u32 = 6;

/// Whether what is left is as in the row, and has a model of the formula if it has no clause.
fn is_left(alloc: Global, row: &Row, formula: &Formula, left: &Simplified) -> Result<bool, Fail>
    requires { AreOn left.now.vars left.now }
{
    let Some((starts, units)) = row.left else {
        return Ok(false);
    };
    let units = literals(alloc, VARS, units)?;
    let listed = lits_of(alloc, left.units.as_slice())?;
    let numbers = numbers_of(alloc, left)?;
    if left.vars != formula.vars() {
        return Ok(false);
    }
    if numbers.as_slice() != starts || listed.as_slice() != units.as_slice() {
        return Ok(false);
    }
    if !starts.is_empty() {
        return Ok(true);
    }
    let model = model_of(alloc, left.vars, left)?;
    Ok(model.formula_true(formula))
}

/// This many rounds, in which no variables are added.
fn without_additions(rounds: u32) -> Schedule
    ensures { result ≡ record { rounds = rounds; additions = false } }
{
    Schedule {
        rounds,
        additions: false,
    }
}

/// Whether these are the lines.
fn is_written(lines: SinkLines<MemSink<'static>>, text: &str) -> bool {
    let (end, sink) = lines.finish();
    end.is_ok() && sink.bytes() == text.as_bytes()
}

/// Whether the ruler writes and leaves what the row says.
fn is_as_told(alloc: Global, row: &Row) -> Result<bool, Fail> {
    let formula = formula_of(alloc, VARS, row.clauses)?;
    if !is_on(&formula) {
        return Ok(false);
    }
    let lines = text_lines(alloc, &formula, 128)?;
    let (answer, lines) = simplify(alloc, &formula, without_additions(row.rounds), lines);
    if !is_written(lines, row.text) {
        return Ok(false);
    }
    match answer {
        Ok(Outcome::Simplified(left)) => is_left(alloc, row, &formula, &left),
        Ok(Outcome::Refuted) => Ok(row.left.is_none()),
        Err(_) => Ok(false),
    }
}

#[test]
fn what_is_written_and_left(rt: HostRuntime) -> Result<(), Fail> {
    for row in ROWS {
        let text = row.text;
        assert!(rt; is_as_told(rt.alloc(), row)?, "{text}");
    }
    Ok(())
}

/// How many start clauses are left of the formula in these rounds, over a line output whose line with this number fails; the stop
/// if one does, and nothing if the formula is refuted.
fn starts_left(
    alloc: Global,
    formula: &Formula,
    rounds: u32,
    failing: u64,
) -> Result<Option<usize>, LineStop>
    requires { All (All (IsOn formula.now.vars)) formula.now.clauses }
{
    let lines = counted_lines(formula, failing);
    match simplify(alloc, formula, without_additions(rounds), lines).0 {
        Ok(Outcome::Simplified(left)) => Ok(Some(left.start.len())),
        Ok(Outcome::Refuted) => Ok(None),
        Err(stop) => Err(stop),
    }
}

#[test]
fn a_second_round_goes_on(rt: HostRuntime) -> Result<(), Fail> {
    let formula = formula_of(rt.alloc(), VARS, TWICE)?;
    assert!(rt; is_on(&formula));
    for (rounds, starts) in [(1, 1), (2, 0), (u32::MAX, 0)] {
        assert!(rt; starts_left(rt.alloc(), &formula, rounds, 0) == Ok(Some(starts)));
    }
    Ok(())
}

#[test]
fn a_line_that_fails(rt: HostRuntime) -> Result<(), Fail> {
    let formula = formula_of(rt.alloc(), VARS, &[1, 0, -1, 2, 0])?;
    assert!(rt; is_on(&formula));
    for failing in 1..=2 {
        let stopped = starts_left(rt.alloc(), &formula, 3, failing);
        assert!(rt; stopped == Err(LineStop::ProofFault));
    }
    Ok(())
}

/// Whether the clauses with the common sets are replaced, and each model of what is left becomes one of the formula.
fn is_exchanged(alloc: Global, formula: &Formula, left: &Simplified) -> Result<bool, AllocError>
    requires { AreOn left.now.vars left.now }
{
    if left.vars != WIDER {
        return Ok(false);
    }
    let numbers = numbers_of(alloc, left)?;
    if numbers.as_slice() != KEPT_AND_ADDED {
        return Ok(false);
    }
    let units = lits_of(alloc, left.units.as_slice())?;
    models_lift(
        alloc,
        formula,
        left.start.as_slice(),
        units.as_slice(),
        &left.stack,
    )
}

/// Whether a round with additions writes the exchange, and leaves what it makes of the formula.
fn adds_a_variable(alloc: Global) -> Result<bool, Fail> {
    let formula = formula_of(alloc, WIDER - 1, COMMON)?;
    if !is_on(&formula) {
        return Ok(false);
    }
    let lines = text_lines(alloc, &formula, 256)?;
    let schedule = Schedule {
        rounds: 1,
        additions: true,
    };
    let (answer, lines) = simplify(alloc, &formula, schedule, lines);
    if !is_written(lines, EXCHANGE) {
        return Ok(false);
    }
    match answer {
        Ok(Outcome::Simplified(left)) => Ok(is_exchanged(alloc, &formula, &left)?),
        Ok(Outcome::Refuted) => Ok(false),
        Err(_) => Ok(false),
    }
}

#[test]
fn a_variable_is_added(rt: HostRuntime) -> Result<(), Fail> {
    assert!(rt; adds_a_variable(rt.alloc())?);
    Ok(())
}
