// Rows of tests: what a simplifier is run on, and what is wanted of it: what is written and left, a line that fails, and a model
// that is mended.
ghost use Rattle.std.specs.Prelude.{◌≡◌, ◌≤◌, false, All};

use crate::{
    Simplifier, counted_work, elimination, equivalence, formula_of, is_on, literals, lits_of, run,
    subsumption, text_work, units,
};
use drat_text::{LineOut, LineStop, SinkLines};
use io_edge::MemSink;
use model_stack::Stack;
use sat_words::Assignment;
use simp_base::{Parts, Run, Work};
use std::alloc::{AllocError, Global};
use std::process::Abort;
use std::test::Fail;

/// The variables of each row are 1 to this one.
const VARS: u32 = 4;

/// Clauses, each with a 0 after it, and what is wanted: the answer, the lines, the units and how many clauses are left.
#[derive(Clone, Copy)]
pub(crate) struct Row {
    pub(crate) clauses: &'static [i32],
    pub(crate) answer: Run,
    pub(crate) text: &'static str,
    pub(crate) units: &'static [i32],
    pub(crate) left: usize,
}

/// The rows of each simplifier.
const ROWS: &[(Simplifier, &[Row])] = &[
    (Simplifier::Units, units::ROWS),
    (Simplifier::Subsumption, subsumption::ROWS),
    (Simplifier::Equivalence, equivalence::ROWS),
    (Simplifier::Elimination, elimination::ROWS),
];

/// For each simplifier clauses of which the first line fails, and how many of them are left then.
const FAULTS: &[(Simplifier, &[i32], usize)] = &[
    (Simplifier::Units, &[1, 0, -1, 2, 0], 2),
    (Simplifier::Subsumption, &[1, 2, 3, 0, 1, 2, 0], 2),
    (
        Simplifier::Equivalence,
        &[1, -2, 0, -1, 2, 0, 1, 2, 3, 0],
        3,
    ),
    (Simplifier::Elimination, &[1, 3, 0, 2, -3, 0], 2),
];

/// Whether what is written and left is as in the row.
fn is_left(
    alloc: Global,
    row: &Row,
    left: Parts<SinkLines<MemSink<'static>>>,
) -> Result<bool, Fail> {
    let units = literals(alloc, VARS, row.units)?;
    let listed = lits_of(alloc, left.units.as_slice())?;
    let (end, sink) = left.output.finish();
    Ok(
        end.is_ok()
            && sink.bytes() == row.text.as_bytes()
            && listed.as_slice() == units.as_slice()
            && left.clauses.len() == row.left,
    )
}

/// Runs the simplifier on the work, and takes the work apart.
fn run_out<L: LineOut>(simplifier: Simplifier, work: Work<L>) -> (Result<Run, LineStop>, Parts<L>)
    requires unspent { work.output.spent ≡ false }
    requires going { work.ended ≡ false }
{
    let mut work = work;
    let answer = run(simplifier, &mut work);
    (answer, work.into_parts())
}

/// Runs the simplifier on the row: whether it answers, writes and leaves what is wanted.
fn is_as_told(alloc: Global, simplifier: Simplifier, row: &Row) -> Result<bool, Fail> {
    let formula = formula_of(alloc, VARS, row.clauses)?;
    if !is_on(&formula) {
        return Ok(false);
    }
    let work = text_work(alloc, &formula, 64)?;
    let (answer, left) = run_out(simplifier, work);
    Ok(answer == Ok(row.answer) && is_left(alloc, row, left)?)
}

/// Whether the simplifier, if the first line of these clauses fails, says so and leaves this many clauses.
fn is_stopped(
    alloc: Global,
    simplifier: Simplifier,
    clauses: &[i32],
    left: usize,
) -> Result<bool, Fail> {
    let formula = formula_of(alloc, VARS, clauses)?;
    if !is_on(&formula) {
        return Ok(false);
    }
    let work = counted_work(alloc, &formula, 1)?;
    let (answer, parts) = run_out(simplifier, work);
    Ok(answer == Err(LineStop::ProofFault) && parts.clauses.len() == left)
}

fn check_rows(
    rt: &impl Abort,
    alloc: Global,
    simplifier: Simplifier,
    rows: &[Row],
) -> Result<(), Fail> {
    for row in rows {
        let text = row.text;
        assert!(rt; is_as_told(alloc, simplifier, row)?, "{text}");
    }
    Ok(())
}

#[test]
fn what_is_written_and_left(rt: HostRuntime) -> Result<(), Fail> {
    for (simplifier, rows) in ROWS {
        check_rows(&rt, rt.alloc(), *simplifier, rows)?;
    }
    Ok(())
}

#[test]
fn a_line_that_fails(rt: HostRuntime) -> Result<(), Fail> {
    for (simplifier, clauses, left) in FAULTS {
        assert!(rt; is_stopped(rt.alloc(), *simplifier, clauses, *left)?);
    }
    Ok(())
}

/// The assignment that is false everywhere, mended by the stack.
fn mended(alloc: Global, stack: &Stack) -> Result<Assignment, AllocError>
    requires { All (λ fix. fix.lit.var ≤ 4) stack.now }
{
    let mut model = Assignment::new(alloc, VARS)?;
    stack.extend(&mut model);
    Ok(model)
}

#[test]
fn a_model_comes_back(rt: HostRuntime) -> Result<(), Fail> {
    let alloc = rt.alloc();
    let formula = formula_of(alloc, VARS, &[1, 2, 0, 1, 4, 0, -1, 3, 0])?;
    assert!(rt; is_on(&formula));
    let mut work = counted_work(alloc, &formula, 0)?;
    assert!(rt; run(Simplifier::Elimination, &mut work) == Ok(Run::Done));
    let left = work.into_parts();
    let model = mended(alloc, &left.stack)?;
    for (var, value) in [(1, true), (2, false), (3, true), (4, false)] {
        assert!(rt; model.value(var) == value);
    }
    Ok(())
}
