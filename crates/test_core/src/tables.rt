// Events in tables, with what becomes of each and what they leave: step by step, and all at once.
//
// A table is read in `events`, its openings stand in `openings`, and what is seen of the core after it is written in `seen`.
use crate::events::{Row, read};
use crate::guards::{
    CELLS, CLAUSES, EXCHANGE, IN_HAND, NO_RINGS, NO_TICKETS, TICKETS, TURNS, UNITS,
};
use crate::openings::{EMPTY, FOUR, GIVEN, THREE, open};
use crate::rows::{ENDED_BEFORE, EQUAL_LEMMAS, OPENING_UNITS, PUT_BESIDE, PUT_TWICE};
use crate::seen::state;
use share_core::{Core, Step};
use std::process::Abort;
use std::test::Fail;

/// Steps through the events.
fn walk(rt: &(impl Abort + AllocGlobal), core: &mut Core, row: &Row) -> Result<(), Fail> {
    let mut line: u32 = 0;
    for (event, wanted) in row.events.iter().zip(row.steps.iter()) {
        line = line.wrapping_add(1);
        assert_eq!(rt; core.step(rt.alloc(), event)?, *wanted, "in line {line}");
    }
    Ok(())
}

/// Reads the table, and steps through its events.
pub(crate) fn walk_through(
    rt: &(impl Abort + AllocGlobal),
    core: &mut Core,
    table: &'static str,
) -> Result<(), Fail> {
    let row = read(rt.alloc(), table)?;
    walk(rt, core, &row)
}

fn check_left(rt: &(impl Abort + AllocGlobal), core: &Core, left: &str) -> Result<(), Fail> {
    let text = state(rt.alloc(), core)?;
    assert_eq!(rt; text.as_str(), left);
    Ok(())
}

fn are_done(steps: &[Step]) -> bool {
    steps.iter().all(|step| *step == Step::Done)
}

/// Runs the events of the row at once.
fn run_row(rt: &(impl Abort + AllocGlobal), core: &mut Core, row: &Row) -> Result<(), Fail> {
    let step = core.run(rt.alloc(), row.events.as_slice())?;
    let all = are_done(row.steps.as_slice());
    assert_eq!(rt; step == Step::Done, all);
    Ok(())
}

fn check_steps(
    rt: &(impl Abort + AllocGlobal),
    core: &mut Core,
    row: &Row,
    left: &str,
) -> Result<(), Fail> {
    walk(rt, core, row)?;
    check_left(rt, core, left)
}

fn check_run(
    rt: &(impl Abort + AllocGlobal),
    core: &mut Core,
    row: &Row,
    left: &str,
) -> Result<(), Fail> {
    run_row(rt, core, row)?;
    check_left(rt, core, left)
}

/// A row with tickets enough.
fn check_row(
    rt: &(impl Abort + AllocGlobal),
    opening: &'static str,
    rings: u32,
    depth: u32,
    text: &'static str,
) -> Result<(), Fail> {
    check_limited(rt, opening, rings, depth, 10, text)
}

/// Steps through the row, and then runs its events at once over another core, and compares what they leave.
fn check_limited(
    rt: &(impl Abort + AllocGlobal),
    opening: &'static str,
    rings: u32,
    depth: u32,
    limit: u64,
    text: &'static str,
) -> Result<(), Fail> {
    let Some((table, left)) = text.split_once("leaves\n") else {
        return Err(Fail::from("a row leaves something"));
    };
    let row = read(rt.alloc(), table)?;
    let mut core = open(rt, opening, rings, depth, limit)?;
    check_steps(rt, &mut core, &row, left)?;
    let mut core = open(rt, opening, rings, depth, limit)?;
    check_run(rt, &mut core, &row, left)
}

#[test]
fn refuses_events_of_no_ring(rt: HostRuntime) -> Result<(), Fail> {
    check_row(&rt, THREE, 2, 1, NO_RINGS)
}

#[test]
fn guards_turns_and_grants(rt: HostRuntime) -> Result<(), Fail> {
    check_row(&rt, THREE, 2, 1, TURNS)
}

#[test]
fn guards_clauses(rt: HostRuntime) -> Result<(), Fail> {
    check_row(&rt, THREE, 2, 1, CLAUSES)
}

#[test]
fn guards_units_and_the_end(rt: HostRuntime) -> Result<(), Fail> {
    check_row(&rt, FOUR, 2, 1, UNITS)
}

#[test]
fn guards_cells(rt: HostRuntime) -> Result<(), Fail> {
    check_row(&rt, THREE, 2, 1, CELLS)
}

#[test]
fn guards_exchange(rt: HostRuntime) -> Result<(), Fail> {
    check_row(&rt, THREE, 3, 2, EXCHANGE)
}

#[test]
fn guards_tickets(rt: HostRuntime) -> Result<(), Fail> {
    check_limited(&rt, THREE, 2, 1, 1, TICKETS)?;
    check_limited(&rt, THREE, 2, 1, 2, IN_HAND)?;
    check_limited(&rt, THREE, 2, 1, 0, NO_TICKETS)
}

#[test]
fn equal_lemmas_are_two_copies(rt: HostRuntime) -> Result<(), Fail> {
    check_row(&rt, THREE, 2, 1, EQUAL_LEMMAS)
}

#[test]
fn what_comes_out_of_a_slot_is_held(rt: HostRuntime) -> Result<(), Fail> {
    check_row(&rt, THREE, 2, 1, PUT_TWICE)
}

#[test]
fn puts_into_two_places_both_come_out(rt: HostRuntime) -> Result<(), Fail> {
    check_row(&rt, THREE, 2, 2, PUT_BESIDE)
}

#[test]
fn opening_units_are_listed(rt: HostRuntime) -> Result<(), Fail> {
    check_row(&rt, GIVEN, 2, 1, OPENING_UNITS)
}

#[test]
fn the_empty_clause_may_be_given(rt: HostRuntime) -> Result<(), Fail> {
    check_row(&rt, EMPTY, 2, 1, ENDED_BEFORE)
}
