// `unit_share` and the turn below it: rings on threads that take the turn of one book, and the row of two rings.
ghost use Rattle.std.specs.Prelude.{◌≤◌, ◌<◌, ◌^◌};

use crate::learners::begin_over_three;
use crate::tests_meeting::meet;
use crate::tests_row::play;
use crate::writers::{begin_writers, gather_writers, make_three, new_book, write_all};
use io_edge::MemSink;
use sat_words::Lit;
use share_rule::close;
use std::alloc::AllocGlobal;
use std::process::Abort;
use std::sync::Wait;
use std::test::Fail;
use std::thread::Threads;
use test_tables::{gather, open_with, start_cell};

/// Rings on threads that each take the turn this often and write the unit 2 in it. All lines stand, each under a number of its
/// own, which each ring was known in order.
fn relay(
    rt: &(impl Abort + AllocGlobal + Threads + Wait + Sync),
    rings: u32,
    times: u64,
) -> Result<(), Fail>
    requires some { 1 ≤ rings }
    requires few { rings ≤ 16 }
    requires times { times < 2 ^ 24 }
{
    let problem = make_three(rt.alloc())?;
    let lines = rings as u64 * times;
    let sink = MemSink::new(rt.alloc(), 4 * lines as usize, &[])?;
    let book = new_book(rt.alloc(), &problem.formula, sink, false)?;
    let (table, mut first, cells) = open_with(rt.alloc(), &problem, rings, 64, 1, 0, book)?;
    let cell = start_cell(&first, cells.as_slice(), 0)?;
    let mut writers = begin_writers(rt.alloc(), &table, &mut first, cell, rings)?;
    write_all(rt, rt.alloc(), &table, writers.as_mut_slice(), times);
    let (written, last, sum) = gather_writers(&table, &mut first, writers);
    let book = close(table, first);
    assert_eq!(rt;
        (written, last, book.entries, book.last()),
        (lines, lines + 3, lines, lines + 3)
    );
    assert_eq!(rt; sum, lines.saturating_mul(lines + 7) / 2);
    let (end, sink, _) = book.finish();
    assert_eq!(rt; end, Ok(()));
    assert_eq!(rt; sink.bytes().len() as u64, 4 * lines);
    Ok(())
}

/// How often each ring takes the turn.
const TURNS: u64 = 10_000;

#[test]
fn four_rings_take_turns(rt: HostRuntime) -> Result<(), Fail> {
    relay(&rt, 4, TURNS)
}

// The next two are what bench/turn measures beside the first.

#[test]
fn two_rings_take_turns(rt: HostRuntime) -> Result<(), Fail> {
    relay(&rt, 2, 2 * TURNS)
}

#[test]
fn one_ring_takes_turns(rt: HostRuntime) -> Result<(), Fail> {
    relay(&rt, 1, 4 * TURNS)
}

/// Two rings on threads learn the same clause, and one of them deletes its copy. Then the other learns a unit and lists it
/// in its next turn, and the first reads it. There are as many tickets as they learn.
#[test]
fn two_rings_hand_over(rt: HostRuntime) -> Result<(), Fail> {
    let problem = make_three(rt.alloc())?;
    let sink = MemSink::new(rt.alloc(), 64, &[])?;
    let book = new_book(rt.alloc(), &problem.formula, sink, true)?;
    let (table, mut first, cells) = open_with(rt.alloc(), &problem, 2, 64, 1, 3, book)?;
    let cell = start_cell(&first, cells.as_slice(), 0)?;
    let zero = begin_over_three(&table, &mut first, 0, cell);
    let one = begin_over_three(&table, &mut first, 1, cell);
    let (zero, one) = play(&rt, rt.alloc(), &table, zero, one);
    let (zero, steps, unit, none) = zero;
    let (one, others, _, _) = one;
    gather(&table, &mut first, one);
    gather(&table, &mut first, zero);
    let book = close(table, first);
    assert_eq!(rt; (steps, others), (4, 5));
    assert_eq!(rt; (unit, none), (Some((Lit::new(2, false), 6)), None));
    let (end, sink, lines) = book.finish();
    assert_eq!(rt; end, Ok(()));
    assert!(rt; sink.bytes() == b"1 2 0\n1 2 0\nd 1 2 0\n2 0\n".as_slice());
    assert_eq!(rt; lines.map(|lines| lines.len()), Some(4));
    Ok(())
}

/// Two rings on threads take the turn in rounds, and each waits for the other before the next round. No ring sleeps for ever.
#[test]
fn two_rings_wake_each_other(rt: HostRuntime) -> Result<(), Fail> {
    let problem = make_three(rt.alloc())?;
    let sink = MemSink::new(rt.alloc(), 64, &[])?;
    let book = new_book(rt.alloc(), &problem.formula, sink, false)?;
    let (table, mut first, cells) = open_with(rt.alloc(), &problem, 2, 64, 1, 0, book)?;
    let cell = start_cell(&first, cells.as_slice(), 0)?;
    let zero = begin_over_three(&table, &mut first, 0, cell);
    let one = begin_over_three(&table, &mut first, 1, cell);
    let (zero, one) = meet(&rt, rt.alloc(), &table, zero, one);
    gather(&table, &mut first, one);
    gather(&table, &mut first, zero);
    let book = close(table, first);
    assert_eq!(rt; book.entries, 0);
    let (end, _, _) = book.finish();
    assert_eq!(rt; end, Ok(()));
    Ok(())
}
