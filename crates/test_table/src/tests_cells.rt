// `ref_count` and `test_tables`: tables for small formulas, the worked row, cells read back, and rings on threads.
ghost use Rattle.std.specs.Prelude.{◌≤◌, ◌<◌, ◌^◌, IfOk};
ghost use Rattle.test_tables.specs.Samples.{IsHolder};

use crate::trades::{
    begin_all, count_of, gather_all, give_up_all, read_back, sum_of_reads, trade, trade_all,
};
use clause_cell::HoleStop;
use sat_words::{Cref, Head, Lit};
use share_rule::{Shared, close};
use std::alloc::Global;
use std::process::Abort;
use std::test::Fail;
use std::thread::Threads;
use test_formulas::Problem;
use test_tables::{Ring, SampleBook, begin, gather, give_up, open, refusal, start_cell};

/// Three clauses, of which 2 follows.
fn three(alloc: Global) -> Result<Problem, Fail> {
    let one = Lit::new(1, false);
    let two = Lit::new(2, false);
    let three = Lit::new(3, false);
    let problem = Problem::new(alloc, 3);
    let problem = problem.with(alloc, &[one, two, three])?;
    let problem = problem.with(alloc, &[one, two, three.not()])?;
    problem.with(alloc, &[one.not(), two])
}

#[test]
fn the_last_of_two_rings_is_told(rt: HostRuntime) -> Result<(), Fail> {
    let problem = three(rt.alloc())?;
    let (table, mut first, cells) = open(rt.alloc(), &problem, 2, 64, 1)?;
    let places = [
        Cref { address: 27 },
        Cref { address: 32 },
        Cref { address: 37 },
    ];
    assert!(rt; cells.as_slice() == places.as_slice());
    let cell = start_cell(&first, cells.as_slice(), 0)?;
    let mut one = begin(&table, &mut first, 0, cell);
    let mut two = begin(&table, &mut first, 1, cell);
    give_up(&table, &mut one);
    give_up(&table, &mut two);
    assert!(rt; [one.lasts, two.lasts] == [0, 1]);
    gather(&table, &mut first, two);
    gather(&table, &mut first, one);
    let book = close(table, first);
    assert!(rt; [book.holes.largest(), book.entries] == [50, 0]);
    Ok(())
}

/// Rings on threads that each take one more count of a start cell and give one up, this often, and then give up the one that
/// they began with: how often a ring was told that it was the last.
fn race(
    rt: &(impl Abort + AllocGlobal + Threads + Sync),
    rings: u32,
    place: usize,
    turns: u64,
) -> Result<u64, Fail>
    requires some { 1 ≤ rings }
    requires few { rings ≤ 16 }
    requires turns { turns < 2 ^ 56 }
{
    let problem = three(rt.alloc())?;
    let (table, mut first, cells) = open(rt.alloc(), &problem, rings, 64, 1)?;
    let cell = start_cell(&first, cells.as_slice(), place)?;
    let mut rings = begin_all(rt.alloc(), &table, &mut first, cell, rings)?;
    let count = rings.len() as u64;
    let begun = count_of(&table, cell);
    trade_all(rt, &table, rings.as_mut_slice(), turns);
    let traded = count_of(&table, cell);
    give_up_all(rt, &table, rings.as_mut_slice(), turns);
    let left = count_of(&table, cell);
    assert!(rt; [begun, traded, left] == [Some(count), Some(count), Some(0)]);
    let lasts = gather_all(&table, &mut first, rings);
    assert!(rt; close(table, first).holes.largest() == 50);
    Ok(lasts)
}

/// How often each ring takes one more count and gives one up.
const TURNS: u64 = 100_000;

#[test]
fn four_rings_trade_one_cell(rt: HostRuntime) -> Result<(), Fail> {
    assert!(rt; race(&rt, 4, 2, TURNS)? == 1);
    Ok(())
}

#[test]
fn two_rings_on_threads_give_a_cell_up(rt: HostRuntime) -> Result<(), Fail> {
    assert!(rt; race(&rt, 2, 0, 0)? == 1);
    Ok(())
}

/// Literals on the variables from 1 on, every third negated.
fn literals(alloc: Global, size: u32) -> Result<Vec<Lit>, Fail>
    requires { size < 100 }
{
    let mut lits = Vec::new(alloc);
    for var in 1..size + 1 {
        lits.push(Lit::new(var, var % 3 == 0))?;
    }
    Ok(lits)
}

/// A ring alone that has begun with the cell at a place.
fn begin_alone(
    alloc: Global,
    problem: &Problem,
    place: usize,
) -> Result<(Shared<SampleBook>, Ring<SampleBook>), Fail>
    ensures { IfOk result (λ x. IsHolder x.0 x.1.pass x.1.ring x.1.cell.address 0) }
{
    let (table, mut first, cells) = open(alloc, problem, 1, 64, 1)?;
    let cell = start_cell(&first, cells.as_slice(), place)?;
    let ring = begin(&table, &mut first, 0, cell);
    Ok((table, ring))
}

/// The same over the one clause of these literals.
fn begin_with(alloc: Global, lits: &[Lit]) -> Result<(Shared<SampleBook>, Ring<SampleBook>), Fail>
    ensures { IfOk result (λ x. IsHolder x.0 x.1.pass x.1.ring x.1.cell.address 0) }
{
    let problem = Problem::new(alloc, 40).with(alloc, lits)?;
    begin_alone(alloc, &problem, 0)
}

#[test]
fn cells_are_read_back(rt: HostRuntime) -> Result<(), Fail> {
    for size in 2..41 {
        let lits = literals(rt.alloc(), size)?;
        let (table, mut ring) = begin_with(rt.alloc(), lits.as_slice())?;
        let (head, read) = read_back(rt.alloc(), &table, &mut ring)?;
        let wanted = Head {
            size,
            glue: 0,
            number: 1,
        };
        assert!(rt;
            head == wanted && read.as_slice() == lits.as_slice(),
            "of {size}"
        );
    }
    Ok(())
}

// The next two and the trades are what bench/cells measures: literals read from a cell, and as many from a vector.

/// How often the literals are read.
const READS: u32 = 2_500_000;

/// The sum of the codes of forty literals, this often.
const SUM: u64 = 1653 * 2_500_000;

#[test]
fn one_cell_is_read(rt: HostRuntime) -> Result<(), Fail> {
    let lits = literals(rt.alloc(), 40)?;
    let (table, mut ring) = begin_with(rt.alloc(), lits.as_slice())?;
    assert!(rt; sum_of_reads(&table, &mut ring, READS) == SUM);
    Ok(())
}

fn sum_of_codes(lits: &[Lit], start: u64) -> u64 {
    let mut sum = start;
    for lit in lits {
        sum = sum.wrapping_add(lit.code() as u64);
    }
    sum
}

#[test]
fn one_vector_is_read(rt: HostRuntime) -> Result<(), Fail> {
    let lits = literals(rt.alloc(), 40)?;
    let mut sum = 0;
    for _ in 0..READS {
        sum = sum_of_codes(lits.as_slice(), sum);
    }
    assert!(rt; sum == SUM);
    Ok(())
}

#[test]
fn one_ring_trades_one_cell(rt: HostRuntime) -> Result<(), Fail> {
    let (table, mut ring) = begin_alone(rt.alloc(), &three(rt.alloc())?, 2)?;
    trade(&table, &mut ring, 4 * TURNS);
    assert!(rt; count_of(&table, ring.cell) == Some(1));
    assert!(rt; ring.lasts == 0);
    Ok(())
}

/// A table is refused if the second clause finds no hole.
#[test]
fn no_table_without_room(rt: HostRuntime) -> Result<(), Fail> {
    let problem = three(rt.alloc())?;
    let (why, last) = refusal(rt.alloc(), &problem, 2, 9)?;
    let no_hole = HoleStop::NoHole {
        need: 5,
        largest: 4,
    };
    assert!(rt; why == no_hole);
    assert!(rt; last == 3);
    Ok(())
}
