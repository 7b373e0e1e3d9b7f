// `share_rule`: a table is taken apart and tells what it held.
use crate::making::open;
use crate::rings::{begin, close_two, give_up, start_cell};
use crate::words::word_at;
use sat_words::Lit;
use share_rule::Rest;
use std::alloc::Global;
use std::process::Abort;
use std::test::Fail;
use test_formulas::Problem;

/// Three clauses and two units.
fn three_and_two(alloc: Global) -> Result<Problem, Fail> {
    let one = Lit::new(1, false);
    let two = Lit::new(2, false);
    let three = Lit::new(3, false);
    let problem = Problem::new(alloc, 5);
    let problem = problem.with(alloc, &[one, two, three])?;
    let problem = problem.with_unit(alloc, Lit::new(5, true))?;
    let problem = problem.with(alloc, &[one, two, three.not()])?;
    let problem = problem.with(alloc, &[two, one.not()])?;
    problem.with_unit(alloc, Lit::new(4, false))
}

/// Whether the rest is this clause with this number, with the glue of a start clause.
fn is_start(rest: &Rest, number: u64, lits: &[Lit]) -> bool {
    rest.number == number && rest.glue == 0 && rest.clause.lits() == lits
}

/// Both rings hold the first two clauses, and the third waits.
#[test]
fn a_table_tells_what_it_held(rt: HostRuntime) -> Result<(), Fail> {
    let problem = three_and_two(rt.alloc())?;
    let (table, mut first, cells) = open(rt.alloc(), &problem, 2, 64, 1)?;
    let waiting = start_cell(&first, cells.as_slice(), 2)?;
    let mut zero = begin(&table, &mut first, 0, waiting);
    let mut one = begin(&table, &mut first, 1, waiting);
    give_up(&table, &mut zero);
    give_up(&table, &mut one);
    let closed = close_two(rt.alloc(), table, first, zero, one)?;
    let rests = closed.rests.as_slice();
    assert_eq!(rt; rests.len(), 3);
    let one = Lit::new(1, false);
    let two = Lit::new(2, false);
    let three = Lit::new(3, false);
    assert!(rt; is_start(&rests[0], 1, [one, two, three].as_slice()));
    assert!(rt; is_start(&rests[1], 3, [one, two, three.not()].as_slice()));
    assert!(rt; is_start(&rests[2], 4, [one.not(), two].as_slice()));
    assert!(rt;
        closed.units.as_slice() == [(Lit::new(5, true), 2), (Lit::new(4, false), 5)].as_slice()
    );
    assert!(rt; [closed.book.holes.largest(), closed.book.entries] == [50, 0]);
    Ok(())
}

/// Five words, ten for units and sixteen slots lie before the 64 words of the cells; behind these the tickets are counted, and the
/// numbers follow.
#[test]
fn a_table_begins_with_the_numbers_of_its_units(rt: HostRuntime) -> Result<(), Fail> {
    let problem = three_and_two(rt.alloc())?;
    let (table, _first, _cells) = open(rt.alloc(), &problem, 2, 64, 1)?;
    let layout = table.layout;
    let units = [layout.unit(0), layout.unit(1), layout.unit(2)];
    let numbers = [layout.number(0), layout.number(1), layout.number(2)];
    assert!(rt; units == [5, 6, 7]);
    assert!(rt; numbers == [96, 97, 98]);
    assert!(rt; word_at(&table, 2) == Some(2));
    assert!(rt; units.map(|place| word_at(&table, place)) == [Some(11), Some(8), Some(0)]);
    assert!(rt; numbers.map(|place| word_at(&table, place)) == [Some(2), Some(5), Some(0)]);
    assert!(rt;
        [
            word_at(&table, 95),
            word_at(&table, 105),
            word_at(&table, 106)
        ] == [Some(0), Some(0), None]
    );
    Ok(())
}
