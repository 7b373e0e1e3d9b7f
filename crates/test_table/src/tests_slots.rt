// `pool_exchange`: two rings, two cells and one slot or two, and the classes of clauses.
use crate::slots::{get_first, give_back, put_first};
use pool_exchange::class_of;
use ref_count::Dropped;
use sat_words::Lit;
use std::alloc::Global;
use std::test::Fail;
use test_formulas::Problem;
use test_tables::{begin, give_up, open, start_cell};

/// Two clauses over two variables.
fn two(alloc: Global) -> Result<Problem, Fail> {
    let x = Lit::new(1, false);
    let y = Lit::new(2, false);
    let problem = Problem::new(alloc, 2);
    let problem = problem.with(alloc, &[x, y])?;
    problem.with(alloc, &[x, y.not()])
}

#[test]
fn what_a_put_brings_back_is_given_up(rt: HostRuntime) -> Result<(), Fail> {
    let problem = two(rt.alloc())?;
    let (table, mut first, cells) = open(rt.alloc(), &problem, 2, 16, 1)?;
    let old = start_cell(&first, cells.as_slice(), 0)?;
    let new = start_cell(&first, cells.as_slice(), 1)?;
    if old.address == new.address {
        return Err(Fail::from("one cell"));
    }
    let mut zero = begin(&table, &mut first, 0, old);
    let mut one = begin(&table, &mut first, 1, old);
    give_up(&table, &mut one);
    let none = put_first(&table, &mut zero, 1, 0, old);
    let back = put_first(&table, &mut zero, 1, 0, new);
    let given = give_back(&table, &mut zero, back);
    let got = get_first(&table, &mut one, 0, 0);
    let again = get_first(&table, &mut one, 0, 0);
    assert!(rt; given == Some(Dropped::Last));
    assert!(rt; [none, back, got, again] == [None, Some(old), Some(new), None]);
    Ok(())
}

/// With two slots of a class nothing comes back of two puts, and both come out.
#[test]
fn two_puts_lie_beside_each_other(rt: HostRuntime) -> Result<(), Fail> {
    let problem = two(rt.alloc())?;
    let (table, mut first, cells) = open(rt.alloc(), &problem, 2, 16, 2)?;
    let old = start_cell(&first, cells.as_slice(), 0)?;
    let new = start_cell(&first, cells.as_slice(), 1)?;
    if old.address == new.address {
        return Err(Fail::from("one cell"));
    }
    let mut zero = begin(&table, &mut first, 0, old);
    let mut one = begin(&table, &mut first, 1, old);
    let none = put_first(&table, &mut zero, 1, 0, old);
    let beside = put_first(&table, &mut zero, 1, 1, new);
    let second = get_first(&table, &mut one, 0, 1);
    let got = get_first(&table, &mut one, 0, 0);
    let again = get_first(&table, &mut one, 0, 0);
    assert!(rt; [none, beside] == [None, None]);
    assert!(rt; [second, got, again] == [Some(new), Some(old), None]);
    Ok(())
}

#[test]
fn classes_of_clauses(rt: HostRuntime) {
    let classes = [
        class_of(2, 1),
        class_of(3, 2),
        class_of(9, 6),
        class_of(9, 7),
    ];
    assert!(rt; classes == [Some(0), Some(2), Some(3), None]);
}
