// `stop_word`: two rings and one stop, one after the other and on threads.
ghost use Rattle.std.specs.Prelude.{◌≡◌, IfOk};
ghost use Rattle.test_tables.specs.Samples.{IsRing};

use crate::stops::stop_with;
use sat_words::{Lit, STOP_MEMORY, STOP_SAT, Stop};
use share_rule::Shared;
use std::alloc::Global;
use std::test::Fail;
use std::thread::join;
use stop_word::{Set, look, set};
use test_formulas::Problem;
use test_tables::{Ring, SampleBook, begin, open, start_cell};

/// A table with its two rings, which have begun.
type Begun = (Shared<SampleBook>, Ring<SampleBook>, Ring<SampleBook>);

fn begin_two(alloc: Global) -> Result<Begun, Fail>
    ensures zero { IfOk result (λ x. IsRing x.0 x.1.pass x.1.ring) }
    ensures one { IfOk result (λ x. IsRing x.0 x.2.pass x.2.ring) }
    ensures rings { IfOk result (λ x. (x.1.ring ≡ 0) × (x.2.ring ≡ 1)) }
{
    let problem = Problem::new(alloc, 2);
    let problem = problem.with(alloc, &[Lit::new(1, false), Lit::new(2, false)])?;
    let (table, mut first, cells) = open(alloc, &problem, 2, 16, 1)?;
    let cell = start_cell(&first, cells.as_slice(), 0)?;
    let zero = begin(&table, &mut first, 0, cell);
    let one = begin(&table, &mut first, 1, cell);
    Ok((table, zero, one))
}

const MEMORY: Stop = Stop {
    kind: STOP_MEMORY,
    ring: 0,
};

const MODEL: Stop = Stop {
    kind: STOP_SAT,
    ring: 1,
};

#[test]
fn the_first_of_two_rings_wins(rt: HostRuntime) -> Result<(), Fail> {
    let (table, mut zero, mut one) = begin_two(rt.alloc())?;
    let before = look(&table, &mut zero.pass);
    let sets = [
        set(&table, &mut one.pass, MODEL),
        set(&table, &mut zero.pass, MEMORY),
    ];
    let behind = [look(&table, &mut zero.pass), look(&table, &mut one.pass)];
    assert!(rt; before.is_none());
    assert!(rt; sets == [Set::Won, Set::Lost(MODEL)]);
    assert!(rt; behind == [Some(MODEL), Some(MODEL)]);
    Ok(())
}

/// Both set theirs, each in a thread of its own if threads can be made.
#[test]
fn one_of_two_rings_on_threads_wins(rt: HostRuntime) -> Result<(), Fail> {
    let (table, mut zero, mut one) = begin_two(rt.alloc())?;
    let (zero, one) = join(
        &rt,
        || stop_with(&table, &mut zero, STOP_MEMORY),
        || stop_with(&table, &mut one, STOP_SAT),
    );
    let zero_wins = [zero, one] == [Set::Won, Set::Lost(MEMORY)];
    let one_wins = [zero, one] == [Set::Lost(MODEL), Set::Won];
    assert!(rt; zero_wins || one_wins);
    Ok(())
}
