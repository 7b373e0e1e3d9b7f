// `ring_run` over a port of three rings, if another ring's stop appears or its clause comes, and each line is refused.
use crate::beginning::{begin, join_crowd};
use crate::runs::{Kind, counted, kind_of};
use drat_text::CountedLines;
use ring_run::{Counts, End, run_ring};
use sat_words::{Lit, STOP_MEMORY, STOP_ROOM, Stop};
use std::alloc::Global;
use std::test::Fail;
use test_formulas::Problem;
use test_ports::{Gift, Poll, third_stop};

/// By this seed the first words of the reference generator of ring 1 end in the bits 0: all are decided false.
const SEED: u64 = 2;

/// The stop of the second of three rings.
fn own_stop(kind: u8) -> Stop {
    Stop { kind, ring: 1 }
}

/// What a run over the port came to.
#[derive(Drop)]
struct Ran {
    end: End,
    counts: Counts,
    stop: Option<Stop>,
    looks: u64,
    glue: Option<u32>,
    polls: Vec<Poll>,
}

/// Two clauses that oppose each other if 1 and 2 are false, and the clause of another ring: `1 2`. In the second ring the
/// scores decide, and as long as none rose the least variable comes first.
fn opposed_clauses(alloc: Global) -> Result<Problem, Fail> {
    let one = Lit::new(1, false);
    let two = Lit::new(2, false);
    let three = Lit::new(3, false);
    let problem = Problem::new(alloc, 3);
    let problem = problem.with(alloc, &[one, two, three])?;
    let problem = problem.with(alloc, &[one, two, three.not()])?;
    problem.with(alloc, &[one, two])
}

/// Runs the second of three rings on two clauses that oppose each other after two decisions. Another ring has a clause, and hands
/// it over at the first such poll.
fn run_on_two(alloc: Global, gift: Option<Gift>, quiet: u64, memory: bool) -> Result<Ran, Fail> {
    let problem = opposed_clauses(alloc)?;
    let lines = CountedLines::new(problem.formula.clauses().len() as u64, 0);
    let (inner, alone) = begin(alloc, problem, 2, SEED, lines)?;
    let (mut port, job) = join_crowd(alloc, inner, alone, gift, quiet, memory, 2)?;
    let (end, counts) = run_ring(alloc, &mut port, &job);
    Ok(Ran {
        end,
        counts,
        stop: port.known_stop(),
        looks: port.looks(),
        glue: port.glue(),
        polls: port.into_polls(),
    })
}

// The stop appears at the second look: one decision was made, and the ring set no stop.
#[test]
fn another_ring_stops_it(rt: HostRuntime) -> Result<(), Fail> {
    let ran = run_on_two(rt.alloc(), None, 1, false)?;
    let End::Stopped(stop) = ran.end else {
        return Err(Fail::from("not stopped"));
    };
    assert!(rt; [Some(stop), ran.stop] == [Some(third_stop()), Some(third_stop())]);
    assert!(rt; (ran.looks, ran.glue) == (1, None));
    assert!(rt; ran.counts == counted(0, 0));
    Ok(())
}

// Two looks find no stop, and two decisions are made. The lemma `2 1` has one level beside that of its first literal.
#[test]
fn tells_that_there_is_no_room(rt: HostRuntime) -> Result<(), Fail> {
    let ran = run_on_two(rt.alloc(), None, 9, false)?;
    let End::NoHole(lack) = ran.end else {
        return Err(Fail::from("there was room"));
    };
    assert!(rt; (lack.need, lack.largest) == (9, 7));
    assert!(rt; ran.stop == Some(own_stop(STOP_ROOM)));
    assert!(rt; (ran.looks, ran.glue) == (2, Some(1)));
    assert!(rt; ran.counts == counted(0, 0));
    Ok(())
}

#[test]
fn tells_that_memory_ran_out(rt: HostRuntime) -> Result<(), Fail> {
    let ran = run_on_two(rt.alloc(), None, 9, true)?;
    assert!(rt; kind_of(&ran.end) == Kind::Memory);
    assert!(rt; ran.stop == Some(own_stop(STOP_MEMORY)));
    assert!(rt; ran.counts == counted(0, 0));
    Ok(())
}

/// Ring, class and place of the slots that it looks into at an import: both places of the four classes of the first ring, and
/// then those of the third.
static EACH_SLOT: [(u32, u8, u32); 16] = [
    (0, 0, 0),
    (0, 0, 1),
    (0, 1, 0),
    (0, 1, 1),
    (0, 2, 0),
    (0, 2, 1),
    (0, 3, 0),
    (0, 3, 1),
    (2, 0, 0),
    (2, 0, 1),
    (2, 1, 0),
    (2, 1, 1),
    (2, 2, 0),
    (2, 2, 1),
    (2, 3, 0),
    (2, 3, 1),
];

// It polled each slot once, after it had asked for units and before it decided anything.
#[test]
fn polls_each_other_ring_at_its_start(rt: HostRuntime) -> Result<(), Fail> {
    let ran = run_on_two(rt.alloc(), None, 0, false)?;
    assert!(rt; kind_of(&ran.end) == Kind::Stopped);
    assert!(rt; ran.counts == counted(0, 0));
    assert!(rt; ran.polls.len() == EACH_SLOT.len());
    for (poll, slot) in ran.polls.iter().zip(EACH_SLOT.iter()) {
        assert!(rt; (poll.from, poll.class, poll.place) == *slot);
        assert!(rt; poll.caught_up == 1);
    }
    Ok(())
}

// If 1 is decided false the clause of another ring makes 2 true, so that no conflict comes, whose lemma would be refused.
#[test]
fn searches_over_what_it_was_handed(rt: HostRuntime) -> Result<(), Fail> {
    for (from, place) in [(0, 1), (2, 0)] {
        let gift = Gift {
            from,
            class: 0,
            place,
        };
        let ran = run_on_two(rt.alloc(), Some(gift), 9, false)?;
        let End::Sat(model) = &ran.end else {
            return Err(Fail::from("no model"));
        };
        assert!(rt; model.truth_of_lit(Lit::new(2, false)));
        assert!(rt; model.truth_of_lit(Lit::new(1, true)));
        assert!(rt; (ran.glue, ran.polls.len()) == (None, 16));
    }
    Ok(())
}
