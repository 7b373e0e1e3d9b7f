// `ring_run` over logs in LRAT: each line has hints that show that its clause follows.
use crate::long_runs::chosen_clauses;
use crate::runs::{Kind, eight_clauses, four_clauses, kind_of, run_in, three_clauses, two_units};
use sat_words::ProofFormat;
use std::alloc::Global;
use std::test::Fail;
use test_formulas::Problem;
use test_hints::Follower;

/// Room for the text of a proof, in bytes.
const ROOM: usize = 1 << 23;

/// The proof of a run with so many tickets.
fn lines_of(alloc: Global, problem: Problem, limit: u64, wanted: &[u8]) -> Result<bool, Fail> {
    let (_end, _counts, sink) = run_in(alloc, problem, limit, ProofFormat::Lrat, 64)?;
    Ok(sink.bytes() == wanted)
}

// What was attached last is looked at first. If 2 is false the third clause gives -1, and the first one is false. It is true by the
// lemma, 5, and the last clause gives -1, so that the second one is false.
#[test]
fn lemmas_have_hints(rt: HostRuntime) -> Result<(), Fail> {
    let alloc = rt.alloc();
    let wanted = b"5 2 0 3 1 0\n6 0 5 4 2 0\n".as_slice();
    assert!(rt; lines_of(alloc, four_clauses(alloc)?, 1, wanted)?);
    Ok(())
}

// The unit's clause is the third one. The first clause gives 1, whose line makes it the clause 4, and the second one gives 3.
#[test]
fn units_have_hints(rt: HostRuntime) -> Result<(), Fail> {
    let alloc = rt.alloc();
    let wanted = b"4 1 0 3 1 0\n5 3 0 4 2 0\n".as_slice();
    assert!(rt; lines_of(alloc, three_clauses(alloc)?, 1, wanted)?);
    Ok(())
}

// The first unit makes the clause of the second one false.
#[test]
fn opposed_units_are_hints(rt: HostRuntime) -> Result<(), Fail> {
    let alloc = rt.alloc();
    let wanted = b"3 0 1 2 0\n".as_slice();
    assert!(rt; lines_of(alloc, two_units(alloc)?, 1, wanted)?);
    Ok(())
}

/// Follows the proof of a run with so many tickets, if it comes to this. Tells how many clauses it deletes.
fn follow_run(alloc: Global, problem: Problem, limit: u64, wanted: Kind) -> Result<u64, Fail> {
    let mut follower = Follower::new(alloc, &problem.formula)?;
    let (end, _counts, sink) = run_in(alloc, problem, limit, ProofFormat::Lrat, ROOM)?;
    if kind_of(&end) != wanted {
        return Err(Fail::from("another end"));
    }
    if !follower.follow_all(sink.bytes())? {
        return Err(Fail::from("a line that doesn't follow"));
    }
    if follower.is_refuted() != (wanted == Kind::Refuted) {
        return Err(Fail::from("another last line"));
    }
    Ok(follower.deletions())
}

#[test]
fn refutations_can_be_followed(rt: HostRuntime) -> Result<(), Fail> {
    let alloc = rt.alloc();
    assert_eq!(rt;
        follow_run(alloc, eight_clauses(alloc)?, 9, Kind::Refuted)?,
        0
    );
    assert_eq!(rt;
        follow_run(alloc, chosen_clauses(alloc, 30, 420)?, 1000, Kind::Refuted)?,
        0
    );
    Ok(())
}

// It reduces its lemmas and makes others shorter.
#[test]
fn a_long_run_can_be_followed(rt: HostRuntime) -> Result<(), Fail> {
    let alloc = rt.alloc();
    assert!(rt; follow_run(alloc, chosen_clauses(alloc, 60, 830)?, 3500, Kind::Spent)? > 0);
    Ok(())
}
