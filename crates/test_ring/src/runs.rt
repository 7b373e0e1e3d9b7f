// `ring_run` over the port in memory, on small formulas.
ghost use Rattle.std.specs.Prelude.{◌≡◌, false, length};

use crate::beginning::begin;
use drat_text::{CountedLines, LineOut, SinkLines};
use io_edge::MemSink;
use ring_run::{Counts, End, run_ring};
use sat_words::{Lit, ProofFormat};
use std::alloc::Global;
use std::test::Fail;
use test_formulas::Problem;

/// By this seed the first words of the reference generator of ring 0 end in the bits 1, 0 and 0: variables 2 and 3 are decided
/// false. The greatest variable is decided first.
const SEED: u64 = 3;

/// Room for the text of a proof, in bytes.
const ROOM: usize = 64;

/// The four clauses on two variables, which no assignment makes true.
pub(crate) fn four_clauses(alloc: Global) -> Result<Problem, Fail> {
    let one = Lit::new(1, false);
    let two = Lit::new(2, false);
    let problem = Problem::new(alloc, 2);
    let problem = problem.with(alloc, &[one, two])?;
    let problem = problem.with(alloc, &[one, two.not()])?;
    let problem = problem.with(alloc, &[one.not(), two])?;
    problem.with(alloc, &[one.not(), two.not()])
}

/// A unit that forces 1, which forces 3; 4 occurs nowhere.
pub(crate) fn three_clauses(alloc: Global) -> Result<Problem, Fail> {
    let one = Lit::new(1, false);
    let two = Lit::new(2, false);
    let problem = Problem::new(alloc, 4);
    let problem = problem.with(alloc, &[one, two])?;
    let problem = problem.with(alloc, &[one.not(), Lit::new(3, false)])?;
    problem.with_unit(alloc, two.not())
}

/// Two clauses that oppose each other if 2 and 3 are false.
fn two_clauses(alloc: Global) -> Result<Problem, Fail> {
    let one = Lit::new(1, false);
    let two = Lit::new(2, false);
    let three = Lit::new(3, false);
    let problem = Problem::new(alloc, 3);
    let problem = problem.with(alloc, &[one, two, three])?;
    problem.with(alloc, &[one.not(), two, three])
}

/// The eight clauses on three variables, which no assignment makes true.
pub(crate) fn eight_clauses(alloc: Global) -> Result<Problem, Fail> {
    let one = Lit::new(1, false);
    let two = Lit::new(2, false);
    let three = Lit::new(3, false);
    let mut problem = Problem::new(alloc, 3);
    for lit in [one, one.not()] {
        problem = problem.with(alloc, &[lit, two, three])?;
        problem = problem.with(alloc, &[lit, two.not(), three])?;
        problem = problem.with(alloc, &[lit, two, three.not()])?;
        problem = problem.with(alloc, &[lit, two.not(), three.not()])?;
    }
    Ok(problem)
}

/// Two units that differ in sign.
pub(crate) fn two_units(alloc: Global) -> Result<Problem, Fail> {
    let one = Lit::new(1, false);
    let problem = Problem::new(alloc, 1).with_unit(alloc, one)?;
    problem.with_unit(alloc, one.not())
}

/// Runs a ring on a problem, with so many tickets.
fn run_over<L: LineOut + Drop>(
    alloc: Global,
    problem: Problem,
    limit: u64,
    lines: L,
) -> Result<(End, Counts, L), Fail>
    requires none { (L.told lines).entries ≡ 0 }
    requires last { (L.told lines).last ≡ length problem.formula.clauses }
    requires unspent { (L.told lines).spent ≡ false }
{
    let (mut port, job) = begin(alloc, problem, limit, SEED, lines)?;
    let (end, counts) = run_ring(alloc, &mut port, &job);
    Ok((end, counts, port.into_lines()))
}

/// The same with its proof in this format into a sink of this room.
pub(crate) fn run_in(
    alloc: Global,
    problem: Problem,
    limit: u64,
    format: ProofFormat,
    room: usize,
) -> Result<(End, Counts, MemSink<'static>), Fail> {
    let sink = MemSink::new(alloc, room, &[])?;
    let clauses = problem.formula.clauses().len() as u64;
    let Ok(lines) = SinkLines::with_format(alloc, format, clauses, sink) else {
        return Err(Fail::from("no memory for the lines"));
    };
    let (end, counts, lines) = run_over(alloc, problem, limit, lines)?;
    match lines.finish() {
        (Ok(()), sink) => Ok((end, counts, sink)),
        (Err(_), _) => Err(Fail::from("the sink failed")),
    }
}

/// The counts of a ring alone, which offers to nobody.
pub(crate) fn counted(learned: u64, exported: u64) -> Counts {
    Counts {
        learned,
        exported,
        offered: 0,
        restarts: 0,
    }
}

/// How a run ended, without what it found.
#[derive(Clone, Copy, PartialEq, Eq)]
pub(crate) enum Kind {
    Sat,
    Refuted,
    Spent,
    Stopped,
    NoHole,
    ProofFault,
    Memory,
}

pub(crate) fn kind_of(end: &End) -> Kind {
    match end {
        End::Sat(_) => Kind::Sat,
        End::Refuted => Kind::Refuted,
        End::Spent => Kind::Spent,
        End::Stopped(_) => Kind::Stopped,
        End::NoHole(_) => Kind::NoHole,
        End::ProofFault => Kind::ProofFault,
        End::Memory => Kind::Memory,
    }
}

/// What a run is to come to.
#[derive(Clone, Copy)]
struct Wanted<'a> {
    kind: Kind,
    counts: Counts,
    /// Its proof.
    text: &'a [u8],
    /// Literals that its model makes true, one of each variable that counts.
    lits: &'a [Lit],
    /// How many variables its model has.
    vars: usize,
}

/// Whether the end has a model on this many variables that makes the literals true, or none if none is wanted.
fn has_model(end: &End, lits: &[Lit], vars: usize) -> bool {
    let End::Sat(model) = end else {
        return vars == 0;
    };
    for lit in lits {
        if !model.truth_of_lit(*lit) {
            return false;
        }
    }
    model.len() == vars
}

/// Whether a run on a problem comes to this.
fn comes_to(alloc: Global, problem: Problem, limit: u64, wanted: &Wanted) -> Result<bool, Fail> {
    let (end, counts, sink) = run_in(alloc, problem, limit, ProofFormat::Text, ROOM)?;
    let ended = kind_of(&end) == wanted.kind && has_model(&end, wanted.lits, wanted.vars);
    Ok(ended && counts == wanted.counts && sink.bytes() == wanted.text)
}

// 2 false makes 1 and its negation true: the lemma is 2. With it the second and the last clause oppose each other, and the empty clause
// needs no ticket.
#[test]
fn refutes_four_clauses(rt: HostRuntime) -> Result<(), Fail> {
    let wanted = Wanted {
        kind: Kind::Refuted,
        counts: counted(1, 0),
        text: b"2 0\n0\n",
        lits: &[],
        vars: 0,
    };
    assert!(rt; comes_to(rt.alloc(), four_clauses(rt.alloc())?, 1, &wanted)?);
    Ok(())
}

// 3 and 2 are decided false: the lemma is `2 3`, as in the formula of two clauses. It makes 2 true, which opposes two other clauses, and
// the one ticket was drawn.
#[test]
fn ends_at_the_conflict_without_a_ticket(rt: HostRuntime) -> Result<(), Fail> {
    let wanted = Wanted {
        kind: Kind::Spent,
        counts: counted(1, 1),
        text: b"2 3 0\n",
        lits: &[],
        vars: 0,
    };
    assert!(rt; comes_to(rt.alloc(), eight_clauses(rt.alloc())?, 1, &wanted)?);
    Ok(())
}

#[test]
fn learns_nothing_without_tickets(rt: HostRuntime) -> Result<(), Fail> {
    let wanted = Wanted {
        kind: Kind::Spent,
        counts: counted(0, 0),
        text: b"",
        lits: &[],
        vars: 0,
    };
    assert!(rt; comes_to(rt.alloc(), four_clauses(rt.alloc())?, 0, &wanted)?);
    Ok(())
}

#[test]
fn tells_that_its_proof_failed(rt: HostRuntime) -> Result<(), Fail> {
    let alloc = rt.alloc();
    let problem = four_clauses(alloc)?;
    let lines = CountedLines::new(problem.formula.clauses().len() as u64, 1);
    let (end, counts, _) = run_over(alloc, problem, 2, lines)?;
    assert!(rt; kind_of(&end) == Kind::ProofFault);
    assert!(rt; counts == counted(0, 0));
    Ok(())
}

// The literals that the unit makes true get lines, and it gets none.
#[test]
fn finds_a_model(rt: HostRuntime) -> Result<(), Fail> {
    let lits = [
        Lit::new(1, false),
        Lit::new(2, true),
        Lit::new(3, false),
        Lit::new(4, true),
    ];
    let wanted = Wanted {
        kind: Kind::Sat,
        counts: counted(0, 0),
        text: b"1 0\n3 0\n",
        lits: &lits,
        vars: 4,
    };
    assert!(rt; comes_to(rt.alloc(), three_clauses(rt.alloc())?, 1, &wanted)?);
    Ok(())
}

// 3 and 2 are decided false, and oppose the clauses: the lemma makes 2 true if 3 is false, and 1 is decided, as it was before the conflict.
#[test]
fn learns_a_clause(rt: HostRuntime) -> Result<(), Fail> {
    let wanted = Wanted {
        kind: Kind::Sat,
        counts: counted(1, 1),
        text: b"2 3 0\n",
        lits: &[Lit::new(2, false), Lit::new(3, true)],
        vars: 3,
    };
    assert!(rt; comes_to(rt.alloc(), two_clauses(rt.alloc())?, 1, &wanted)?);
    Ok(())
}

#[test]
fn refutes_opposed_units(rt: HostRuntime) -> Result<(), Fail> {
    let wanted = Wanted {
        kind: Kind::Refuted,
        counts: counted(0, 0),
        text: b"0\n",
        lits: &[],
        vars: 0,
    };
    assert!(rt; comes_to(rt.alloc(), two_units(rt.alloc())?, 1, &wanted)?);
    Ok(())
}
