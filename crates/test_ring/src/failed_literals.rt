// `probe`: literals over the clauses on two variables, in the port in memory.
ghost use Rattle.std.specs.Prelude.{◌≡◌, true, false, length, All, IsSome};
ghost use Rattle.sat_words.specs.declared.shared.Cref.{Cref};
ghost use Rattle.ring_port.specs.PortState.{held_at};
ghost use Rattle.ring_port.specs.Port.{is_usable};

use crate::beginning::open_problem;
use crate::stepping::quiet_start;
use analyze::Analysis;
use drat_text::{CountedLines, LineOut, SinkLines};
use io_edge::MemSink;
use ring_port::{Port, PortStop};
use ring_probe::{Probed, probe};
use sat_words::{Cref, Lit, ProofFormat};
use std::alloc::Global;
use std::test::Fail;
use test_formulas::Problem;

/// Room for the text of a proof, in bytes.
const ROOM: usize = 64;

/// What probing came to.
type Answer = Result<Probed, PortStop>;

/// Probes 1 over clauses that are held, if they force nothing of it.
fn probe_over<P: Port>(alloc: Global, port: &mut P, clauses: &[Cref]) -> Result<Answer, Fail>
    requires held { All (λ (c : Cref). IsSome (held_at (P.state port.old) c.address)) clauses.now }
    requires usable { is_usable (P.state port.old).refused ≡ true }
{
    let mut stepping = quiet_start(alloc, port, clauses)?;
    if port.vars() == 0 {
        return Err(Fail::from("no variable"));
    }
    if stepping.value(1).is_some() {
        return Err(Fail::from("the variable has a value"));
    }
    let mut analysis = Analysis::new(alloc, stepping.trail.vars())?;
    Ok(probe(
        port,
        &mut stepping.watches,
        &mut stepping.trail,
        &mut analysis,
        Lit::new(1, false),
    ))
}

/// Probes 1 over a problem.
fn probe_one<L: LineOut + Drop>(
    alloc: Global,
    problem: Problem,
    lines: L,
) -> Result<(Answer, L), Fail>
    requires none { (L.told lines).entries ≡ 0 }
    requires last { (L.told lines).last ≡ length problem.formula.clauses }
    requires unspent { (L.told lines).spent ≡ false }
{
    let mut port = open_problem(alloc, problem, 0, lines)?;
    let start = port.start(alloc)?;
    let answer = probe_over(alloc, &mut port, start.as_slice())?;
    Ok((answer, port.into_lines()))
}

/// Whether 1 over a problem has this answer and this proof.
fn comes_to(
    alloc: Global,
    problem: Problem,
    format: ProofFormat,
    wanted: Answer,
    proof: &[u8],
) -> Result<bool, Fail> {
    let clauses = problem.formula.clauses().len() as u64;
    let sink = MemSink::new(alloc, ROOM, &[])?;
    let Ok(lines) = SinkLines::with_format(alloc, format, clauses, sink) else {
        return Err(Fail::from("no memory for the lines"));
    };
    let (answer, lines) = probe_one(alloc, problem, lines)?;
    match lines.finish() {
        (Ok(()), sink) => Ok(answer == wanted && sink.bytes() == proof),
        (Err(_), _) => Err(Fail::from("the sink failed")),
    }
}

/// The same if this line of the proof fails, the first of which is 1.
fn comes_to_failing(
    alloc: Global,
    problem: Problem,
    wanted: Answer,
    line: u64,
) -> Result<bool, Fail> {
    let lines = CountedLines::new(problem.formula.clauses().len() as u64, line);
    let (answer, _lines) = probe_one(alloc, problem, lines)?;
    Ok(answer == wanted)
}

/// 1 gives 2.
fn one_clause(alloc: Global) -> Result<Problem, Fail> {
    let problem = Problem::new(alloc, 2);
    problem.with(alloc, &[Lit::new(1, true), Lit::new(2, false)])
}

/// 1 gives 2 and its negation.
fn two_clauses(alloc: Global) -> Result<Problem, Fail> {
    one_clause(alloc)?.with(alloc, &[Lit::new(1, true), Lit::new(2, true)])
}

/// So does its negation.
fn four_clauses(alloc: Global) -> Result<Problem, Fail> {
    let one = Lit::new(1, false);
    let problem = two_clauses(alloc)?.with(alloc, &[one, Lit::new(2, false)])?;
    problem.with(alloc, &[one, Lit::new(2, true)])
}

/// The format of the proofs without hints.
const PLAIN: ProofFormat = ProofFormat::Text;

#[test]
fn a_literal_holds(rt: HostRuntime) -> Result<(), Fail> {
    let alloc = rt.alloc();
    assert!(rt; comes_to(alloc, one_clause(alloc)?, PLAIN, Ok(Probed::Holds), b"")?);
    Ok(())
}

// What was attached last is looked at first: if the literal is true the second clause gives -2, and the first one is false.
#[test]
fn a_literal_fails(rt: HostRuntime) -> Result<(), Fail> {
    let alloc = rt.alloc();
    let answer = Ok(Probed::Unit(Lit::new(1, true)));
    let proofs = [
        (PLAIN, b"-1 0\n".as_slice()),
        (ProofFormat::Lrat, b"3 -1 0 2 1 0\n".as_slice()),
    ];
    for (format, proof) in proofs {
        assert!(rt; comes_to(alloc, two_clauses(alloc)?, format, answer, proof)?);
    }
    Ok(())
}

// The literal is false by the clause of its line, which has the number 5. So the last clause gives -2, and the third one is false.
#[test]
fn both_literals_fail(rt: HostRuntime) -> Result<(), Fail> {
    let alloc = rt.alloc();
    let proofs = [
        (PLAIN, b"-1 0\n0\n".as_slice()),
        (ProofFormat::Lrat, b"5 -1 0 2 1 0\n6 0 5 4 3 0\n".as_slice()),
    ];
    for (format, proof) in proofs {
        assert!(rt;
            comes_to(
                alloc,
                four_clauses(alloc)?,
                format,
                Ok(Probed::Empty),
                proof
            )?
        );
    }
    Ok(())
}

#[test]
fn a_line_fails(rt: HostRuntime) -> Result<(), Fail> {
    let alloc = rt.alloc();
    let fault = Err(PortStop::ProofFault);
    assert!(rt; comes_to_failing(alloc, two_clauses(alloc)?, fault, 1)?);
    assert!(rt; comes_to_failing(alloc, four_clauses(alloc)?, fault, 2)?);
    Ok(())
}
