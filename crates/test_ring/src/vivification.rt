// `vivify`: clauses made shorter over the port in memory.
ghost use Rattle.std.specs.Prelude.{◌≡◌, [], true, All, IsSome};
ghost use Rattle.sat_words.specs.declared.shared.Cref.{Cref};
ghost use Rattle.ring_port.specs.PortState.{held_at};
ghost use Rattle.ring_port.specs.Port.{is_usable};

use crate::beginning::open_problem;
use crate::stepping::quiet_start;
use crate::vivifying::{two_starts, vivify_copy};
use analyze::Analysis;
use drat_text::SinkLines;
use io_edge::MemSink;
use ring_port::{PlainPort, Port};
use sat_words::{Cref, Lit, ProofFormat};
use std::alloc::Global;
use std::test::Fail;
use test_formulas::Problem;
use vivify::{Vivified, vivify};

#[test]
fn a_copy_is_made_shorter(rt: HostRuntime) -> Result<(), Fail> {
    let alloc = rt.alloc();
    let Ok(lines) = SinkLines::new(alloc, 2, MemSink::new(alloc, 64, &[])?) else {
        return Err("no memory".into());
    };
    let starts = two_starts(alloc)?;
    let Ok(mut port) = PlainPort::new(alloc, 3, starts, Vec::new(alloc), lines, 0) else {
        return Err("no memory".into());
    };
    let Vivified::Shorter(_) = vivify_copy(alloc, &mut port)? else {
        return Err("not shorter".into());
    };
    assert!(rt; port.tidy() == Ok(()));
    let (end, sink) = port.into_lines().finish();
    assert!(rt; end == Ok(()));
    assert!(rt; sink.bytes() == b"1 2 3 0\n1 2 0\nd 1 2 3 0\n".as_slice());
    Ok(())
}

/// Vivifies the last of the clauses that a port starts with, if they force nothing.
fn vivify_last<P: Port>(alloc: Global, port: &mut P, clauses: &[Cref]) -> Result<Vivified, Fail>
    requires held { All (λ (c : Cref). IsSome (held_at (P.state port.old) c.address)) clauses.now }
    requires usable { is_usable (P.state port.old).refused ≡ true }
    requires none_taken { (P.state port.old).taken ≡ [] }
{
    let mut stepping = quiet_start(alloc, port, clauses)?;
    if !stepping.trail.is_empty() {
        return Err(Fail::from("a literal is forced"));
    }
    let _vars = port.vars();
    let Some(last) = clauses.len().checked_sub(1) else {
        return Err(Fail::from("no clause"));
    };
    let mut analysis = Analysis::new(alloc, stepping.trail.vars())?;
    let left = vivify(
        alloc,
        port,
        &mut stepping.watches,
        &mut stepping.trail,
        &mut analysis,
        clauses[last],
    );
    match left {
        Ok(left) => Ok(left),
        Err(_) => Err(Fail::from("a refusal")),
    }
}

/// Whether the last of these clauses on 1 to 4, `1 2 3`, is vivified by this line in LRAT.
fn is_vivified_by(alloc: Global, others: &[[Lit; 2]], line: &[u8]) -> Result<bool, Fail> {
    let mut problem = Problem::new(alloc, 4);
    for clause in others {
        problem = problem.with(alloc, clause)?;
    }
    let lits = [Lit::new(1, false), Lit::new(2, false), Lit::new(3, false)];
    let problem = problem.with(alloc, &lits)?;
    let clauses = problem.formula.clauses().len() as u64;
    let sink = MemSink::new(alloc, 64, &[])?;
    let Ok(lines) = SinkLines::with_format(alloc, ProofFormat::Lrat, clauses, sink) else {
        return Err(Fail::from("no memory for the lines"));
    };
    let mut port = open_problem(alloc, problem, 0, lines)?;
    let start = port.start(alloc)?;
    vivify_last(alloc, &mut port, start.as_slice())?;
    let (end, sink) = port.into_lines().finish();
    Ok(end.is_ok() && sink.bytes() == line)
}

// 1 is taken to be false, and then 2, until a clause is false, or a literal is true, or all are taken.
#[test]
fn shorter_clauses_have_hints(rt: HostRuntime) -> Result<(), Fail> {
    let alloc = rt.alloc();
    let one = Lit::new(1, false);
    let four = Lit::new(4, false);
    // what was attached last is looked at first: the second clause gives -4, and the first one is false, so that 1 is left
    let conflict = [[one, four], [one, four.not()]];
    assert!(rt; is_vivified_by(alloc, &conflict, b"4 1 0 2 1 0\n")?);
    // the first clause gives 2, of which no hint is needed: it is false if 1 and 2 are
    let true_already = [[one, Lit::new(2, false)]];
    assert!(rt; is_vivified_by(alloc, &true_already, b"3 1 2 0 1 0\n")?);
    // the first clause gives -3, so that the clause itself is false
    let all_taken = [[one, Lit::new(3, true)]];
    assert!(rt; is_vivified_by(alloc, &all_taken, b"3 1 2 0 1 2 0\n")?);
    Ok(())
}
