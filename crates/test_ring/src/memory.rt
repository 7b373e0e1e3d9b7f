// Calls that take no memory, each of them this many times. Behind the same beginning the allocator is asked for as much however often they
// come, which checks/memory counts.
ghost use Rattle.std.specs.Prelude.{◌≡◌, ◌≤◌, ◌<◌, ◌+◌, ◌^◌, [], All, IsSome};
ghost use Rattle.sat_words.specs.declared.shared.Cref.{Cref};
ghost use Rattle.ring_port.specs.PortState.{held_at, lits_at};
ghost use Rattle.watch_prop.specs.Propagation.{IsConflict};
ghost use Rattle.test_ring.specs.Stepping.{IsStepping};

use crate::beginning::{open_counted, open_over};
use crate::stepping::{Stepping, quiet_start};
use crate::steps::row_clauses;
use analyze::{Analysis, Conclusion};
use drat_text::SinkLines;
use io_edge::MemSink;
use restart_plan::{Restarts, luby};
use ring_port::{Port, Set, class_of};
use ring_trail::Trail;
use sat_words::{Cref, Lit, ProofFormat, STOP_SAT};
use std::alloc::Global;
use std::test::Fail;
use watch_prop::Propagated;

/// Reads the head of a clause that is held, and its first literal.
fn read_clause<P: Port>(port: &mut P, clause: Cref)
    requires { IsSome (held_at (P.state port.old) clause.address) }
    ensures { P.state port.new ≡ P.state port.old }
{
    if port.head(clause).size > 0 {
        port.read_lit(clause, 0);
    }
}

/// Reads each of the clauses.
fn read_clauses<P: Port>(port: &mut P, clauses: &[Cref])
    requires { All (λ (c : Cref). IsSome (held_at (P.state port.old) c.address)) clauses.now }
    ensures { P.state port.new ≡ P.state port.old }
{
    for clause in clauses {
        read_clause(port, *clause);
    }
}

/// Reads each of the clauses this often.
fn read_often<P: Port>(port: &mut P, clauses: &[Cref], rounds: u32)
    requires { All (λ (c : Cref). IsSome (held_at (P.state port.old) c.address)) clauses.now }
    ensures { P.state port.new ≡ P.state port.old }
{
    for _ in 0..rounds {
        read_clauses(port, clauses);
    }
}

/// Asks for units and for the stop, and sets the ring's own, this often. Tells how often another call had set it.
fn ask_often<P: Port>(port: &mut P, rounds: u32) -> u32 {
    let mut lost: u32 = 0;
    for _ in 0..rounds {
        let _unit = port.next_unit();
        let _stop = port.stopped();
        if let Set::Lost(_) = port.stop(STOP_SAT) {
            lost = lost.wrapping_add(1);
        }
    }
    lost
}

/// Analyses the conflict. Tells whether a lemma came of it.
fn analyse_once<P: Port>(
    port: &mut P,
    stepping: &Stepping,
    analysis: &mut Analysis,
    conflict: Cref,
) -> bool
    requires vars { stepping.now.trail.vars ≡ analysis.old.vars }
    requires stepping { IsStepping (P.state port.old) stepping.now.watches stepping.now.trail }
    requires conflict { IsConflict stepping.now.watches (lits_at (P.state port.old)) stepping.now.trail conflict }
    ensures same { P.state port.new ≡ P.state port.old }
    ensures vars { analysis.new.vars ≡ analysis.old.vars }
{
    match analysis.analyze(port, &stepping.trail, conflict) {
        Conclusion::Lemma { .. } => true,
        Conclusion::Empty => false,
    }
}

/// Analyses the conflict this often. Tells how often a lemma came of it.
fn analyse_often<P: Port>(
    port: &mut P,
    stepping: &Stepping,
    analysis: &mut Analysis,
    conflict: Cref,
    rounds: u32,
) -> u32
    requires vars { stepping.now.trail.vars ≡ analysis.old.vars }
    requires stepping { IsStepping (P.state port.old) stepping.now.watches stepping.now.trail }
    requires conflict { IsConflict stepping.now.watches (lits_at (P.state port.old)) stepping.now.trail conflict }
    ensures { P.state port.new ≡ P.state port.old }
{
    let mut lemmas: u32 = 0;
    for _ in 0..rounds {
        if analyse_once(port, stepping, analysis, conflict) {
            lemmas = lemmas.wrapping_add(1);
        }
    }
    lemmas
}

/// Makes a literal true and another one at its level, looks, and goes back. Tells whether both were true.
fn go_once(trail: &mut Trail) -> bool
    requires { trail.old ≡ record { vars = 2; level = 0; steps = []; done = 0 } }
    ensures { trail.new ≡ trail.old }
{
    trail.decide(Lit::new(1, false));
    trail.assign(Lit::new(2, true), Some(Cref { address: 1 }));
    let both = trail.value(1) == Some(true) && trail.level(2) == Some(1);
    trail.back_to(0);
    both
}

/// Goes this often. Tells how often both were true.
fn go_often(trail: &mut Trail, rounds: u32) -> u32
    requires { trail.old ≡ record { vars = 2; level = 0; steps = []; done = 0 } }
{
    let mut both: u32 = 0;
    for _ in 0..rounds {
        if go_once(trail) {
            both = both.wrapping_add(1);
        }
    }
    both
}

/// Notes lemmas of glue 2 and asks whether a restart is due, this often, and for numbers of Luby's sequence and the class of each lemma.
/// Tells how many had a class.
fn plan_often(restarts: &mut Restarts, rounds: u32) -> u32
    requires { restarts.old.count ≡ 0 }
{
    let mut classed: u32 = 0;
    for i in 0..rounds {
        restarts.note(2);
        let _due = restarts.due();
        if class_of(3, 2).is_some() && luby(i as u64 + 1) > 0 {
            classed = classed.wrapping_add(1);
        }
    }
    classed
}

/// Decides 1 and then 4, and analyses the conflict that comes this often. Tells how often a lemma came of it.
fn conflict_often<P: Port>(
    alloc: Global,
    port: &mut P,
    clauses: &[Cref],
    rounds: u32,
) -> Result<u32, Fail>
    requires { All (λ (c : Cref). IsSome (held_at (P.state port.old) c.address)) clauses.now }
{
    let mut stepping = quiet_start(alloc, port, clauses)?;
    let Propagated::Quiet = stepping.decide(port, Lit::new(1, false))? else {
        return Err(Fail::from("a conflict after one decision"));
    };
    let Propagated::Conflict(conflict) = stepping.decide(port, Lit::new(4, false))? else {
        return Err(Fail::from("no conflict"));
    };
    let mut analysis = Analysis::new(alloc, stepping.trail.vars())?;
    Ok(analyse_often(port, &stepping, &mut analysis, conflict, rounds))
}

/// The calls of a port, and the analysis over it. Tells how many lemmas came, how many reads and how many stops were lost.
fn port_often(alloc: Global, rounds: u32) -> Result<(u32, u64, u32), Fail> {
    let (mut port, clauses) = open_counted(alloc, row_clauses(alloc)?)?;
    let before = port.loads();
    read_often(&mut port, clauses.as_slice(), rounds);
    let reads = port.loads().wrapping_sub(before);
    let lemmas = conflict_often(alloc, &mut port, clauses.as_slice(), rounds)?;
    Ok((lemmas, reads, ask_often(&mut port, rounds)))
}

/// Asks for the number of the unit 3 this often, if the port knows any. Tells how often it has one.
fn number_often<P: Port>(port: &P, rounds: u32) -> u32 {
    let mut numbered: u32 = 0;
    for _ in 0..rounds {
        if port.has_hints() && port.unit_number(Lit::new(3, false)).is_some() {
            numbered = numbered.wrapping_add(1);
        }
    }
    numbered
}

/// The analysis over a port whose lines have hints, which the tracer finds, and the numbers of units. Tells how many lemmas came, and
/// how often the unit had a number.
fn hints_often(alloc: Global, rounds: u32) -> Result<(u32, u32), Fail> {
    let problem = row_clauses(alloc)?.with_unit(alloc, Lit::new(3, false))?;
    let sink = MemSink::new(alloc, 64, &[])?;
    let clauses = problem.formula.clauses().len() as u64;
    let Ok(lines) = SinkLines::with_format(alloc, ProofFormat::Lrat, clauses, sink) else {
        return Err(Fail::from("no memory for the lines"));
    };
    let (mut port, start) = open_over(alloc, problem, lines)?;
    let lemmas = conflict_often(alloc, &mut port, start.as_slice(), rounds)?;
    Ok((lemmas, number_often(&port, rounds)))
}

/// The calls of a trail.
fn trail_often(alloc: Global, rounds: u32) -> Result<u32, Fail> {
    let mut trail = Trail::new(alloc, 2)?;
    Ok(go_often(&mut trail, rounds))
}

/// The calls of restarts, and what tells classes.
fn restarts_often(alloc: Global, rounds: u32) -> Result<u32, Fail> {
    let mut restarts = Restarts::new(alloc, 1)?;
    Ok(plan_often(&mut restarts, rounds))
}

#[test]
fn calls_come_once(rt: HostRuntime) -> Result<(), Fail> {
    assert_eq!(rt; port_often(rt.alloc(), 1)?, (1, 6, 0));
    assert_eq!(rt; hints_often(rt.alloc(), 1)?, (1, 1));
    assert_eq!(rt; trail_often(rt.alloc(), 1)?, 1);
    assert_eq!(rt; restarts_often(rt.alloc(), 1)?, 1);
    Ok(())
}

#[test]
fn calls_come_a_thousand_times(rt: HostRuntime) -> Result<(), Fail> {
    assert_eq!(rt; port_often(rt.alloc(), 1000)?, (1000, 6000, 999));
    assert_eq!(rt; hints_often(rt.alloc(), 1000)?, (1000, 1000));
    assert_eq!(rt; trail_often(rt.alloc(), 1000)?, 1000);
    assert_eq!(rt; restarts_often(rt.alloc(), 1000)?, 1000);
    Ok(())
}
