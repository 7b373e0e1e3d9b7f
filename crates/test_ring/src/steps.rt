// One conflict and one row of units, step by step: the trail, the watches and the analysis, over the port in memory.
ghost use Rattle.std.specs.Prelude.{All, IsSome};
ghost use Rattle.sat_words.specs.declared.shared.Cref.{Cref};
ghost use Rattle.ring_port.specs.PortState.{held_at};

use crate::beginning::open_counted;
use crate::stepping::{Stepping, quiet_start};
use analyze::{Analysis, Conclusion};
use ring_port::Port;
use sat_words::{Cref, Lit};
use std::alloc::Global;
use std::test::Fail;
use test_formulas::Problem;
use watch_prop::Propagated;

/// What was seen on the way.
#[derive(Drop)]
struct Walked {
    /// The value of 2 if 1 was decided.
    two: Option<bool>,
    /// What the conflict taught.
    conclusion: Conclusion,
    /// It has the lemma's literals.
    analysis: Analysis,
}

/// 1 forces 2, and where 1 and 4 are true the last two clauses oppose each other. A clause has
/// its literals in the order of their variables, however they are given.
pub(crate) fn row_clauses(alloc: Global) -> Result<Problem, Fail> {
    let one = Lit::new(1, true);
    let four = Lit::new(4, true);
    let two = Lit::new(2, false);
    let five = Lit::new(5, false);
    let problem = Problem::new(alloc, 5);
    let problem = problem.with(alloc, &[one, two])?;
    let problem = problem.with(alloc, &[four, one, five])?;
    problem.with(alloc, &[four, two.not(), five.not()])
}

/// Decides 1 and then 4, and analyses the conflict that comes.
fn walk<P: Port>(alloc: Global, port: &mut P, clauses: &[Cref]) -> Result<Walked, Fail>
    requires { All (λ (c : Cref). IsSome (held_at (P.state port.old) c.address)) clauses.now }
{
    let mut stepping = quiet_start(alloc, port, clauses)?;
    let Propagated::Quiet = stepping.decide(port, Lit::new(1, false))? else {
        return Err(Fail::from("a conflict after one decision"));
    };
    let two = stepping.value(2);
    let Propagated::Conflict(conflict) = stepping.decide(port, Lit::new(4, false))? else {
        return Err(Fail::from("no conflict"));
    };
    let (conclusion, analysis) = stepping.conclude(alloc, port, conflict)?;
    Ok(Walked {
        two,
        conclusion,
        analysis,
    })
}

// 1 forces 2. 4 forces 5 by one of the last two clauses and its negation by the other. The walk back from the conflict
// leaves -4, -1 and -2, of which the first clause lets -2 go. The lemma goes back to level 1, and has one level beside its
// own.
#[test]
fn learns_a_minimised_lemma(rt: HostRuntime) -> Result<(), Fail> {
    let alloc = rt.alloc();
    let (mut port, clauses) = open_counted(alloc, row_clauses(alloc)?)?;
    let walked = walk(alloc, &mut port, clauses.as_slice())?;
    let lits = [Lit::new(4, true), Lit::new(1, true)];
    assert!(rt; walked.two == Some(true));
    assert!(rt; walked.conclusion == Conclusion::Lemma { back: 1, glue: 1 });
    assert!(rt; walked.analysis.lits() == lits.as_slice());
    Ok(())
}

/// Each of 1, 2 and 3 forces the next, and the last clause is true if 4 is.
fn ladder_clauses(alloc: Global) -> Result<Problem, Fail> {
    let two = Lit::new(2, false);
    let three = Lit::new(3, false);
    let four = Lit::new(4, false);
    let problem = Problem::new(alloc, 6);
    let problem = problem.with(alloc, &[Lit::new(1, true), two])?;
    let problem = problem.with(alloc, &[two.not(), three])?;
    let problem = problem.with(alloc, &[three.not(), four])?;
    problem.with(alloc, &[four, Lit::new(5, true), Lit::new(6, false)])
}

/// What was seen if 1 and then 5 were decided.
#[derive(Drop)]
struct Climbed {
    /// How often a clause was read by then, except for what was read before.
    loads: u64,
    /// What is true.
    stepping: Stepping,
}

/// Decides 1 and then 5 over a port in memory.
fn climb(alloc: Global, problem: Problem) -> Result<Climbed, Fail> {
    let (mut port, clauses) = open_counted(alloc, problem)?;
    let mut stepping = quiet_start(alloc, &mut port, clauses.as_slice())?;
    let before = port.loads();
    let Propagated::Quiet = stepping.decide(&mut port, Lit::new(1, false))? else {
        return Err(Fail::from("a conflict after one decision"));
    };
    let Propagated::Quiet = stepping.decide(&mut port, Lit::new(5, false))? else {
        return Err(Fail::from("a conflict after two decisions"));
    };
    Ok(Climbed {
        loads: port.loads().saturating_sub(before),
        stepping,
    })
}

// 1 forces 2, this 3 and this 4, each by a clause of two literals. Where 5 is decided the last clause has another literal
// that is true, which stands beside its watch. So no clause is read.
#[test]
fn propagates_without_a_load(rt: HostRuntime) -> Result<(), Fail> {
    let Climbed { loads, stepping } = climb(rt.alloc(), ladder_clauses(rt.alloc())?)?;
    let forced = [stepping.value(2), stepping.value(3), stepping.value(4)];
    assert!(rt; forced == [Some(true), Some(true), Some(true)]);
    assert!(rt; stepping.value(6).is_none());
    assert!(rt; loads == 0);
    Ok(())
}
