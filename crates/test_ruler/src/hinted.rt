// The lines in LRAT that the ruler writes of small random formulas, followed one by one: each addition has the next number and hints
// that show that its clause follows from those alive, and each deletion names a clause that is alive.
use crate::draw_formula;
use crate::tallied::Tallied;
use ruler_simp::{Outcome, Schedule, Simplified, simplify};
use sat_words::{Clause, ProofFormat};
use simp_base::{LineStop, takes_part};
use std::alloc::Global;
use std::test::Fail;
use test_hints::Follower;
use test_simplifiers::{is_on, written_lines};

/// How many formulas are tried.
const TRIALS: u64 = 20;

/// How each is simplified.
const SCHEDULE: Schedule = Schedule {
    rounds: 3,
    additions: false,
};

/// Whether the clause is alive under its number.
fn has(follower: &Follower, cell: &(u64, Clause)) -> bool {
    match follower.clause(cell.0) {
        Some(clause) => clause.lits() == cell.1.lits(),
        None => false,
    }
}

/// Whether this is left: all clauses alive that take part in what is simplified.
fn has_just(follower: &Follower, left: &Simplified) -> bool {
    let alive = follower.clauses().iter().flatten();
    let parts = alive.filter(|clause| takes_part(clause)).count();
    parts == left.start.len() && left.start.iter().all(|cell| has(follower, cell))
}

/// Whether the lines lead to this answer.
fn lead_to(follower: &Follower, answer: &Result<Outcome, LineStop>) -> bool {
    match answer {
        Ok(Outcome::Simplified(left)) => !follower.is_refuted() && has_just(follower, left),
        Ok(Outcome::Refuted) => follower.is_refuted(),
        Err(_) => false,
    }
}

/// Simplifies the formula with this number: whether its lines can be followed, none is missing, and they lead to the answer.
fn is_followed(alloc: Global, number: u64) -> Result<bool, Fail> {
    let formula = draw_formula(alloc, number)?;
    if !is_on(&formula) {
        return Ok(false);
    }
    let lines = Tallied::new(
        written_lines(alloc, ProofFormat::Lrat, &formula, 4096)?,
        formula.clauses().len() as u64,
    );
    let (answer, lines) = simplify(alloc, &formula, SCHEDULE, lines);
    let told = lines.end();
    let (end, sink) = lines.into_lines().finish();
    let mut follower = Follower::new(alloc, &formula)?;
    Ok(
        end.is_ok()
            && follower.follow_all(sink.bytes())?
            && follower.lines() == told.entries
            && follower.last() == told.last
            && lead_to(&follower, &answer),
    )
}

#[test]
fn each_line_can_be_followed(rt: HostRuntime) -> Result<(), Fail> {
    for number in 0..TRIALS {
        assert!(rt; is_followed(rt.alloc(), number)?, "{number}");
    }
    Ok(())
}
