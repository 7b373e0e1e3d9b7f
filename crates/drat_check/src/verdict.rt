ghost use Rattle.std.specs.Prelude.{◌↔◌, IsTrue, IfOk};
ghost use Rattle.drat_check.specs.Verdict.{IsVerdict, EndsEmpty};

use crate::lines::{apply, copies_of, is_valid};
use sat_words::{Formula, Line};
use std::alloc::{AllocError, Global};

/// What a log of lines is over a formula.
#[derive(Clone, Copy, PartialEq, Eq, Debug)]
pub enum Verdict {
    /// Each line is valid where it stands. `empty` says that the last one adds the empty clause, so that the log refutes
    /// the formula.
    Accepted { empty: bool },
    /// The number, from 1, of the first line that is not valid where it stands.
    Refused { line: u64 },
}

/// Checks the lines in their order: an addition has to be RUP, or RAT on its first literal, over the clauses that are alive
/// before it; a deletion has to name a clause that is alive and is no unit.
pub fn check(alloc: Global, formula: &Formula, lines: &[Line]) -> Result<Verdict, AllocError>
    ensures { IfOk result (IsVerdict formula.now.clauses lines.now) }
{
    let mut alive = copies_of(alloc, formula.clauses())?;
    for i in 0..lines.len() {
        if !is_valid(alloc, alive.as_slice(), &lines[i])? {
            return Ok(Verdict::Refused { line: i as u64 + 1 });
        }
        apply(alloc, &mut alive, &lines[i])?;
    }
    Ok(Verdict::Accepted {
        empty: ends_empty(lines),
    })
}

/// Whether the last line adds the empty clause.
fn ends_empty(lines: &[Line]) -> bool
    ensures { IsTrue result ↔ EndsEmpty lines.now }
{
    if lines.is_empty() {
        return false;
    }
    match &lines[lines.len() - 1] {
        Line::Add(lits) => lits.as_slice().is_empty(),
        Line::Del(_) => false,
    }
}
