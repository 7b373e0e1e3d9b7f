// The calls: a formula is simplified in rounds, or what is alive after the lines of a search, and what is left then is taken apart
// for the search.
ghost use Rattle.std.specs.Prelude.{◌≡◌, true, false, length, All};
ghost use Rattle.sat_words.specs.Formats.{has_hints};
ghost use Rattle.sat_words.specs.Literal.{IsOn};
ghost use Rattle.simp_base.specs.WorkState.{resumed};
ghost use Rattle.simp_base.specs.Resumed.{CanResume};
ghost use Rattle.ruler_simp.specs.Left.{IsLeft, IsTaken};
ghost use Rattle.ruler_simp.specs.Ruled.{Ruled};
ghost use Rattle.ruler_simp.specs.Again.{RuledAgain};

use crate::rounds::{Schedule, run};
use crate::starts::starts_of;
use drat_text::{LineOut, LineStop};
use model_stack::Stack;
use sat_words::{Clause, Formula, Lit};
use simp_base::{LogEnd, Parts, Run, Work};
use std::alloc::Global;

/// What is left of a formula.
#[derive(Drop)]
pub struct Simplified {
    /// The number of variables: the formula's, and after them those that were added.
    pub vars: u32,
    /// The clauses of two literals or more that are alive, except for tautologies: each with its number in the log, in order of
    /// number.
    pub start: Vec<(u64, Clause)>,
    /// The units, each once, in the order in which they came, each with the number of its clause.
    pub units: Vec<(Lit, u64)>,
    /// What a model of these has to be mended for, to be one of the formula.
    pub stack: Stack,
}

/// What simplifying came to.
#[derive(Drop)]
pub enum Outcome {
    /// This is left.
    Simplified(Simplified),
    /// The formula has no model: the empty clause was added, and the log refutes it.
    Refuted,
}

/// Takes apart a work that was simplified.
fn leave<L: LineOut>(work: Work<L>) -> (Simplified, L)
    ensures left { IsLeft work result.0 }
    ensures output { L.told result.1 ≡ work.output }
{
    let vars = work.vars();
    let Parts {
        clauses,
        units,
        stack,
        output,
    } = work.into_parts();
    let start = starts_of(clauses);
    let simplified = Simplified {
        vars,
        start,
        units,
        stack,
    };
    (simplified, output)
}

/// Takes a work apart, by how its simplifying ended.
fn take<L: LineOut>(answer: Result<Run, LineStop>, work: Work<L>) -> (Result<Outcome, LineStop>, L)
    ensures taken { IsTaken answer work result.0 }
    ensures output { L.told result.1 ≡ work.output }
{
    match answer {
        Ok(Run::Done) => {
            let (simplified, output) = leave(work);
            (Ok(Outcome::Simplified(simplified)), output)
        }
        Ok(Run::Refuted) => (Ok(Outcome::Refuted), work.into_parts().output),
        Err(stop) => (Err(stop), work.into_parts().output),
    }
}

/// Simplifies a formula in the rounds of a schedule: each propagates units, deletes clauses that contain others or makes them
/// shorter, replaces equivalent literals, eliminates variables, replaces clauses by fewer ones over variables that it adds, if
/// the schedule has additions, and propagates units again. A round that writes no line is the last. In no round units alone
/// are propagated.
///
/// The lines go to the output, which has none yet and comes back with each answer. After a fault it takes no more lines;
/// after any error nothing else is left.
pub fn simplify<L: LineOut>(
    alloc: Global,
    formula: &Formula,
    schedule: Schedule,
    output: L,
) -> (Result<Outcome, LineStop>, L)
    requires unspent { (L.told output).spent ≡ false }
    requires plain { schedule.additions ≡ true → has_hints (L.told output).format ≡ false }
    requires blank { (L.told output).entries ≡ 0 }
    requires last { (L.told output).last ≡ length formula.now.clauses }
    requires on { All (All (IsOn formula.now.vars)) formula.now.clauses }
    ensures { Ruled formula.now schedule (L.told output) (L.told result.1) result.0 }
{
    let mut work = match Work::new(alloc, formula, output) {
        Ok(work) => work,
        Err(refused) => return (Err(LineStop::Memory), refused.value),
    };
    let answer = run(&mut work, schedule);
    take(answer, work)
}

/// Simplifies what is left of a formula once more: `clauses`, under their numbers, are those of two literals or more and without
/// opposites that are alive after a journal, whoever added them, and with them the clauses of the units; `units` are all that are in
/// the formula or were added, each once, with the number of its clause. `with_units` puts these clauses together. The rounds are
/// those of `simplify`.
///
/// The lines go to the output, after those of the journal, and the entries of the stack after those that it has, so that it mends a
/// model of what is left to one of the formula. The output comes back with each answer. After a fault it takes no more lines; after
/// any error nothing else is left.
pub fn again<L: LineOut>(
    alloc: Global,
    formula: &Formula,
    vars: u32,
    clauses: Vec<(u64, Clause)>,
    units: Vec<(Lit, u64)>,
    schedule: Schedule,
    stack: Stack,
    end: LogEnd,
    output: L,
) -> (Result<Outcome, LineStop>, L)
    requires unspent { (L.told output).spent ≡ false }
    requires plain { schedule.additions ≡ true → has_hints (L.told output).format ≡ false }
    requires resumes { CanResume formula.now.clauses vars clauses.items units.items stack (L.told output) }
    requires entries { end.entries ≡ (L.told output).entries }
    requires last { end.last ≡ (L.told output).last }
    ensures { RuledAgain formula.now.clauses schedule (resumed vars clauses.items units.items stack (L.told output)) (L.told result.1) result.0 }
{
    match Work::again(alloc, formula, vars, clauses, units, stack, end, output) {
        Ok(made) => {
            let mut work = made;
            let answer = run(&mut work, schedule);
            take(answer, work)
        }
        Err(refused) => (Err(LineStop::Memory), refused.value),
    }
}
