// The order in which the simplifiers run.
//
// What one of them leaves may give another one work: a unit shortens clauses, a shorter clause may be one of two literals,
// and what replaces a clause may be contained in another one. So they run in rounds. A round that writes no line has
// changed no clause, so that the next one would not either.
ghost use Rattle.std.specs.Prelude.{◌≡◌, true, false, Contains};
ghost use Rattle.std.specs.List.{list_any};
ghost use Rattle.sat_words.specs.Formats.{has_hints};
ghost use Rattle.simp_base.specs.WorkState.{IsWork};
ghost use Rattle.ruler_simp.specs.Passes.{WereRun, adds_variables, round_passes};
ghost use Rattle.ruler_simp.specs.Rounds.{WereRounds, WasSimplified};

use crate::passes::Simplifier;
use drat_text::{LineOut, LineStop};
use simp_base::{Run, Work};

/// How a formula is simplified.
#[derive(Clone, Copy, PartialEq, Eq, Debug)]
pub struct Schedule {
    /// How many rounds the simplifiers may get; in none, units alone are propagated.
    pub rounds: u32,
    /// Whether variables are added in each round. A proof with hints has none.
    pub additions: bool,
}

/// Runs the simplifiers one after another, until one is not done.
fn run_all<L: LineOut>(work: &mut Work<L>, passes: &[Simplifier]) -> Result<Run, LineStop>
    requires unspent { work.old.output.spent ≡ false }
    requires going { work.old.ended ≡ false }
    requires plain { list_any adds_variables passes.now ≡ true → has_hints work.old.output.format ≡ false }
    requires work { IsWork work.old }
    ensures ran { WereRun passes.now work.old work.new result }
    ensures work { IsWork work.new }
{
    for pass in passes {
        match pass.run(work) {
            Ok(Run::Done) => {}
            Ok(Run::Refuted) => return Ok(Run::Refuted),
            Err(stop) => return Err(stop),
        }
    }
    Ok(Run::Done)
}

/// One round, with additions or without. The units come first, since they make the other simplifiers' work less, and last,
/// since these leave some. Additions come after elimination, which would take their variables out again.
fn run_round<L: LineOut>(work: &mut Work<L>, additions: bool) -> Result<Run, LineStop>
    requires unspent { work.old.output.spent ≡ false }
    requires going { work.old.ended ≡ false }
    requires plain { additions ≡ true → has_hints work.old.output.format ≡ false }
    requires work { IsWork work.old }
    ensures ran { WereRun (round_passes additions) work.old work.new result }
    ensures work { IsWork work.new }
{
    if additions {
        run_all(
            work,
            &[
                Simplifier::Units,
                Simplifier::Subsumption,
                Simplifier::Equivalence,
                Simplifier::Elimination,
                Simplifier::Addition,
                Simplifier::Units,
            ],
        )
    } else {
        run_all(
            work,
            &[
                Simplifier::Units,
                Simplifier::Subsumption,
                Simplifier::Equivalence,
                Simplifier::Elimination,
                Simplifier::Units,
            ],
        )
    }
}

/// Rounds, as many as the schedule has, or fewer if one writes no line.
fn run_rounds<L: LineOut>(work: &mut Work<L>, schedule: Schedule) -> Result<Run, LineStop>
    requires unspent { work.old.output.spent ≡ false }
    requires going { work.old.ended ≡ false }
    requires plain { schedule.additions ≡ true → has_hints work.old.output.format ≡ false }
    requires work { IsWork work.old }
    ensures ran { WereRounds schedule.additions schedule.rounds work.old work.new result }
    ensures work { IsWork work.new }
{
    for done in 0..schedule.rounds {
        // The invariant goes by the rounds that are done.
        let _ = done;
        let before = work.line_count();
        match run_round(work, schedule.additions) {
            Ok(Run::Done) => {}
            Ok(Run::Refuted) => return Ok(Run::Refuted),
            Err(stop) => return Err(stop),
        }
        if work.line_count() == before {
            return Ok(Run::Done);
        }
    }
    Ok(Run::Done)
}

/// Simplifies the work in the rounds of the schedule; in none, units alone are propagated.
pub(crate) fn run<L: LineOut>(work: &mut Work<L>, schedule: Schedule) -> Result<Run, LineStop>
    requires unspent { work.old.output.spent ≡ false }
    requires going { work.old.ended ≡ false }
    requires plain { schedule.additions ≡ true → has_hints work.old.output.format ≡ false }
    requires work { IsWork work.old }
    ensures ran { WasSimplified schedule work.old work.new result }
    ensures work { IsWork work.new }
{
    if schedule.rounds == 0 {
        run_all(work, &[Simplifier::Units])
    } else {
        run_rounds(work, schedule)
    }
}
