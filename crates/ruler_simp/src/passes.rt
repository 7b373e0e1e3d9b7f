// One simplifier of those that a round has.
ghost use Rattle.std.specs.Prelude.{◌≡◌, true, false};
ghost use Rattle.sat_words.specs.Formats.{has_hints};
ghost use Rattle.simp_base.specs.WorkState.{IsWork};
ghost use Rattle.simp_base.specs.Log.{GrowsLog};
ghost use Rattle.ruler_simp.specs.Passes.{Ends, adds_variables};

use drat_text::{LineOut, LineStop};
use simp_base::{Run, Work};

/// A simplifier that runs over the whole work.
#[derive(Clone, Copy, PartialEq, Eq, Debug)]
pub enum Simplifier {
    /// Units are propagated, and taken out of the clauses.
    Units,
    /// Clauses that contain others are deleted or made shorter.
    Subsumption,
    /// Equivalent literals are replaced by one of them.
    Equivalence,
    /// Variables are eliminated if this makes no more clauses.
    Elimination,
    /// Clauses are replaced by fewer ones over a variable that is added.
    Addition,
}

impl Simplifier {
    /// Runs the simplifier until nothing is left for it to do. What adds variables asks that the proof has no hints. After an error the work serves only to give the line output
    /// back.
    pub(crate) fn run<L: LineOut>(self, work: &mut Work<L>) -> Result<Run, LineStop>
        requires unspent { work.old.output.spent ≡ false }
        requires going { work.old.ended ≡ false }
        requires plain { adds_variables self ≡ true → has_hints work.old.output.format ≡ false }
        ensures ends { Ends self work.old work.new result }
        ensures log { GrowsLog work.old work.new }
        ensures vars { adds_variables self ≡ false → work.new.vars ≡ work.old.vars }
        ensures work { IsWork work.new }
    {
        match self {
            Simplifier::Units => simp_units::run(work),
            Simplifier::Subsumption => simp_subsume::run(work),
            Simplifier::Equivalence => simp_equiv::run(work),
            Simplifier::Elimination => simp_elim::run(work),
            Simplifier::Addition => simp_add::run(work),
        }
    }
}
