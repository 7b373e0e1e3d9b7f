//! The simplifiers, each of which keeps one contract.
ghost use Rattle.std.specs.Prelude.{◌≡◌, false};
ghost use Rattle.simp_base.specs.Log.{KeepsLog};
ghost use Rattle.simp_base.specs.WorkState.{IsWork};
ghost use Rattle.test_simplifiers.specs.Simplifiers.{EndsAs};

use drat_text::{LineOut, LineStop};
use simp_base::{Run, Work};

/// A simplifier of formulas.
#[derive(Clone, Copy)]
pub enum Simplifier {
    /// Units are propagated.
    Units,
    /// Clauses that others subsume go, and others become shorter.
    Subsumption,
    /// Of equivalent literals one stands for all.
    Equivalence,
    /// Variables are resolved away.
    Elimination,
}

/// Runs a simplifier on the work.
pub fn run<L: LineOut>(simplifier: Simplifier, work: &mut Work<L>) -> Result<Run, LineStop>
    requires unspent { work.old.output.spent ≡ false }
    requires going { work.old.ended ≡ false }
    ensures ends { EndsAs simplifier work.old work.new result }
    ensures log { KeepsLog work.old work.new }
    ensures work { IsWork work.new }
{
    match simplifier {
        Simplifier::Units => simp_units::run(work),
        Simplifier::Subsumption => simp_subsume::run(work),
        Simplifier::Equivalence => simp_equiv::run(work),
        Simplifier::Elimination => simp_elim::run(work),
    }
}
