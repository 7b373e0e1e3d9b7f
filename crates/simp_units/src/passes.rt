// The run of a simplifier by units: they are propagated, and then clauses are cleaned.
ghost use Rattle.std.specs.Prelude.{◌≡◌, ◌+◌, [], true, false, None, replicate};
ghost use Rattle.rup_model.specs.Rup.{rup};
ghost use Rattle.simp_base.specs.WorkState.{IsWork, known};
ghost use Rattle.simp_base.specs.Log.{KeepsLog};
ghost use Rattle.simp_units.specs.Ends.{Ends, EndsRefuted};
ghost use Rattle.simp_units.specs.Progress.{WasPropagated};

use crate::clean::clean;
use crate::propagate::{Propagation, propagate};
use crate::start::{load, numbers_of};
use drat_text::{LineOut, LineStop};
use sat_words::Values;
use simp_base::{Run, Work};

/// Propagates the units of the work, from values that are none.
fn begin<L: LineOut>(work: &mut Work<L>, values: &mut Values) -> Result<Propagation, LineStop>
    requires unspent { work.old.output.spent ≡ false }
    requires going { work.old.ended ≡ false }
    requires work { IsWork work.old }
    requires blank { values.old ≡ replicate (work.old.vars + 1) None }
    ensures begun { WasPropagated work.old work.new values.new result }
    ensures work { IsWork work.new }
{
    let numbers = numbers_of(work.alloc(), work)?;
    if !load(work.units(), values) {
        return Ok(Propagation::Conflict);
    }
    propagate(work, values, numbers.as_slice())
}

/// Adds the empty clause.
fn refute<L: LineOut>(work: &mut Work<L>) -> Result<Run, LineStop>
    requires unspent { work.old.output.spent ≡ false }
    requires going { work.old.ended ≡ false }
    requires empty { rup (known work.old) [] ≡ true }
    ensures ends { EndsRefuted work.old work.new result }
    ensures log { KeepsLog work.old work.new }
    ensures work { IsWork work.new }
{
    work.add_rup(&[])?;
    Ok(Run::Refuted)
}

/// Propagates the units of the work, until nothing more is forced; then deletes each clause with a true literal, and
/// replaces each clause with a false one by what is left of it. Tautologies are passed over.
///
/// If a clause is falsified, the empty clause is added and the log is ended. After an error the work serves only to
/// give the line output back.
pub fn run<L: LineOut>(work: &mut Work<L>) -> Result<Run, LineStop>
    requires unspent { work.old.output.spent ≡ false }
    requires going { work.old.ended ≡ false }
    ensures ends { Ends work.old work.new result }
    ensures log { KeepsLog work.old work.new }
    ensures work { IsWork work.new }
{
    let _clauses = work.clauses();
    let mut values = match Values::new(work.alloc(), work.vars()) {
        Ok(values) => values,
        Err(_) => return Err(LineStop::Memory),
    };
    match begin(work, &mut values) {
        Ok(Propagation::Conflict) => refute(work),
        Ok(Propagation::Quiet) => {
            clean(work, &values)?;
            Ok(Run::Done)
        }
        Err(stop) => Err(stop),
    }
}
