// The clauses with the variable, which are deleted.
ghost use Rattle.std.specs.Prelude.{◌≡◌, false, ◌∷◌, []};
ghost use Rattle.simp_base.specs.WorkState.{IsWork};
ghost use Rattle.simp_elim.specs.Stages.{AreLong, WasRemoved};

use drat_text::{LineOut, LineStop};
use simp_base::Work;

/// Deletes the clause with this number, if it is alive.
fn remove_at<L: LineOut>(work: &mut Work<L>, number: u64) -> Result<(), LineStop>
    requires unspent { work.old.output.spent ≡ false }
    requires going { work.old.ended ≡ false }
    requires work { IsWork work.old }
    requires long { AreLong work.old (number ∷ []) }
    ensures removed { WasRemoved work.old work.new (number ∷ []) result }
    ensures work { IsWork work.new }
{
    match work.clause(number) {
        Some(_) => work.delete(number),
        None => Ok(()),
    }
}

/// Deletes those of the clauses with these numbers that are alive.
pub(crate) fn remove_all<L: LineOut>(work: &mut Work<L>, numbers: &[u64]) -> Result<(), LineStop>
    requires unspent { work.old.output.spent ≡ false }
    requires going { work.old.ended ≡ false }
    requires work { IsWork work.old }
    requires long { AreLong work.old numbers.now }
    ensures removed { WasRemoved work.old work.new numbers.now result }
    ensures work { IsWork work.new }
{
    for number in numbers {
        match remove_at(work, *number) {
            Ok(()) => {}
            Err(stop) => return Err(stop),
        }
    }
    Ok(())
}
