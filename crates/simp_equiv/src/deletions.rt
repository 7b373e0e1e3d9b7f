// The clauses that were replaced, which are deleted.
ghost use Rattle.std.specs.Prelude.{◌≡◌, false};
ghost use Rattle.simp_base.specs.WorkState.{IsWork};
ghost use Rattle.simp_equiv.specs.Tables.{stand_in, HasPlaces};
ghost use Rattle.simp_equiv.specs.Rewritten.{IsReplacedAt, WasRemoved, WereRemoved};

use crate::stand_in::is_replaced;
use drat_text::{LineOut, LineStop};
use simp_base::Work;

/// Whether the clause with this number is alive and to be replaced.
fn is_replaced_at<L: LineOut>(work: &Work<L>, table: &[usize], number: u64) -> bool
    requires { HasPlaces work.now.vars table.now }
    ensures { IsReplacedAt work.now (stand_in table.now) number result }
{
    match work.clause(number) {
        Some(clause) => is_replaced(table, clause),
        None => false,
    }
}

/// Deletes the clause with this number, if it is to be replaced.
fn remove_at<L: LineOut>(work: &mut Work<L>, table: &[usize], number: u64) -> Result<(), LineStop>
    requires unspent { work.old.output.spent ≡ false }
    requires going { work.old.ended ≡ false }
    requires work { IsWork work.old }
    requires places { HasPlaces work.old.vars table.now }
    ensures removed { WasRemoved work.old work.new (stand_in table.now) number result }
    ensures work { IsWork work.new }
{
    if is_replaced_at(work, table, number) {
        work.delete(number)
    } else {
        Ok(())
    }
}

/// Deletes those of the clauses with these numbers that are to be replaced.
pub(crate) fn remove_all<L: LineOut>(
    work: &mut Work<L>,
    table: &[usize],
    numbers: &[u64],
) -> Result<(), LineStop>
    requires unspent { work.old.output.spent ≡ false }
    requires going { work.old.ended ≡ false }
    requires work { IsWork work.old }
    requires places { HasPlaces work.old.vars table.now }
    ensures removed { WereRemoved work.old work.new (stand_in table.now) numbers.now result }
    ensures work { IsWork work.new }
{
    for number in numbers {
        match remove_at(work, table, *number) {
            Ok(()) => {}
            Err(stop) => return Err(stop),
        }
    }
    Ok(())
}
