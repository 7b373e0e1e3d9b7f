// The run of a simplifier by equivalent literals.
//
// A clause of two literals says that the negation of each implies the other. Literals that imply each other, the ones of a
// strongly connected component, are equal in each model; one stands for all. The new clauses follow from the clauses at
// entry, of which the ways between literals are made, so that all are added before the first is deleted.
ghost use Rattle.std.specs.Prelude.{◌≡◌, [], false};
ghost use Rattle.sat_words.specs.Literal.{IsOn, opposite};
ghost use Rattle.simp_base.specs.WorkState.{IsWork, lists, has_unit};
ghost use Rattle.simp_base.specs.Log.{KeepsLog};
ghost use Rattle.simp_equiv.specs.Graphs.{Connected};
ghost use Rattle.simp_equiv.specs.Implications.{Implied, IsConsistent};
ghost use Rattle.simp_equiv.specs.Tables.{IsTable};
ghost use Rattle.simp_equiv.specs.Ends.{Ends, EndsDone, EndsRefuted};

use crate::additions::{add_all, numbers_of};
use crate::deletions::remove_all;
use crate::entries::push_all;
use crate::table::{clash, representatives};
use drat_text::{LineOut, LineStop};
use sat_words::Lit;
use simp_base::{Run, Work};

/// Adds the unit of the literal's negation, and then the empty clause.
fn refute<L: LineOut>(work: &mut Work<L>, lit: Lit) -> Result<Run, LineStop>
    requires unspent { work.old.output.spent ≡ false }
    requires going { work.old.ended ≡ false }
    requires clash { Connected (Implied work.old) lit (opposite lit) }
    requires on { IsOn work.old.vars lit }
    ensures ends { EndsRefuted work.old work.new result }
    ensures log { KeepsLog work.old work.new }
    ensures work { IsWork work.new }
{
    work.unit(lit.not())?;
    work.add_rup(&[])?;
    Ok(Run::Refuted)
}

/// Replaces literals by those that stand for them: the new clauses are added, then the old ones are deleted, and the
/// stack takes the entries of the variables.
fn substitute<L: LineOut>(work: &mut Work<L>, table: &[usize]) -> Result<Run, LineStop>
    requires unspent { work.old.output.spent ≡ false }
    requires going { work.old.ended ≡ false }
    requires work { IsWork work.old }
    requires table { IsTable (has_unit work.old) (lists work.old.clauses) work.old.vars table.now }
    requires consistent { IsConsistent (Implied work.old) }
    ensures ends { EndsDone work.old work.new result }
    ensures log { KeepsLog work.old work.new }
    ensures work { IsWork work.new }
{
    let Ok(numbers) = numbers_of(work, table) else {
        return Err(LineStop::Memory);
    };
    add_all(work, table, numbers.as_slice())?;
    remove_all(work, table, numbers.as_slice())?;
    push_all(work, table)?;
    Ok(Run::Done)
}

/// Replaces each literal by the one of the least variable in its strongly connected component of the binary implication
/// graph, in all clauses of two literals or more but tautologies. Clauses with a variable that has a unit give no
/// implication. What is left as a single literal is listed as a unit.
///
/// If a component has a literal and its negation, the empty clause is added and the log is ended. After an error the
/// work serves only to give the line output back.
pub fn run<L: LineOut>(work: &mut Work<L>) -> Result<Run, LineStop>
    requires unspent { work.old.output.spent ≡ false }
    requires going { work.old.ended ≡ false }
    ensures ends { Ends work.old work.new result }
    ensures log { KeepsLog work.old work.new }
    ensures work { IsWork work.new }
{
    let _clauses = work.clauses();
    let Ok(table) = representatives(work) else {
        return Err(LineStop::Memory);
    };
    match clash(work, table.as_slice()) {
        Some(lit) => refute(work, lit),
        None => substitute(work, table.as_slice()),
    }
}
