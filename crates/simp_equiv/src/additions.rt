// The clauses with their literals replaced, which are added before any clause is deleted.
ghost use Rattle.std.specs.Prelude.{◌≡◌, true, false, All, IfOk, IfErr};
ghost use Rattle.sat_words.specs.Literal.{IsOn};
ghost use Rattle.sat_words.specs.Clause.{has_opposites, is_empty};
ghost use Rattle.rup_model.specs.Rup.{rup};
ghost use Rattle.simp_base.specs.WorkState.{IsWork, known};
ghost use Rattle.simp_equiv.specs.Tables.{stand_in, HasPlaces};
ghost use Rattle.simp_equiv.specs.Replacements.{to_replace};
ghost use Rattle.simp_equiv.specs.Rewritten.{AreInOrder, Leads, WasGrown, IsReplacement, WasAdded, WereAdded};

use crate::stand_in::{is_replaced, replace_all};
use drat_text::{LineOut, LineStop};
use sat_words::{Clause, Lit};
use simp_base::{Work, is_tautology};
use std::alloc::AllocError;

/// The numbers of the clauses that are to be replaced.
pub(crate) fn numbers_of<L: LineOut>(
    work: &Work<L>,
    table: &[usize],
) -> Result<Vec<u64>, AllocError>
    requires { HasPlaces work.now.vars table.now }
    ensures numbers { IfOk result (λ numbers. numbers.items ≡ to_replace (stand_in table.now) work.now.clauses) }
    ensures ordered { IfOk result (λ numbers. AreInOrder work.now.clauses) }
{
    let mut numbers = Vec::new(work.alloc());
    for cell in work.clauses() {
        if is_replaced(table, &cell.1) {
            numbers.push(cell.0)?;
        }
    }
    Ok(numbers)
}

/// What takes the place of the clause with this number: nothing if it is not to be replaced, or becomes a tautology.
fn replacement<L: LineOut>(
    work: &Work<L>,
    table: &[usize],
    number: u64,
    replaced: &mut Vec<Lit>,
) -> Result<Option<Clause>, LineStop>
    requires { HasPlaces work.now.vars table.now }
    ensures is { IfOk result (λ r. IsReplacement work.now (stand_in table.now) number r) }
    ensures memory { IfErr result (λ stop. stop ≡ LineStop.Memory) }
{
    let Some(clause) = work.clause(number) else {
        return Ok(None);
    };
    if !is_replaced(table, clause) {
        return Ok(None);
    }
    replace_all(table, clause.lits(), replaced)?;
    let Ok(new) = Clause::from_lits(work.alloc(), replaced.as_slice()) else {
        return Err(LineStop::Memory);
    };
    if is_tautology(&new) {
        Ok(None)
    } else {
        Ok(Some(new))
    }
}

/// Adds the clause; a single literal is listed as a unit.
fn add_clause<L: LineOut>(work: &mut Work<L>, clause: &Clause) -> Result<(), LineStop>
    requires unspent { work.old.output.spent ≡ false }
    requires going { work.old.ended ≡ false }
    requires rup { rup (known work.old) clause.now ≡ true }
    requires no_opposites { has_opposites clause.now ≡ false }
    requires some { is_empty clause.now ≡ false }
    requires on { All (IsOn work.old.vars) clause.now }
    ensures grown { WasGrown work.old work.new clause.now result }
    ensures work { IsWork work.new }
{
    match clause.lits() {
        [lit] => work.unit(*lit),
        lits => {
            work.add_rup(lits)?;
            Ok(())
        }
    }
}

/// Adds what takes the place of the clause with this number.
fn add_replacement<L: LineOut>(
    work: &mut Work<L>,
    table: &[usize],
    number: u64,
    replaced: &mut Vec<Lit>,
) -> Result<(), LineStop>
    requires unspent { work.old.output.spent ≡ false }
    requires going { work.old.ended ≡ false }
    requires work { IsWork work.old }
    requires places { HasPlaces work.old.vars table.now }
    requires leads { Leads work.old (stand_in table.now) }
    ensures added { WasAdded work.old work.new (stand_in table.now) number result }
    ensures work { IsWork work.new }
{
    match replacement(work, table, number, replaced)? {
        Some(clause) => add_clause(work, &clause),
        None => Ok(()),
    }
}

/// Adds what takes the place of each of the clauses with these numbers.
pub(crate) fn add_all<L: LineOut>(
    work: &mut Work<L>,
    table: &[usize],
    numbers: &[u64],
) -> Result<(), LineStop>
    requires unspent { work.old.output.spent ≡ false }
    requires going { work.old.ended ≡ false }
    requires work { IsWork work.old }
    requires places { HasPlaces work.old.vars table.now }
    requires leads { Leads work.old (stand_in table.now) }
    requires numbers { numbers.now ≡ to_replace (stand_in table.now) work.old.clauses }
    ensures added { WereAdded work.old work.new (stand_in table.now) numbers.now result }
    ensures work { IsWork work.new }
{
    let mut replaced = Vec::new(work.alloc());
    for number in numbers {
        match add_replacement(work, table, *number, &mut replaced) {
            Ok(()) => {}
            Err(stop) => return Err(stop),
        }
    }
    Ok(())
}
