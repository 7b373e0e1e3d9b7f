// The entries of the reconstruction stack: two for each variable that is replaced.
ghost use Rattle.std.specs.Prelude.{◌≡◌, ◌≤◌, ◌∷◌, []};
ghost use Rattle.sat_words.specs.Literal.{IsOn};
ghost use Rattle.sat_words.specs.Clause.{clause_of};
ghost use Rattle.simp_base.specs.WorkState.{IsWork};
ghost use Rattle.simp_equiv.specs.Tables.{stand_in, HasPlaces, MovesFew};
ghost use Rattle.simp_equiv.specs.Replacements.{replacement_entries, replacement_at, replaced_entries, replacements};
ghost use Rattle.simp_base.specs.Stacked.{WasStacked};

use crate::stand_in::stand_in;
use drat_text::{LineOut, LineStop};
use sat_words::{Clause, Lit};
use simp_base::Work;

/// Puts an entry for the literal: it is true if the other one is false.
fn push_entry<L: LineOut>(work: &mut Work<L>, lit: Lit, other: Lit) -> Result<(), LineStop>
    requires work { IsWork work.old }
    requires lit_on { IsOn work.old.vars lit }
    requires other_on { IsOn work.old.vars other }
    ensures stacked { WasStacked work.old work.new (record { lit = lit; clause = clause_of (lit ∷ other ∷ []) } ∷ []) result }
    ensures work { IsWork work.new }
{
    let Ok(clause) = Clause::from_lits(work.alloc(), &[lit, other]) else {
        return Err(LineStop::Memory);
    };
    work.push_fix(lit, clause)
}

/// Puts the two entries of a literal that has the value of another one.
fn push_both<L: LineOut>(work: &mut Work<L>, lit: Lit, by: Lit) -> Result<(), LineStop>
    requires work { IsWork work.old }
    requires lit_on { IsOn work.old.vars lit }
    requires by_on { IsOn work.old.vars by }
    ensures stacked { WasStacked work.old work.new (replacement_entries (record { replaced = lit; by = by })) result }
    ensures work { IsWork work.new }
{
    push_entry(work, lit, by.not())?;
    push_entry(work, lit.not(), by)
}

/// Puts the entries of the variable, if another one stands for it.
fn push_replacement<L: LineOut>(
    work: &mut Work<L>,
    table: &[usize],
    var: u32,
) -> Result<(), LineStop>
    requires work { IsWork work.old }
    requires low { 1 ≤ var }
    requires high { var ≤ work.old.vars }
    requires places { HasPlaces work.old.vars table.now }
    requires few { MovesFew work.old.vars table.now }
    ensures stacked { WasStacked work.old work.new (replaced_entries (replacement_at (stand_in table.now) var)) result }
    ensures work { IsWork work.new }
{
    if table[2 * var as usize] / 2 == var as usize {
        return Ok(());
    }
    let lit = Lit::new(var, false);
    push_both(work, lit, stand_in(table, lit))
}

/// Puts the entries of all variables that are replaced, ascending.
pub(crate) fn push_all<L: LineOut>(work: &mut Work<L>, table: &[usize]) -> Result<(), LineStop>
    requires work { IsWork work.old }
    requires places { HasPlaces work.old.vars table.now }
    requires few { MovesFew work.old.vars table.now }
    ensures stacked { WasStacked work.old work.new (replaced_entries (replacements (stand_in table.now) work.old.vars)) result }
    ensures work { IsWork work.new }
{
    for var in 1..=work.vars() {
        match push_replacement(work, table, var) {
            Ok(()) => {}
            Err(stop) => return Err(stop),
        }
    }
    Ok(())
}
