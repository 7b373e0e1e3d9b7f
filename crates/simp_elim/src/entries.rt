// The entries of the reconstruction stack: the clauses with the variable, and then the unit of its negation.
ghost use Rattle.std.specs.Prelude.{◌≡◌, ◌∷◌, [], map, ℕ, Contains};
ghost use Rattle.sat_words.specs.Literal.{IsOn};
ghost use Rattle.simp_base.specs.WorkState.{IsWork};
ghost use Rattle.simp_elim.specs.Resolution.{fix_of, fixes_of};
ghost use Rattle.simp_elim.specs.Occurring.{clause_at, OccursIn};
ghost use Rattle.simp_base.specs.Stacked.{WasStacked};

use drat_text::{LineOut, LineStop};
use sat_words::{Clause, Lit};
use simp_base::Work;

/// Puts the entry of the clause with this number, which holds the literal.
fn push_entry<L: LineOut>(work: &mut Work<L>, lit: Lit, number: u64) -> Result<(), LineStop>
    requires work { IsWork work.old }
    requires alive { OccursIn work.old lit (number ∷ []) }
    ensures stacked { WasStacked work.old work.new (fix_of lit (clause_at work.old.clauses number) ∷ []) result }
    ensures work { IsWork work.new }
{
    let Some(clause) = work.clause(number) else {
        // `alive`: the clause with this number holds the literal
        unreachable!()
    };
    let Ok(copy) = Clause::from_lits(work.alloc(), clause.lits()) else {
        return Err(LineStop::Memory);
    };
    work.push_fix(lit, copy)
}

/// Puts the entry of the clause of this literal alone.
fn push_unit<L: LineOut>(work: &mut Work<L>, lit: Lit) -> Result<(), LineStop>
    requires work { IsWork work.old }
    requires on { IsOn work.old.vars lit }
    ensures stacked { WasStacked work.old work.new (fix_of lit (lit ∷ []) ∷ []) result }
    ensures work { IsWork work.new }
{
    let Ok(clause) = Clause::from_lits(work.alloc(), &[lit]) else {
        return Err(LineStop::Memory);
    };
    work.push_fix(lit, clause)
}

/// Puts the entries of the clauses with these numbers.
fn push_each<L: LineOut>(work: &mut Work<L>, lit: Lit, numbers: &[u64]) -> Result<(), LineStop>
    requires work { IsWork work.old }
    requires alive { OccursIn work.old lit numbers.now }
    ensures stacked { WasStacked work.old work.new (map (fix_of lit) (map (clause_at work.old.clauses) numbers.now)) result }
    ensures work { IsWork work.new }
{
    for number in numbers {
        match push_entry(work, lit, *number) {
            Ok(()) => {}
            Err(stop) => return Err(stop),
        }
    }
    Ok(())
}

/// Puts the entries of the literal's variable: those of the clauses with these numbers, which hold the literal, and then that
/// of its negation.
pub(crate) fn push_all<L: LineOut>(
    work: &mut Work<L>,
    lit: Lit,
    numbers: &[u64],
) -> Result<(), LineStop>
    requires work { IsWork work.old }
    requires on { IsOn work.old.vars lit }
    requires alive { OccursIn work.old lit numbers.now }
    ensures stacked { WasStacked work.old work.new (fixes_of lit (map (clause_at work.old.clauses) numbers.now)) result }
    ensures work { IsWork work.new }
{
    push_each(work, lit, numbers)?;
    push_unit(work, lit.not())
}
