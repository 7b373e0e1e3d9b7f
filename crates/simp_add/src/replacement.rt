// The clauses of two literals with their common sets are replaced by those of a new variable.
//
// The new literal stands for both: it or the first, it or the second; and its negation comes with each common set. Each of these
// clauses has the RAT property on the new variable, and the old ones follow from them (M. Järvisalo, M. J. H. Heule and
// A. Biere, "Inprocessing Rules", IJCAR 2012), so that the old ones are deleted last.
ghost use Rattle.std.specs.Prelude.{◌≡◌, ◌<◌, ◌∷◌, [], ℕ, List, map, All, Contains, OnOk, true, false};
ghost use Rattle.sat_words.specs.Formats.{has_hints};
ghost use Rattle.sat_words.specs.Literal.{Literal, IsOn, opposite};
ghost use Rattle.rup_model.specs.Rup.{rat};
ghost use Rattle.simp_base.specs.WorkState.{IsWork, lists};
ghost use Rattle.simp_add.specs.Common.{others};
ghost use Rattle.simp_add.specs.Stages.{IsReplaceable, CanCome, set_at, AreLong, WasGrown, WasRemoved, WasExchanged};

use crate::numbers::put_others;
use crate::shared::Shared;
use drat_text::{LineOut, LineStop};
use sat_words::Lit;
use simp_base::Work;
use std::alloc::AllocError;

/// Puts a literal and then those of the list but one, in the place of what was there.
fn fill(lits: &mut Vec<Lit>, first: Lit, clause: &[Lit], but: Lit) -> Result<(), AllocError>
    ensures { OnOk result (lits.new.items ≡ first ∷ others but clause.now) }
{
    lits.clear();
    lits.push(first)?;
    put_others(lits, clause, but)?;
    Ok(())
}

/// Adds the new literal with another one.
fn add_pair<L: LineOut>(work: &mut Work<L>, fresh: Lit, other: Lit) -> Result<(), LineStop>
    requires unspent { work.old.output.spent ≡ false }
    requires going { work.old.ended ≡ false }
    requires plain { has_hints work.old.output.format ≡ false }
    requires rat { rat (lists work.old.clauses) (fresh ∷ other ∷ []) ≡ true }
    requires above { work.old.unheld < fresh.var }
    requires on { All (IsOn work.old.vars) (fresh ∷ other ∷ []) }
    ensures grown { WasGrown work.old work.new ((fresh ∷ other ∷ []) ∷ []) result }
    ensures work { IsWork work.new }
{
    match work.add_rat(&[fresh, other]) {
        Ok(_) => Ok(()),
        Err(stop) => Err(stop),
    }
}

/// Adds the negation of the new literal with the others of the clause with this number.
fn add_common<L: LineOut>(
    work: &mut Work<L>,
    fresh: Lit,
    lit: Lit,
    number: u64,
    lits: &mut Vec<Lit>,
) -> Result<(), LineStop>
    requires unspent { work.old.output.spent ≡ false }
    requires going { work.old.ended ≡ false }
    requires plain { has_hints work.old.output.format ≡ false }
    requires work { IsWork work.old }
    requires comes { CanCome work.old fresh lit number }
    ensures grown { WasGrown work.old work.new ((opposite fresh ∷ set_at work.old.clauses lit number) ∷ []) result }
    ensures work { IsWork work.new }
{
    let Some(clause) = work.clause(number) else {
        // the numbers are those of clauses that are alive
        unreachable!()
    };
    match fill(lits, fresh.not(), clause.lits(), lit) {
        Ok(()) => {}
        Err(_) => return Err(LineStop::Memory),
    }
    match work.add_rat(lits.as_slice()) {
        Ok(_) => Ok(()),
        Err(stop) => Err(stop),
    }
}

/// Adds the negation of the new literal with each common set.
fn add_commons<L: LineOut>(
    work: &mut Work<L>,
    fresh: Lit,
    lit: Lit,
    firsts: &[u64],
) -> Result<(), LineStop>
    requires unspent { work.old.output.spent ≡ false }
    requires going { work.old.ended ≡ false }
    requires plain { has_hints work.old.output.format ≡ false }
    requires work { IsWork work.old }
    requires come { (n : ℕ) → Contains firsts.now n → CanCome work.old fresh lit n }
    ensures grown { WasGrown work.old work.new (map (λ n. opposite fresh ∷ set_at work.old.clauses lit n) firsts.now) result }
    ensures work { IsWork work.new }
{
    let mut lits = Vec::new(work.alloc());
    for number in firsts {
        match add_common(work, fresh, lit, *number, &mut lits) {
            Ok(()) => {}
            Err(stop) => return Err(stop),
        }
    }
    Ok(())
}

/// Deletes the clause with this number, if it is alive.
fn remove_at<L: LineOut>(work: &mut Work<L>, number: u64) -> Result<(), LineStop>
    requires unspent { work.old.output.spent ≡ false }
    requires going { work.old.ended ≡ false }
    requires work { IsWork work.old }
    requires long { AreLong work.old (number ∷ []) }
    ensures removed { WasRemoved work.old work.new (number ∷ []) result }
    ensures work { IsWork work.new }
{
    match work.clause(number) {
        Some(_) => work.delete(number),
        None => Ok(()),
    }
}

/// Deletes those of the clauses with these numbers that are alive.
fn remove_all<L: LineOut>(work: &mut Work<L>, numbers: &[u64]) -> Result<(), LineStop>
    requires unspent { work.old.output.spent ≡ false }
    requires going { work.old.ended ≡ false }
    requires work { IsWork work.old }
    requires long { AreLong work.old numbers.now }
    ensures removed { WasRemoved work.old work.new numbers.now result }
    ensures work { IsWork work.new }
{
    for number in numbers {
        match remove_at(work, *number) {
            Ok(()) => {}
            Err(stop) => return Err(stop),
        }
    }
    Ok(())
}

/// Replaces the clauses of the two literals with their common sets.
pub(crate) fn replace<L: LineOut>(
    work: &mut Work<L>,
    fresh: Lit,
    lit: Lit,
    partner: Lit,
    shared: &Shared,
) -> Result<(), LineStop>
    requires unspent { work.old.output.spent ≡ false }
    requires going { work.old.ended ≡ false }
    requires plain { has_hints work.old.output.format ≡ false }
    requires replaceable { IsReplaceable work.old fresh lit partner shared.now.firsts.items shared.now.gone.items }
    ensures exchanged { WasExchanged work.old work.new fresh lit partner result }
    ensures work { IsWork work.new }
{
    match add_pair(work, fresh, lit) {
        Ok(()) => {}
        Err(stop) => return Err(stop),
    }
    match add_pair(work, fresh, partner) {
        Ok(()) => {}
        Err(stop) => return Err(stop),
    }
    match add_commons(work, fresh, lit, shared.firsts.as_slice()) {
        Ok(()) => remove_all(work, shared.gone.as_slice()),
        Err(stop) => Err(stop),
    }
}
