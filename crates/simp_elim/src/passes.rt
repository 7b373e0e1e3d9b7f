// The run of a simplifier by variable elimination.
//
// The clauses with a variable may be replaced by all their resolvents on it: what is left has a model exactly if the
// clauses had one. This is done if it makes no more clauses than it removes (N. Eén and A. Biere, "Effective
// Preprocessing in SAT through Variable and Clause Elimination", SAT 2005). The resolvents follow from the clauses, so that
// they are added before these are deleted; the clauses with the variable itself go onto the reconstruction stack.
ghost use Rattle.std.specs.Prelude.{◌≡◌, ◌≤◌, ◌^◌, ℕ, All, false};
ghost use Rattle.sat_words.specs.Literal.{IsOn};
ghost use Rattle.simp_base.specs.WorkState.{IsWork};
ghost use Rattle.simp_base.specs.Log.{KeepsLog};
ghost use Rattle.simp_elim.specs.Ends.{Ends};
ghost use Rattle.simp_elim.specs.Stages.{IsReplaceable, WasReplaced, WasStepped, IsHighest};

use crate::additions::add_all;
use crate::deletions::remove_all;
use crate::entries::push_all;
use crate::occurrences::occurrences_of;
use crate::resolution::resolvents;
use drat_text::{LineOut, LineStop};
use sat_words::{Clause, Lit};
use simp_base::{Run, Work};

/// Replaces the clauses with these numbers, those with the literal and those with its negation, by their resolvents.
fn replace<L: LineOut>(
    work: &mut Work<L>,
    lit: Lit,
    firsts: &[u64],
    seconds: &[u64],
    made: &[Clause],
) -> Result<(), LineStop>
    requires unspent { work.old.output.spent ≡ false }
    requires going { work.old.ended ≡ false }
    requires replaceable { IsReplaceable work.old lit firsts.now seconds.now made.now }
    ensures replaced { WasReplaced work.old work.new lit firsts.now made.now result }
    ensures work { IsWork work.new }
{
    add_all(work, made)?;
    match push_all(work, lit, firsts) {
        Ok(()) => {}
        Err(stop) => return Err(stop),
    }
    match remove_all(work, firsts) {
        Ok(()) => remove_all(work, seconds),
        Err(stop) => Err(stop),
    }
}

/// Eliminates the variable if the rule says so.
fn eliminate<L: LineOut>(work: &mut Work<L>, var: u32) -> Result<(), LineStop>
    requires unspent { work.old.output.spent ≡ false }
    requires going { work.old.ended ≡ false }
    requires work { IsWork work.old }
    requires low { 1 ≤ var }
    requires high { var ≤ work.old.vars }
    requires few { var ≤ 2 ^ 30 }
    ensures stepped { WasStepped work.old work.new var result }
    ensures work { IsWork work.new }
{
    if work.has_unit(var) {
        return Ok(());
    }
    let lit = Lit::new(var, false);
    let Some(firsts) = occurrences_of(work, lit)? else {
        return Ok(());
    };
    let Some(seconds) = occurrences_of(work, lit.not())? else {
        return Ok(());
    };
    let most = firsts.len() + seconds.len();
    if most == 0 {
        return Ok(());
    }
    match resolvents(work, lit, firsts.as_slice(), seconds.as_slice(), most) {
        Ok(Some(made)) => replace(
            work,
            lit,
            firsts.as_slice(),
            seconds.as_slice(),
            made.as_slice(),
        ),
        Ok(None) => Ok(()),
        Err(_) => Err(LineStop::Memory),
    }
}

/// The literal's variable, or this one if it is higher.
fn higher(top: u32, lit: Lit) -> u32
    ensures above { top ≤ result }
    ensures on { IsOn result lit }
    ensures few { top ≤ 2 ^ 30 → result ≤ 2 ^ 30 }
    ensures within { (h : ℕ) → top ≤ h → lit.var ≤ h → result ≤ h }
{
    if top < lit.var() { lit.var() } else { top }
}

/// The highest variable of the clause, or this one if it is higher.
fn highest_in(clause: &Clause, highest: u32) -> u32
    ensures above { highest ≤ result }
    ensures all { All (IsOn result) clause.now }
    ensures few { highest ≤ 2 ^ 30 → result ≤ 2 ^ 30 }
    ensures within { (h : ℕ) → highest ≤ h → All (IsOn h) clause.now → result ≤ h }
{
    let mut top = highest;
    for lit in clause.lits() {
        top = higher(top, *lit);
    }
    top
}

/// The highest variable of the clauses alive; 0 if they have none.
fn highest_var<L: LineOut>(work: &Work<L>) -> u32
    ensures { IsHighest work.now result }
{
    let mut highest = 0;
    for cell in work.clauses() {
        highest = highest_in(&cell.1, highest);
    }
    highest
}

/// Eliminates variables, ascending, each looked at once: if neither of its literals occurs in more than 16 clauses,
/// there are no more resolvents on it than clauses with it, and none of these has more than 100 literals. Tautologies are
/// neither counted nor removed, and a variable that has a unit, or occurs in no clause, is passed over. A resolvent of one
/// literal is listed as a unit beside being added.
///
/// It never answers that the clauses are refuted. After an error the work serves only to give the line output back.
pub fn run<L: LineOut>(work: &mut Work<L>) -> Result<Run, LineStop>
    requires unspent { work.old.output.spent ≡ false }
    requires going { work.old.ended ≡ false }
    ensures ends { Ends work.old work.new result }
    ensures log { KeepsLog work.old work.new }
    ensures work { IsWork work.new }
{
    let _clauses = work.clauses();
    let highest = highest_var(work);
    for var in 1..=highest {
        match eliminate(work, var) {
            Ok(()) => {}
            Err(stop) => return Err(stop),
        }
    }
    Ok(Run::Done)
}
