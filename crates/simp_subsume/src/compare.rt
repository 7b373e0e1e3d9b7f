// One clause compared with others: those that contain it are deleted, and those that contain it except for one negated literal
// are made shorter.
ghost use Rattle.std.specs.Prelude.{◌≡◌, true, false, IfOk, IfErr, All};
ghost use Rattle.sat_words.specs.Literal.{IsOn};
ghost use Rattle.sat_words.specs.Clause.{has_opposites, is_empty, InOrder};
ghost use Rattle.rup_model.specs.Rup.{rup};
ghost use Rattle.simp_base.specs.WorkState.{IsWork, known};
ghost use Rattle.simp_subsume.specs.Compared.{without, IsFateWithin, IsFateFlipped, IsFate, IsFateAt, IsLoaded, WasGrown, WasCompared, WasComparedWithAll, Comparing};

use crate::relation::{Relation, relation_of};
use drat_text::{LineOut, LineStop};
use sat_words::{Clause, Lit};
use simp_base::{Work, takes_part};
use std::alloc::{AllocError, Global};

/// What is to become of a clause.
#[derive(Drop)]
pub(crate) enum Fate {
    /// It stays as it is.
    Stays,
    /// It contains the clause at hand, so that it is deleted.
    Goes,
    /// It contains the clause at hand except for one negated literal; these are its others.
    Shrinks(Vec<Lit>),
}

/// The literals of the clause but this one.
fn without(alloc: Global, lits: &[Lit], lit: Lit) -> Result<Vec<Lit>, AllocError>
    ensures { IfOk result (λ rest. rest.items ≡ without lit lits.now) }
{
    let mut rest = Vec::new(alloc);
    for k in lits {
        if lit != *k {
            rest.push(*k)?;
        }
    }
    Ok(rest)
}

/// What is to become of the other clause if the clause at hand is in it.
fn fate_within(other: &Clause) -> Fate
    ensures { IsFateWithin other.now result }
{
    if takes_part(other) {
        Fate::Goes
    } else {
        Fate::Stays
    }
}

/// What is to become of the other clause if the clause at hand is in it except for this literal, whose negation is.
fn fate_flipped(alloc: Global, other: &Clause, lit: Lit) -> Result<Fate, AllocError>
    ensures { IfOk result (λ fate. IsFateFlipped other.now lit fate) }
{
    if !takes_part(other) {
        return Ok(Fate::Stays);
    }
    let rest = without(alloc, other.lits(), lit.not())?;
    Ok(Fate::Shrinks(rest))
}

/// What is to become of the other clause.
fn fate_of(alloc: Global, clause: &[Lit], other: &Clause) -> Result<Fate, AllocError>
    requires ordered { InOrder clause.now }
    requires no_opposites { has_opposites clause.now ≡ false }
    ensures { IfOk result (λ fate. IsFate clause.now other.now fate) }
{
    match relation_of(clause, other.lits()) {
        Relation::Apart => Ok(Fate::Stays),
        Relation::Within => Ok(fate_within(other)),
        Relation::Flipped(lit) => fate_flipped(alloc, other, lit),
    }
}

/// What is to become of the clause with the second number; nothing if it is not alive, or is the clause at hand itself.
fn fate_at<L: LineOut>(
    work: &Work<L>,
    number: u64,
    clause: &[Lit],
    other: u64,
) -> Result<Fate, LineStop>
    requires ordered { InOrder clause.now }
    requires no_opposites { has_opposites clause.now ≡ false }
    ensures fate { IfOk result (λ fate. IsFateAt work.now number clause.now other fate) }
    ensures memory { IfErr result (λ stop. stop ≡ LineStop.Memory) }
{
    if other == number {
        return Ok(Fate::Stays);
    }
    let Some(found) = work.clause(other) else {
        return Ok(Fate::Stays);
    };
    match fate_of(work.alloc(), clause, found) {
        Ok(fate) => Ok(fate),
        Err(_) => Err(LineStop::Memory),
    }
}

/// Adds what is left of a clause; a single literal is listed as a unit.
fn add_part<L: LineOut>(work: &mut Work<L>, lits: &[Lit]) -> Result<(), LineStop>
    requires unspent { work.old.output.spent ≡ false }
    requires going { work.old.ended ≡ false }
    requires rup { rup (known work.old) lits.now ≡ true }
    requires no_opposites { has_opposites lits.now ≡ false }
    requires some { is_empty lits.now ≡ false }
    requires on { All (IsOn work.old.vars) lits.now }
    ensures grown { WasGrown work.old work.new lits.now result }
    ensures work { IsWork work.new }
{
    match lits {
        [lit] => work.unit(*lit),
        _ => {
            work.add_rup(lits)?;
            Ok(())
        }
    }
}

/// Compares the clause with the one of the second number, which is deleted or made shorter if it contains the clause.
fn compare<L: LineOut>(
    work: &mut Work<L>,
    number: u64,
    clause: &[Lit],
    other: u64,
) -> Result<(), LineStop>
    requires unspent { work.old.output.spent ≡ false }
    requires going { work.old.ended ≡ false }
    requires loaded { IsLoaded work.old number clause.now }
    requires work { IsWork work.old }
    ensures compared { WasCompared work.old work.new number clause.now other result }
    ensures work { IsWork work.new }
{
    match fate_at(work, number, clause, other)? {
        Fate::Stays => Ok(()),
        Fate::Goes => work.delete(other),
        Fate::Shrinks(rest) => {
            add_part(work, rest.as_slice())?;
            work.delete(other)
        }
    }
}

/// Compares the clause with those of these numbers, one after another.
pub(crate) fn compare_with_all<L: LineOut>(
    work: &mut Work<L>,
    number: u64,
    clause: &[Lit],
    others: &[u64],
) -> Result<(), LineStop>
    requires begun { Comparing work.old work.old number clause.now others.now }
    requires loaded { IsLoaded work.old number clause.now }
    ensures compared { WasComparedWithAll work.old work.new number clause.now result }
    ensures work { IsWork work.new }
{
    for other in others {
        match compare(work, number, clause, *other) {
            Ok(()) => {}
            Err(stop) => return Err(stop),
        }
    }
    Ok(())
}
