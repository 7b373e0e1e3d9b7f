// The search for a false clause: unit propagation along the trail.
//
// For each literal that became true the clauses that have its negation are looked at. Each clause is looked at once more
// only if that finds nothing, since clauses that units alone make unit are noted for no literal of the trail.
ghost use Rattle.std.specs.Prelude.{◌≡◌, ◌≤◌, ◌<◌, ℕ, List, [], ◌∷◌, map, length, true, false, All, Contains, IfOk, OnOk};
ghost use Rattle.sat_words.specs.Literal.{Literal, opposite, code_of};
ghost use Rattle.sat_words.specs.Clause.{has, has_opposites};
ghost use Rattle.rup_model.specs.Rup.{rup};
ghost use Rattle.simp_base.specs.WorkState.{lists};
ghost use Rattle.simp_base.specs.Hinting.{IsStart, IsTrail, IsFalsified};
ghost use Rattle.simp_base.specs.Search.{WereLookedAt, WereScanned, WasSpread};

use crate::clause_table::ClauseTable;
use crate::hints::look::{Status, status_of};
use crate::hints::trail::{Step, Trail};
use sat_words::Lit;
use std::alloc::AllocError;

/// Looks at the clause with this number, and puts what it forces at the end of the trail. Answers the number if the clause
/// is false.
fn look_at(clauses: &ClauseTable, trail: &mut Trail, number: u64) -> Result<Option<u64>, AllocError>
    requires wide { clauses.now.codes ≤ trail.old.codes }
    ensures looked { IfOk result (WereLookedAt clauses.now.clauses trail.old.steps trail.new.steps (number ∷ [])) }
    ensures codes { trail.new.codes ≡ trail.old.codes }
{
    let Some(clause) = clauses.get(number) else {
        return Ok(None);
    };
    match status_of(clauses, trail, clause.lits()) {
        Status::Falsified => Ok(Some(number)),
        Status::Settled => Ok(None),
        Status::Forced(lit) => {
            trail.push(Step {
                lit,
                reason: Some(number),
            })?;
            Ok(None)
        }
    }
}

/// Looks at the clauses with these numbers, up to a false one.
fn visit(
    clauses: &ClauseTable,
    trail: &mut Trail,
    numbers: &[u64],
) -> Result<Option<u64>, AllocError>
    requires wide { clauses.now.codes ≤ trail.old.codes }
    ensures looked { IfOk result (WereLookedAt clauses.now.clauses trail.old.steps trail.new.steps numbers.now) }
    ensures codes { trail.new.codes ≡ trail.old.codes }
{
    for number in numbers {
        if let Some(found) = look_at(clauses, trail, *number)? {
            return Ok(Some(found));
        }
    }
    Ok(None)
}

/// Looks at all clauses, up to a false one.
fn scan(clauses: &ClauseTable, trail: &mut Trail) -> Result<Option<u64>, AllocError>
    requires wide { clauses.now.codes ≤ trail.old.codes }
    ensures scanned { IfOk result (WereScanned clauses.now.clauses trail.old.steps trail.new.steps) }
    ensures codes { trail.new.codes ≡ trail.old.codes }
{
    for pair in clauses.as_slice() {
        if let Some(found) = look_at(clauses, trail, pair.0)? {
            return Ok(Some(found));
        }
    }
    Ok(None)
}

/// Looks at the clauses in which the literals from this place on are false, and those that come, up to a false clause.
fn spread(clauses: &ClauseTable, trail: &mut Trail, from: usize) -> Result<Option<u64>, AllocError>
    requires wide { clauses.now.codes ≤ trail.old.codes }
    requires from { from ≤ length trail.old.steps }
    ensures spread { IfOk result (WasSpread clauses.now.clauses trail.old.steps trail.new.steps from) }
    ensures codes { trail.new.codes ≡ trail.old.codes }
{
    for next in from..usize::MAX {
        if next >= trail.len() {
            return Ok(None);
        }
        let lit = trail.steps()[next].lit;
        if let Some(found) = visit(clauses, trail, clauses.noted_against(lit))? {
            return Ok(Some(found));
        }
    }
    // There are no more steps than a number can count.
    let _count = trail.len();
    Ok(None)
}

/// Puts the negations of the literals on the empty trail.
fn assume(trail: &mut Trail, lits: &[Lit]) -> Result<(), AllocError>
    requires empty { trail.old.steps ≡ [] }
    requires no_opposites { has_opposites lits.now ≡ false }
    requires codes { All (λ l. code_of (opposite l) < trail.old.codes) lits.now }
    ensures trail { OnOk result ((cells : List (ℕ × List Literal)) → IsTrail cells (has (map opposite lits.now)) trail.new.steps) }
    ensures codes { trail.new.codes ≡ trail.old.codes }
{
    for lit in lits {
        let negation = lit.not();
        match trail.place_of(negation) {
            Some(_) => {}
            None => trail.push(Step {
                lit: negation,
                reason: None,
            })?,
        }
    }
    Ok(())
}

/// Leaves on the trail what follows from the negations of the literals, and answers the number of a clause that is then
/// false.
pub(crate) fn find_false_clause(
    clauses: &ClauseTable,
    trail: &mut Trail,
    lits: &[Lit],
) -> Result<u64, AllocError>
    requires rup { rup (lists clauses.now.clauses) lits.now ≡ true }
    requires no_opposites { has_opposites lits.now ≡ false }
    requires start { IsStart clauses.now.clauses (has (map opposite lits.now)) }
    requires empty { trail.old.steps ≡ [] }
    requires wide { clauses.now.codes ≤ trail.old.codes }
    requires codes { All (λ l. code_of (opposite l) < trail.old.codes) lits.now }
    ensures trail { IfOk result (λ last. IsTrail clauses.now.clauses (has (map opposite lits.now)) trail.new.steps) }
    ensures last { IfOk result (IsFalsified clauses.now.clauses trail.new.steps) }
{
    assume(trail, lits)?;
    if let Some(found) = spread(clauses, trail, 0)? {
        return Ok(found);
    }
    let reached = trail.len();
    if let Some(found) = scan(clauses, trail)? {
        return Ok(found);
    }
    match spread(clauses, trail, reached)? {
        Some(found) => Ok(found),
        // `rup`: if no clause is false, what is true is quiet
        None => unreachable!(),
    }
}
