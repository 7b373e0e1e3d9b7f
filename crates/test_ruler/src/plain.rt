// What the simplifiers' definitions say, run the slow way.
ghost use Rattle.std.specs.Prelude.{◌≤◌};

use crate::VARS;
use sat_words::{Clause, Lit};
use simp_base::Run;
use std::alloc::{AllocError, Global};

/// What is left of a clause if some literals are true.
#[derive(Clone, Copy)]
enum Part {
    /// It is true, or has two literals or more that are neither true nor false.
    Settled,
    /// One is left.
    Unit(Lit),
    /// None is left.
    Falsified,
}

fn holds_both(lits: &[Lit]) -> bool {
    lits.iter().any(|lit| lits.contains(&lit.not()))
}

/// Whether a clause has two literals or more, and no literal with its negation.
fn is_part(lits: &[Lit]) -> bool {
    lits.len() >= 2 && !holds_both(lits)
}

fn part_of(lits: &[Lit], given: &[Lit]) -> Part {
    if lits.iter().any(|lit| given.contains(lit)) {
        return Part::Settled;
    }
    let mut found = Part::Falsified;
    for lit in lits {
        if !given.contains(&lit.not()) {
            match found {
                Part::Falsified => found = Part::Unit(*lit),
                Part::Unit(_) | Part::Settled => return Part::Settled,
            }
        }
    }
    found
}

/// One round of unit propagation over all clauses. Whether none was falsified.
fn give_units(clauses: &[Clause], given: &mut Vec<Lit>) -> Result<bool, AllocError> {
    for clause in clauses {
        match part_of(clause.lits(), given.as_slice()) {
            Part::Settled => {}
            Part::Unit(lit) => given.push(lit)?,
            Part::Falsified => return Ok(false),
        }
    }
    Ok(true)
}

/// The literals that unit propagation gives, none if it falsifies a clause.
fn units_of(alloc: Global, clauses: &[Clause]) -> Result<Option<Vec<Lit>>, AllocError> {
    let mut given = Vec::new(alloc);
    for _ in 0..=VARS {
        if !give_units(clauses, &mut given)? {
            return Ok(None);
        }
    }
    Ok(Some(given))
}

fn is_same_set(one: &[Lit], other: &[Lit]) -> bool {
    one.iter().all(|lit| other.contains(lit)) && other.iter().all(|lit| one.contains(lit))
}

fn has_var_of(lits: &[Lit], units: &[Lit]) -> bool {
    lits.iter()
        .any(|lit| units.iter().any(|unit| unit.var() == lit.var()))
}

/// Whether unit propagation came to this.
pub(crate) fn are_units_taken(
    alloc: Global,
    formula: &[Clause],
    answer: Run,
    clauses: &[(u64, Clause)],
    units: &[Lit],
) -> Result<bool, AllocError> {
    match (answer, units_of(alloc, formula)?) {
        (Run::Refuted, None) => Ok(true),
        (Run::Done, Some(given)) => Ok(
            is_same_set(units, given.as_slice())
                && clauses.iter().all(|cell| !is_part(cell.1.lits())
                    || !has_var_of(cell.1.lits(), units)),
        ),
        _ => Ok(false),
    }
}

/// Whether a clause is a part of another one, or would be with one of its literals negated.
fn is_within(one: &[Lit], other: &[Lit]) -> bool {
    one.iter().all(|lit| other.contains(lit))
        || one.iter().any(|flipped| {
            other.contains(&flipped.not())
                && one.iter().all(|lit| lit == flipped || other.contains(lit))
        })
}

/// Whether of two clauses none is a part of the other.
pub(crate) fn is_reduced(clauses: &[(u64, Clause)]) -> bool {
    clauses.iter().all(|one| {
        clauses.iter().all(|other| {
            one.0 == other.0
                || !is_part(one.1.lits())
                || !is_part(other.1.lits())
                || !is_within(one.1.lits(), other.1.lits())
        })
    })
}

/// Whether a clause of one literal has this variable.
fn has_unit(clauses: &[Clause], var: u32) -> bool {
    clauses.iter().any(|clause| matches!(clause.lits(), [lit] if lit.var() == var))
}

/// The clauses of two literals, neither of which has a variable with a unit.
fn pairs_of(alloc: Global, clauses: &[Clause]) -> Result<Vec<(Lit, Lit)>, AllocError> {
    let mut pairs = Vec::new(alloc);
    for clause in clauses {
        let [one, other] = clause.lits() else {
            continue;
        };
        if !has_unit(clauses, one.var()) && !has_unit(clauses, other.var()) {
            pairs.push((*one, *other))?;
        }
    }
    Ok(pairs)
}

/// Takes the literals that one step from those reached implies.
fn reach_further(pairs: &[(Lit, Lit)], reached: &mut Vec<Lit>) -> Result<(), AllocError> {
    for (one, other) in pairs {
        if reached.contains(&one.not()) && !reached.contains(other) {
            reached.push(*other)?;
        }
        if reached.contains(&other.not()) && !reached.contains(one) {
            reached.push(*one)?;
        }
    }
    Ok(())
}

/// The literals that a literal implies.
fn implied_by(alloc: Global, pairs: &[(Lit, Lit)], lit: Lit) -> Result<Vec<Lit>, AllocError> {
    let mut reached = Vec::new(alloc);
    reached.push(lit)?;
    for _ in 0..=2 * VARS {
        reach_further(pairs, &mut reached)?;
    }
    Ok(reached)
}

/// The literal of the least variable that is equivalent to the one that implies the first of these, and whose negation implies
/// the second; none if the literal implies its negation and is implied by it.
fn least_equivalent(lit: Lit, implied: &[Lit], by_negation: &[Lit]) -> Option<Lit> {
    if implied.contains(&lit.not()) && by_negation.contains(&lit) {
        return None;
    }
    for var in 1..=VARS {
        let other = Lit::new(var, false);
        if implied.contains(&other) && by_negation.contains(&other.not()) {
            return Some(other);
        }
        if implied.contains(&other.not()) && by_negation.contains(&other) {
            return Some(other.not());
        }
    }
    Some(lit)
}

/// What stands for the literal of each variable, none if a literal is equivalent to its negation.
fn stand_ins(alloc: Global, clauses: &[Clause]) -> Result<Option<Vec<Lit>>, AllocError> {
    let pairs = pairs_of(alloc, clauses)?;
    let mut found = Vec::new(alloc);
    for var in 1..=VARS {
        let lit = Lit::new(var, false);
        let implied = implied_by(alloc, pairs.as_slice(), lit)?;
        let by_negation = implied_by(alloc, pairs.as_slice(), lit.not())?;
        match least_equivalent(lit, implied.as_slice(), by_negation.as_slice()) {
            Some(other) => found.push(other)?,
            None => return Ok(None),
        }
    }
    Ok(Some(found))
}

fn stand_in(table: &[Lit], lit: Lit) -> Lit {
    match table.get(lit.var() as usize - 1) {
        Some(other) if lit.is_neg() => other.not(),
        Some(other) => *other,
        None => lit,
    }
}

fn replaced(alloc: Global, table: &[Lit], lits: &[Lit]) -> Result<Vec<Lit>, AllocError> {
    let mut others = Vec::new(alloc);
    for lit in lits {
        others.push(stand_in(table, *lit))?;
    }
    Ok(others)
}

/// Whether the clauses have one of these literals, or it is a unit.
fn has_clause(clauses: &[(u64, Clause)], units: &[Lit], lits: &[Lit]) -> bool {
    clauses.iter().any(|cell| is_same_set(cell.1.lits(), lits))
        || units.iter().any(|unit| is_same_set(&[*unit], lits))
}

/// Whether each clause is left with its literals replaced, except for tautologies.
fn have_become(
    alloc: Global,
    table: &[Lit],
    formula: &[Clause],
    clauses: &[(u64, Clause)],
    units: &[Lit],
) -> Result<bool, AllocError> {
    for clause in formula {
        let lits = replaced(alloc, table, clause.lits())?;
        if !holds_both(clause.lits())
            && !holds_both(lits.as_slice())
            && !has_clause(clauses, units, lits.as_slice())
        {
            return Ok(false);
        }
    }
    Ok(true)
}

/// Whether replacing equivalent literals came to this.
pub(crate) fn is_substituted(
    alloc: Global,
    formula: &[Clause],
    answer: Run,
    clauses: &[(u64, Clause)],
    units: &[Lit],
) -> Result<bool, AllocError> {
    match (answer, stand_ins(alloc, formula)?) {
        (Run::Refuted, None) => Ok(true),
        (Run::Done, Some(table)) => {
            let table = table.as_slice();
            Ok(
                have_become(alloc, table, formula, clauses, units)?
                    && clauses.iter().all(|cell| {
                        !is_part(cell.1.lits())
                            || cell
                                .1
                                .lits()
                                .iter()
                                .all(|lit| stand_in(table, *lit) == *lit)
                    }),
            )
        }
        _ => Ok(false),
    }
}

fn copy_of(clause: &Clause, alloc: Global) -> Result<Clause, AllocError> {
    Clause::from_lits(alloc, clause.lits())
}

/// The clauses in which the literal is, except for tautologies.
fn occurrences(alloc: Global, clauses: &[Clause], lit: Lit) -> Result<Vec<Clause>, AllocError> {
    let mut found = Vec::new(alloc);
    for clause in clauses {
        if clause.lits().contains(&lit) && !holds_both(clause.lits()) {
            found.push(copy_of(clause, alloc)?)?;
        }
    }
    Ok(found)
}

/// The first clause except for the literal and the second except for its negation, in one.
fn resolvent(
    alloc: Global,
    first: &Clause,
    second: &Clause,
    lit: Lit,
) -> Result<Clause, AllocError> {
    let mut lits = Vec::new(alloc);
    for other in first.lits() {
        if *other != lit {
            lits.push(*other)?;
        }
    }
    for other in second.lits() {
        if *other != lit.not() {
            lits.push(*other)?;
        }
    }
    Clause::from_lits(alloc, lits.as_slice())
}

/// The resolvents of each of the first with each of the second that are no tautologies.
fn resolvents(
    alloc: Global,
    firsts: &[Clause],
    seconds: &[Clause],
    lit: Lit,
) -> Result<Vec<Clause>, AllocError> {
    let mut made = Vec::new(alloc);
    for first in firsts {
        for second in seconds {
            let clause = resolvent(alloc, first, second, lit)?;
            if !holds_both(clause.lits()) {
                made.push(clause)?;
            }
        }
    }
    Ok(made)
}

/// What one variable leaves of the clauses.
fn without_var(alloc: Global, clauses: Vec<Clause>, var: u32) -> Result<Vec<Clause>, AllocError>
    requires low { 1 ≤ var }
    requires high { var ≤ 6 }
{
    let lit = Lit::new(var, false);
    let firsts = occurrences(alloc, clauses.as_slice(), lit)?;
    let seconds = occurrences(alloc, clauses.as_slice(), lit.not())?;
    let mut made = resolvents(alloc, firsts.as_slice(), seconds.as_slice(), lit)?;
    if has_unit(clauses.as_slice(), var)
        || firsts.len() > 16
        || seconds.len() > 16
        || made.len() > firsts.len() + seconds.len()
    {
        return Ok(clauses);
    }
    for clause in &clauses {
        let lits = clause.lits();
        if holds_both(lits) || !(lits.contains(&lit) || lits.contains(&lit.not())) {
            made.push(copy_of(clause, alloc)?)?;
        }
    }
    Ok(made)
}

fn count_of(clauses: &[Clause], clause: &Clause) -> usize {
    clauses
        .iter()
        .filter(|other| other.lits() == clause.lits())
        .count()
}

fn count_left(clauses: &[(u64, Clause)], clause: &Clause) -> usize {
    clauses
        .iter()
        .filter(|cell| cell.1.lits() == clause.lits())
        .count()
}

fn is_same_multiset(wanted: &[Clause], clauses: &[(u64, Clause)]) -> bool {
    wanted.len() == clauses.len()
        && wanted.iter().all(|clause| count_of(wanted, clause) == count_left(clauses, clause))
}

/// Whether elimination left these clauses.
pub(crate) fn is_eliminated(
    alloc: Global,
    formula: &[Clause],
    clauses: &[(u64, Clause)],
) -> Result<bool, AllocError> {
    let mut wanted = Vec::new(alloc);
    for clause in formula {
        wanted.push(copy_of(clause, alloc)?)?;
    }
    for var in 1..=VARS {
        wanted = without_var(alloc, wanted, var)?;
    }
    Ok(is_same_multiset(wanted.as_slice(), clauses))
}
