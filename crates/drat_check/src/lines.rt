// One line over the clauses that are alive, which stand as spelled, those added last first.
ghost use Rattle.std.specs.Prelude.{◌≡◌, OnOk, IfOk};
ghost use Rattle.std.specs.List.{list_any, list_all};
ghost use Rattle.sat_words.specs.Literal.{same};
ghost use Rattle.sat_words.specs.Clause.{has, includes, same_set, just_one};
ghost use Rattle.rup_model.specs.Log.{alive_after, is_valid, without_copy};

use rup_model::{is_rat, is_rup};
use sat_words::{Clause, Line, Lit, Lits};
use std::alloc::{AllocError, Global};

/// The clauses as lists of literals.
pub fn copies_of(alloc: Global, clauses: &[Clause]) -> Result<Vec<Lits>, AllocError>
    ensures { IfOk result (λ v. v.items ≡ clauses.now) }
{
    let mut copies = Vec::with_capacity(alloc, clauses.len())?;
    for clause in clauses {
        copies.push(Lits::from_slice(alloc, clause.lits())?)?;
    }
    Ok(copies)
}

/// Whether the line is valid over these clauses.
pub fn is_valid(alloc: Global, alive: &[Lits], line: &Line) -> Result<bool, AllocError>
    ensures { IfOk result (λ yes. yes ≡ is_valid alive.now line.now) }
{
    match line {
        Line::Add(lits) => {
            if is_rup(alloc, alive, lits.as_slice())? {
                return Ok(true);
            }
            is_rat(alloc, alive, lits.as_slice())
        }
        Line::Del(lits) => Ok(is_alive(alive, lits.as_slice()) && !is_unit(lits.as_slice())),
    }
}

/// Adds the line's clause in front, or takes the first copy of it away.
pub fn apply(alloc: Global, alive: &mut Vec<Lits>, line: &Line) -> Result<(), AllocError>
    ensures { OnOk result (alive.new.items ≡ alive_after alive.old.items line.now) }
{
    match line {
        Line::Add(lits) => {
            alive.insert(0, Lits::from_slice(alloc, lits.as_slice())?)?;
        }
        Line::Del(lits) => take_copy(alive, lits.as_slice()),
    }
    Ok(())
}

/// Takes the first clause with these literals away, if there is one.
fn take_copy(alive: &mut Vec<Lits>, lits: &[Lit])
    ensures { alive.new.items ≡ without_copy lits.now alive.old.items }
{
    for i in 0..alive.len() {
        if has_same(lits, alive[i].as_slice()) {
            alive.remove(i);
            return;
        }
    }
}

/// Whether one of the clauses has just these literals.
fn is_alive(alive: &[Lits], lits: &[Lit]) -> bool
    ensures { result ≡ list_any (same_set lits.now) alive.now }
{
    alive.iter().any(|clause| has_same(lits, clause.as_slice()))
}

/// Whether both have the same literals.
fn has_same(first: &[Lit], second: &[Lit]) -> bool
    ensures { result ≡ same_set first.now second.now }
{
    has_all(first, second) && has_all(second, first)
}

/// Whether the first list has each literal of the second.
fn has_all(first: &[Lit], second: &[Lit]) -> bool
    ensures { result ≡ includes first.now second.now }
{
    second.iter().all(|lit| contains(first, *lit))
}

/// Whether the literal stands in the list.
fn contains(lits: &[Lit], lit: Lit) -> bool
    ensures { result ≡ has lits.now lit }
{
    lits.iter().any(|k| lit == *k)
}

/// Whether there is just one literal, however often.
fn is_unit(lits: &[Lit]) -> bool
    ensures { result ≡ just_one lits.now }
{
    match lits {
        [] => false,
        [first, rest @ ..] => are_all(rest, *first),
    }
}

/// Whether each of the literals is this one.
fn are_all(lits: &[Lit], lit: Lit) -> bool
    ensures { result ≡ list_all (same lit) lits.now }
{
    lits.iter().all(|k| lit == *k)
}
