// Clauses that hold a unit's variable: they are deleted, or what is left of them takes their place.
ghost use Rattle.std.specs.Prelude.{◌≡◌, ℕ, List, Contains, IfOk, IfErr};
ghost use Rattle.std.specs.List.{list_any};
ghost use Rattle.sat_words.specs.Literal.{Literal};
ghost use Rattle.sat_words.specs.Values.{is_true};
ghost use Rattle.rup_model.specs.Status.{IsSettled};
ghost use Rattle.simp_base.specs.WorkState.{IsWork};
ghost use Rattle.simp_units.specs.Progress.{IsSet};
ghost use Rattle.simp_units.specs.Tidied.{left_of, IsLeft, IsLeftAt, WasTidied, WasCleaned};

use crate::start::numbers_of;
use drat_text::{LineOut, LineStop};
use sat_words::{Clause, Lit, Values};
use simp_base::{Work, is_tautology};
use std::alloc::{AllocError, Global};

/// What is to become of a clause.
#[derive(Drop)]
pub(crate) enum Remainder {
    /// It stays as it is.
    Whole,
    /// A literal is true, so that it is deleted.
    Nothing,
    /// These literals are left of it.
    Part(Vec<Lit>),
}

/// The literals of the clause that are not false.
fn left_of(alloc: Global, lits: &[Lit], values: &Values) -> Result<Vec<Lit>, AllocError>
    ensures { IfOk result (λ rest. rest.items ≡ left_of values.now lits.now) }
{
    let mut rest = Vec::new(alloc);
    for lit in lits {
        if !values.is_false(*lit) {
            rest.push(*lit)?;
        }
    }
    Ok(rest)
}

fn has_true(lits: &[Lit], values: &Values) -> bool
    ensures { result ≡ list_any (is_true values.now) lits.now }
{
    lits.iter().any(|lit| values.is_true(*lit))
}

/// What is left of a clause under the values of the units.
fn what_is_left(alloc: Global, clause: &Clause, values: &Values) -> Result<Remainder, AllocError>
    ensures { IfOk result (λ what. IsLeft values.now clause.now what) }
{
    let lits = clause.lits();
    if lits.len() < 2 {
        return Ok(Remainder::Whole);
    }
    if is_tautology(clause) {
        return Ok(Remainder::Whole);
    }
    if has_true(lits, values) {
        return Ok(Remainder::Nothing);
    }
    let rest = left_of(alloc, lits, values)?;
    if rest.len() == lits.len() {
        return Ok(Remainder::Whole);
    }
    Ok(Remainder::Part(rest))
}

/// What is left of the clause with this number; all if it is not alive.
fn left_at<L: LineOut>(work: &Work<L>, values: &Values, number: u64) -> Result<Remainder, LineStop>
    ensures what { IfOk result (λ what. IsLeftAt work.now values.now number what) }
    ensures memory { IfErr result (λ stop. stop ≡ LineStop.Memory) }
{
    let Some(clause) = work.clause(number) else {
        return Ok(Remainder::Whole);
    };
    match what_is_left(work.alloc(), clause, values) {
        Ok(what) => Ok(what),
        Err(_) => Err(LineStop::Memory),
    }
}

/// Deletes the clause with this number, or puts what is left of it in its place, if a unit's variable is in it.
fn tidy<L: LineOut>(work: &mut Work<L>, values: &Values, number: u64) -> Result<(), LineStop>
    requires set { IsSet work.old values.now }
    requires settled { (n : ℕ) (c : List Literal) → Contains work.old.clauses (n, c) → IsSettled values.now c }
    ensures tidied { WasTidied work.old work.new values.now number result }
    ensures work { IsWork work.new }
{
    match left_at(work, values, number)? {
        Remainder::Whole => Ok(()),
        Remainder::Nothing => work.delete(number),
        Remainder::Part(rest) => {
            work.add_rup(rest.as_slice())?;
            work.delete(number)
        }
    }
}

/// Goes through all clauses once.
pub(crate) fn clean<L: LineOut>(work: &mut Work<L>, values: &Values) -> Result<(), LineStop>
    requires set { IsSet work.old values.now }
    requires settled { (n : ℕ) (c : List Literal) → Contains work.old.clauses (n, c) → IsSettled values.now c }
    ensures cleaned { WasCleaned work.old work.new values.now result }
    ensures work { IsWork work.new }
{
    let numbers = numbers_of(work.alloc(), work)?;
    for number in &numbers {
        match tidy(work, values, *number) {
            Ok(()) => {}
            Err(stop) => return Err(stop),
        }
    }
    Ok(())
}
