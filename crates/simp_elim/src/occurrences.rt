// The clauses in which a literal occurs.
//
// What a work has noted for a literal may name clauses that are no more, or one clause twice: these are passed over.
ghost use Rattle.std.specs.Prelude.{◌≡◌, true, false, List, Contains, IfOk, IfErr, MatchOption, OnOk, ◌++◌, ◌∷◌, [], length};
ghost use Rattle.sat_words.specs.Literal.{Literal, IsOn};
ghost use Rattle.sat_words.specs.Clause.{InOrder};
ghost use Rattle.simp_base.specs.WorkState.{IsWork, lists};
ghost use Rattle.simp_elim.specs.Resolution.{occurs, occurrences};
ghost use Rattle.simp_elim.specs.Rule.{at_most};
ghost use Rattle.simp_elim.specs.Occurring.{IsOccurrence, IsCollected, AreOccurrences};

use drat_text::{LineOut, LineStop};
use sat_words::{Clause, Lit};
use simp_base::{Work, is_tautology};

/// A variable is eliminated only if neither of its literals occurs in more clauses.
const MOST_OCCURRENCES: usize = 16;

/// Whether the clause holds the literal and is no tautology.
fn occurs_in(lit: Lit, clause: &Clause) -> bool
    ensures is { result ≡ occurs lit clause.now }
    ensures ordered { InOrder clause.now }
{
    clause.lits().contains(&lit) && !is_tautology(clause)
}

/// Whether the clause with this number is alive, holds the literal and is no tautology.
fn is_occurrence<L: LineOut>(work: &Work<L>, lit: Lit, number: u64) -> bool
    ensures { IsOccurrence work.now lit number result }
{
    match work.clause(number) {
        Some(clause) => occurs_in(lit, clause),
        None => false,
    }
}

/// Whether the number is in the list.
fn is_among(numbers: &[u64], number: u64) -> bool
    ensures yes { result ≡ true → Contains numbers.now number }
    ensures no { result ≡ false → Contains numbers.now number → ⊥ }
{
    numbers.contains(&number)
}

fn push(numbers: &mut Vec<u64>, number: u64) -> Result<(), LineStop>
    ensures ok { OnOk result (numbers.new.items ≡ numbers.old.items ++ number ∷ []) }
    ensures memory { IfErr result (λ stop. stop ≡ LineStop.Memory) }
{
    match numbers.push(number) {
        Ok(()) => Ok(()),
        Err(_) => Err(LineStop::Memory),
    }
}

/// Puts the number if the literal occurs in its clause, once. Answers whether the numbers are still few.
fn collect<L: LineOut>(
    work: &Work<L>,
    lit: Lit,
    number: u64,
    found: &mut Vec<u64>,
) -> Result<bool, LineStop>
    requires work { IsWork work.now }
    ensures collected { IfOk result (λ few. IsCollected work.now lit number found.old.items found.new.items few) }
    ensures memory { IfErr result (λ stop. stop ≡ LineStop.Memory) }
{
    if !is_occurrence(work, lit, number) {
        return Ok(true);
    }
    if is_among(found.as_slice(), number) {
        return Ok(true);
    }
    if found.len() >= MOST_OCCURRENCES {
        return Ok(false);
    }
    push(found, number)?;
    Ok(true)
}

/// The numbers of the clauses in which the literal occurs, or nothing if they are too many.
pub(crate) fn occurrences_of<L: LineOut>(
    work: &Work<L>,
    lit: Lit,
) -> Result<Option<Vec<u64>>, LineStop>
    requires on { IsOn work.now.vars lit }
    ensures found { IfOk result (λ o. MatchOption o (at_most (length (occurrences lit (lists work.now.clauses))) 16 ≡ false)
        (λ found. AreOccurrences work.now lit found.items)) }
    ensures memory { IfErr result (λ stop. stop ≡ LineStop.Memory) }
{
    let _clauses = work.clauses();
    let mut found = Vec::new(work.alloc());
    for number in work.occurrences(lit) {
        if !collect(work, lit, *number, &mut found)? {
            return Ok(None);
        }
    }
    Ok(Some(found))
}
