// Whether hints show that a clause follows, read one after another (LRAT: Cruz-Filipe, Heule, Hunt, Kaufmann and Schneider-Kamp
// 2017). No check may answer yes if the clause does not follow, since readers of a proof with hints follow them blindly.
ghost use Rattle.std.specs.Prelude.{◌≡◌, ◌||◌, not, false, None, Some, map, IfOk, IfSome, IfNone};
ghost use Rattle.std.specs.List.{find, list_all};
ghost use Rattle.std.specs.Option.{option_and_then, option_map_or};
ghost use Rattle.sat_words.specs.Literal.{opposite, same};
ghost use Rattle.sat_words.specs.Clause.{has};
ghost use Rattle.rup_model.specs.Rounds.{falsifies};
ghost use Rattle.rup_model.specs.Hints.{numbered, forced, hinted};

use crate::literals::Literals;
use crate::rup::contains;
use sat_words::Lit;
use std::alloc::{AllocError, Global};

/// The clause with this number.
fn named<C: Literals>(clauses: &[(u64, C)], number: u64) -> Option<&C>
    ensures some { IfSome result (λ c. numbered (map (λ p. (p.0, C.lits p.1)) clauses.now) number ≡ Some (C.lits c.now)) }
    ensures none { IfNone result (numbered (map (λ p. (p.0, C.lits p.1)) clauses.now) number ≡ None) }
{
    for pair in clauses {
        if pair.0 == number {
            return Some(&pair.1);
        }
    }
    None
}

/// The first literal that isn't false.
fn first_open(clause: &[Lit], trues: &[Lit]) -> Option<Lit>
    ensures { result ≡ find (λ l. not (has trues.now (opposite l))) clause.now }
{
    clause.iter().copied().find(|l| !contains(trues, l.not()))
}

fn others_false(clause: &[Lit], lit: Lit, trues: &[Lit]) -> bool
    ensures { result ≡ list_all (λ k. same lit k || has trues.now (opposite k)) clause.now }
{
    clause.iter().all(|k| lit == *k || contains(trues, k.not()))
}

/// The literal that the clause forces.
fn forced(clause: &[Lit], trues: &[Lit]) -> Option<Lit>
    ensures { result ≡ forced (has trues.now) clause.now }
{
    match first_open(clause, trues) {
        None => None,
        Some(lit) => {
            if !contains(trues, lit) && others_false(clause, lit, trues) {
                Some(lit)
            } else {
                None
            }
        }
    }
}

fn is_false(clause: &[Lit], trues: &[Lit]) -> bool
    ensures { result ≡ falsifies (has trues.now) clause.now }
{
    clause.iter().all(|k| contains(trues, k.not()))
}

/// The literal that the clause with this number forces.
fn forced_by<C: Literals>(clauses: &[(u64, C)], number: u64, trues: &[Lit]) -> Option<Lit>
    ensures { result ≡ option_and_then (forced (has trues.now)) (numbered (map (λ p. (p.0, C.lits p.1)) clauses.now) number) }
{
    match named(clauses, number) {
        None => None,
        Some(clause) => forced(clause.lits(), trues),
    }
}

/// Whether all literals of the clause with this number are false.
fn ends_by<C: Literals>(clauses: &[(u64, C)], number: u64, trues: &[Lit]) -> bool
    ensures { result ≡ option_map_or (falsifies (has trues.now)) (numbered (map (λ p. (p.0, C.lits p.1)) clauses.now) number) false }
{
    match named(clauses, number) {
        None => false,
        Some(clause) => is_false(clause.lits(), trues),
    }
}

/// Whether the numbers are hints that show that the clause follows: from the negations of its literals, each number but the
/// last names a clause with exactly one literal that isn't false, which isn't true yet and becomes true; and the last one a
/// clause whose literals are all false. Of two clauses with one number the first is meant.
pub fn is_hinted<C: Literals>(
    alloc: Global,
    clauses: &[(u64, C)],
    lits: &[Lit],
    hints: &[u64],
) -> Result<bool, AllocError>
    ensures { IfOk result (λ yes. yes ≡ hinted (numbered (map (λ p. (p.0, C.lits p.1)) clauses.now)) lits.now hints.now) }
{
    let mut trues = Vec::new(alloc);
    for lit in lits {
        trues.push(lit.not())?;
    }
    for i in 0..hints.len() {
        if i == hints.len() - 1 {
            return Ok(ends_by(clauses, hints[i], trues.as_slice()));
        }
        match forced_by(clauses, hints[i], trues.as_slice()) {
            None => return Ok(false),
            Some(lit) => trues.push(lit)?,
        }
    }
    Ok(false)
}
