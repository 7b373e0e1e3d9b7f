//! What is asked of the literals of an opening.
ghost use Rattle.std.specs.Prelude.{◌≡◌, Some};
ghost use Rattle.sat_words.specs.Clause.{has, distinct_lits, has_opposites};
ghost use Rattle.rup_model.specs.Journal.{formula_clause};
ghost use Rattle.share_core.specs.Guards.{is_long, is_unit};

use sat_words::{Clause, Lit};

fn contains(lits: &[Lit], lit: Lit) -> bool
    ensures { result ≡ has lits.now lit }
{
    lits.iter().any(|k| lit == *k)
}

/// Whether none stands twice.
pub fn are_distinct(lits: &[Lit]) -> bool
    ensures { result ≡ distinct_lits lits.now }
{
    match lits {
        [] => true,
        [first, rest @ ..] => !contains(rest, *first) && are_distinct(rest),
    }
}

fn has_both(lits: &[Lit]) -> bool
    ensures { result ≡ has_opposites lits.now }
{
    lits.iter().any(|lit| contains(lits, lit.not()))
}

/// Whether there are two or more, without repeats or opposites.
pub fn is_long(lits: &[Lit]) -> bool
    ensures { result ≡ is_long lits.now }
{
    lits.len() >= 2 && are_distinct(lits) && !has_both(lits)
}

fn is_only(lits: &[Lit], lit: Lit) -> bool
    ensures { result ≡ is_unit lit (Some lits.now) }
{
    match lits {
        [only] => lit == *only,
        _ => false,
    }
}

/// Whether the number is that of a clause with this literal alone.
pub fn names_unit(clauses: &[Clause], number: u64, lit: Lit) -> bool
    ensures { result ≡ is_unit lit (formula_clause clauses.now number) }
{
    if number == 0 || number > clauses.len() as u64 {
        return false;
    }
    let index = (number - 1) as usize;
    is_only(clauses[index].lits(), lit)
}
