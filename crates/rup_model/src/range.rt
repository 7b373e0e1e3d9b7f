ghost use Rattle.std.specs.Prelude.{◌≡◌, ◌<◌, ◌≤◌, All, IfOk, None, length, map, replicate};

use crate::literals::Literals;
use sat_words::{Lit, Values};
use std::alloc::{AllocError, Global};

/// A number that no variable of the literals is above.
fn greatest(lits: &[Lit]) -> u32
    ensures { All (λ l. l.var ≤ result) lits.now }
{
    let mut most: u32 = 0;
    for lit in lits {
        most = most.max(lit.var());
    }
    most
}

/// A number that no variable of the clauses is above.
fn greatest_of_all<C: Literals>(clauses: &[C]) -> u32
    ensures { All (All (λ l. l.var ≤ result)) (map C.lits clauses.now) }
{
    let mut most: u32 = 0;
    for clause in clauses {
        most = most.max(greatest(clause.lits()));
    }
    most
}

/// No value for any variable, with a place for each of the clauses and of the literals.
pub(crate) fn room_for<C: Literals>(
    alloc: Global,
    clauses: &[C],
    lits: &[Lit],
) -> Result<Values, AllocError>
    ensures blank { IfOk result (λ a. a ≡ replicate (length a) None) }
    ensures clauses_in_range { IfOk result (λ a. All (All (λ l. l.var < length a)) (C.lists clauses.now)) }
    ensures lits_in_range { IfOk result (λ a. All (λ l. l.var < length a) lits.now) }
{
    let most = greatest(lits).max(greatest_of_all(clauses));
    Values::new(alloc, most)
}
