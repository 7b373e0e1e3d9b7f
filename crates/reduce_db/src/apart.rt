// Clauses told apart from others: beside these they may be reduced.
ghost use Rattle.std.specs.Prelude.{◌≡◌, ◌&&◌, not, nat_lt, IfOk};
ghost use Rattle.std.specs.List.Sorted.{IsNonDecreasingBy};
ghost use Rattle.sat_words.specs.declared.shared.Cref.{Cref};
ghost use Rattle.watch_prop.specs.WatchData.{is_among};
ghost use Rattle.reduce_db.specs.Lemmas.{AreToldApart, first_of_each};

use crate::dropping::by_address;
use sat_words::Cref;
use std::alloc::{AllocError, Global};

/// Each of the clauses once, in the order of their addresses. Those at addresses up to `after` are left out, and those at the
/// address of one of the others.
pub fn tell_apart(
    alloc: Global,
    clauses: &[Cref],
    others: &[Cref],
    after: u64,
) -> Result<Vec<Cref>, AllocError>
    ensures { IfOk result (λ apart. AreToldApart after others.now clauses.now apart.items) }
{
    let in_order = by_address(alloc, clauses)?;
    let apart_from = by_address(alloc, others)?;
    let apart = first_of_each(alloc, in_order.as_slice(), apart_from.as_slice(), after)?;
    Ok(apart)
}

/// The first of the clauses at each address after this one at which none of the others is. Both are in the order of addresses.
fn first_of_each(
    alloc: Global,
    clauses: &[Cref],
    others: &[Cref],
    after: u64,
) -> Result<Vec<Cref>, AllocError>
    requires { IsNonDecreasingBy (λ (c : Cref). c.address) others.now }
    ensures { IfOk result (λ apart. apart.items ≡ first_of_each after others.now clauses.now) }
{
    let mut apart = Vec::new(alloc);
    let mut last = after;
    for c in clauses {
        if is_next(others, last, *c) {
            apart.push(*c)?;
            last = c.address;
        }
    }
    Ok(apart)
}

/// Whether the clause is after the last address, and at the address of none of the others, which are in order.
fn is_next(others: &[Cref], last: u64, c: Cref) -> bool
    requires { IsNonDecreasingBy (λ (c : Cref). c.address) others.now }
    ensures { result ≡ (nat_lt last c.address && not (is_among others.now c.address)) }
{
    last < c.address && !is_among(others, c)
}

/// Whether one of these clauses, which are in the order of their addresses, is at the address of this one.
fn is_among(others: &[Cref], c: Cref) -> bool
    requires { IsNonDecreasingBy (λ (c : Cref). c.address) others.now }
    ensures { result ≡ is_among others.now c.address }
{
    others
        .binary_search_by_key(&c.address, |other| other.address)
        .is_ok()
}
