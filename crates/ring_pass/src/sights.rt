// Listed units, as the ring sees them.
ghost use Rattle.std.specs.Prelude.{◌≡◌, ◌*◌, ◌<◌, ◌≤◌, ◌∷◌, [], true, false, All, MatchOption, length, drop, slice_index_or, vec_capacity};
ghost use Rattle.sat_words.specs.Clause.{has, distinct_lits};
ghost use Rattle.share_rule.specs.Passes.{IsPassOf, IsSamePass};
ghost use Rattle.share_rule.specs.Layout.{InVars};
ghost use Rattle.share_rule.specs.Turns.{IsFree};
ghost use Rattle.share_rule.specs.Views.{only};
ghost use Rattle.ring_pass.specs.Numbers.{KnowsNumbers, KeepsNumbers};
ghost use Rattle.ring_pass.specs.RingState.{HasUnits};
ghost use Rattle.ring_pass.specs.Sights.{SawOne, SawAll, SawRest, MayList, ListedOne, Listed, LeftOut, HasNumbered};

use crate::numbers::{note_number, number_of};
use io_edge::Sink;
use log_book::{Book, give_turn, take_turn};
use sat_words::Lit;
use share_rule::{Ledger, Pass, Shared};
use std::alloc::Global;
use std::sync::Wait;

/// Sees the next listed unit, and keeps it after those that arrived. None if all listed units are seen.
pub(crate) fn see_next<B: Ledger>(
    table: &Shared<B>,
    pass: &mut Pass<B>,
    seen: &mut Vec<Lit>,
    arrived: &mut Vec<Lit>,
    numbers: &mut Vec<u64>,
) -> Option<Lit>
    requires pass { IsPassOf table.now pass.old × (pass.old.me.0.parts ≡ only pass.old.me.0 ∷ []) }
    requires units { HasUnits (only pass.old.me.0) pass.old.me.0.layout.vars seen.old.items (vec_capacity seen.old) (vec_capacity arrived.old) }
    requires arrived { (distinct_lits arrived.old.items ≡ true) × All (λ l. has (only pass.old.me.0).core.seen l ≡ true) arrived.old.items }
    ensures pass { IsPassOf table.now pass.new × IsSamePass pass.old pass.new }
    ensures numbers { KeepsNumbers pass.old.me.0 pass.new.me.0 numbers.old.items numbers.new.items }
    ensures saw { MatchOption result (SawAll pass.old.me.0 pass.new.me.0 (length seen.old.items) seen.old.items seen.new.items arrived.old.items arrived.new.items) (SawOne pass.old.me.0 pass.new.me.0 seen.old.items seen.new.items arrived.old.items arrived.new.items) }
    ensures room { (vec_capacity seen.new ≡ vec_capacity seen.old) × (vec_capacity arrived.new ≡ vec_capacity arrived.old) }
{
    let unit = unit_share::next_unit(table, pass, seen.len() as u64)?;
    let lit = unit.0;
    seen.push_reserved(lit);
    arrived.push_reserved(lit);
    note_number(numbers, lit, unit.1);
    Some(lit)
}

/// Sees all listed units.
fn see_all<B: Ledger>(
    table: &Shared<B>,
    pass: &mut Pass<B>,
    seen: &mut Vec<Lit>,
    arrived: &mut Vec<Lit>,
    numbers: &mut Vec<u64>,
)
    requires pass { IsPassOf table.now pass.old × (pass.old.me.0.parts ≡ only pass.old.me.0 ∷ []) }
    requires units { HasUnits (only pass.old.me.0) pass.old.me.0.layout.vars seen.old.items (vec_capacity seen.old) (vec_capacity arrived.old) }
    requires arrived { (distinct_lits arrived.old.items ≡ true) × All (λ l. has (only pass.old.me.0).core.seen l ≡ true) arrived.old.items }
    ensures pass { IsPassOf table.now pass.new × IsSamePass pass.old pass.new }
    ensures numbers { KeepsNumbers pass.old.me.0 pass.new.me.0 numbers.old.items numbers.new.items }
    ensures saw { SawRest pass.old.me.0 pass.new.me.0 seen.new.items arrived.old.items arrived.new.items }
    ensures units { HasUnits (only pass.new.me.0) pass.new.me.0.layout.vars seen.new.items (vec_capacity seen.new) (vec_capacity arrived.new) }
{
    while let Some(_) = see_next(table, pass, seen, arrived, numbers) {}
}

/// Lists a unit, unless it is listed.
fn list_new<B: Ledger>(
    table: &Shared<B>,
    pass: &mut Pass<B>,
    lit: Lit,
    number: u64,
    seen: &mut Vec<Lit>,
    numbers: &mut Vec<u64>,
)
    requires pass { IsPassOf table.now pass.old }
    requires unit { MayList lit number pass.old.me.0 }
    requires seen { (seen.old.items ≡ (only pass.old.me.0).core.seen) × (2 * pass.old.me.0.layout.vars ≤ vec_capacity seen.old) }
    requires numbers { KnowsNumbers pass.old.me.0 numbers.old.items }
    ensures pass { IsPassOf table.now pass.new × IsSamePass pass.old pass.new }
    ensures numbers { KeepsNumbers pass.old.me.0 pass.new.me.0 numbers.old.items numbers.new.items }
    ensures listed { ListedOne pass.old.me.0 pass.new.me.0 seen.new.items lit }
    ensures room { vec_capacity seen.new ≡ vec_capacity seen.old }
{
    if number_of(numbers.as_slice(), lit).is_some() {
        return;
    }
    unit_share::publish(table, pass, lit, number, seen.len() as u64);
    seen.push_reserved(lit);
    note_number(numbers, lit, number);
}

/// Waits for the turn and sees all listed units in it; then lists this one, which the ring wrote under this number, unless it is
/// listed.
pub(crate) fn list_unit<H: Wait, S: Sink>(
    rt: &H,
    alloc: Global,
    table: &Shared<Book<S>>,
    pass: &mut Pass<Book<S>>,
    ring: u32,
    lit: Lit,
    number: u64,
    seen: &mut Vec<Lit>,
    arrived: &mut Vec<Lit>,
    numbers: &mut Vec<u64>,
)
    requires pass { IsPassOf table.now pass.old × (pass.old.me.1 ≡ []) }
    requires ring { IsFree pass.old.me.0 × (ring ≡ (only pass.old.me.0).core.ring) }
    requires units { HasUnits (only pass.old.me.0) pass.old.me.0.layout.vars seen.old.items (vec_capacity seen.old) (vec_capacity arrived.old) }
    requires arrived { (distinct_lits arrived.old.items ≡ true) × All (λ l. has (only pass.old.me.0).core.seen l ≡ true) arrived.old.items }
    requires written { HasNumbered (only pass.old.me.0) lit number }
    requires on { InVars pass.old.me.0.layout (lit ∷ []) }
    requires numbers { KnowsNumbers pass.old.me.0 numbers.old.items }
    ensures pass { IsPassOf table.now pass.new × (pass.new.id ≡ pass.old.id) × (pass.new.me.1 ≡ []) }
    ensures numbers { KeepsNumbers pass.old.me.0 pass.new.me.0 numbers.old.items numbers.new.items }
    ensures listed { Listed pass.old.me.0 pass.new.me.0 arrived.old.items arrived.new.items lit }
    ensures units { HasUnits (only pass.new.me.0) pass.new.me.0.layout.vars seen.new.items (vec_capacity seen.new) (vec_capacity arrived.new) }
{
    let turn = take_turn(rt, alloc, table, pass, ring);
    see_all(table, pass, seen, arrived, numbers);
    list_new(table, pass, lit, number, seen, numbers);
    give_turn(table, pass, turn);
}

/// Where a literal stands first from a place on.
fn place_from(lits: &[Lit], from: usize, lit: Lit) -> Option<usize>
    requires { from ≤ length lits.now }
    ensures { MatchOption result (has (drop from lits.now) lit ≡ false) (λ place. (from ≤ place) × (place < length lits.now) × (lit ≡ slice_index_or lits.now place lit)) }
{
    for place in from..lits.len() {
        if lit == lits[place] {
            return Some(place);
        }
    }
    None
}

/// Leaves a unit out of those from a place on.
pub(crate) fn leave_out(arrived: &mut Vec<Lit>, passed: usize, lit: Lit)
    requires passed { passed ≤ length arrived.old.items }
    requires distinct { distinct_lits arrived.old.items ≡ true }
    ensures left { LeftOut passed lit arrived.old.items arrived.new.items }
    ensures room { vec_capacity arrived.new ≡ vec_capacity arrived.old }
{
    match place_from(arrived.as_slice(), passed, lit) {
        None => {}
        Some(place) => {
            arrived.remove(place);
        }
    }
}
