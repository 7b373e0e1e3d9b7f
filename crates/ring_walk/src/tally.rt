// How many literals of each clause are true. The tally knows no assignment: it is told which literal became true or false in
// which clause.
ghost use Rattle.std.specs.Prelude.{◌≡◌, ◌<◌, ◌≤◌, ◌+◌, ◌-◌, ◌^◌, ℕ, List, true, IfOk, length, replicate, slice_index, slice_set, vec_capacity};
ghost use Rattle.ring_walk.specs.Tally.{AreTables, CanLower, count_at, nothing, raised, lowered, falses, broken, is_false};

use crate::listed::{enlist, numbers_below, unlist};
use std::alloc::{AllocError, Global};
use std::marker::Model;

/// How many literals of a clause are true, and the sum of their variables: if there is one, the sum says whose it is.
#[derive(Clone, Copy)]
pub(crate) struct Count {
    /// How many.
    pub trues: u32,
    /// The sum.
    pub sum: u64,
}

/// No literal is true.
const NOTHING: Count = Count { trues: 0, sum: 0 };

/// A count of each clause, the false clauses in a list with their places, and for each variable how many clauses are true by a
/// literal of it alone.
#[derive(Drop)]
pub(crate) struct Tally {
    vars: u32,
    counts: Vec<Count>,
    falses: Vec<u32>,
    places: Vec<u32>,
    broken: Vec<u32>,
}

impl Model for Tally {
    ghost use Rattle.std.specs.Prelude.{◌≤◌, length, vec_capacity};
    ghost use Rattle.ring_walk.specs.Tally.{TallyData, AreTables};

    ghost Value = { TallyData };

    ghost view = { λ t. record { vars = t.vars; counts = t.counts.items; order = t.falses.items } };

    ghost invariant = { λ t. AreTables t.vars t.counts.items t.falses.items t.places.items t.broken.items × (length t.counts.items ≤ vec_capacity t.falses) };
}

impl Tally {
    /// A tally of so many clauses, of which no literal is true.
    pub fn new(alloc: Global, vars: u32, clauses: u32) -> Result<Tally, AllocError>
        requires { clauses < 2 ^ 32 - 1 }
        ensures vars { IfOk result (λ t. t.vars ≡ vars) }
        ensures counts { IfOk result (λ t. t.counts ≡ replicate clauses nothing) }
    {
        let mut counts = Vec::new(alloc);
        counts.resize(clauses as usize, NOTHING)?;
        let mut broken = Vec::new(alloc);
        broken.resize(vars as usize + 1, 0)?;
        let falses = numbers_below(alloc, clauses)?;
        let places = numbers_below(alloc, clauses)?;
        Ok(Tally {
            vars,
            counts,
            falses,
            places,
            broken,
        })
    }

    /// How many clauses are false.
    pub fn false_count(&self) -> usize
        ensures falses { result ≡ falses self.now }
        ensures order { result ≡ length self.now.order }
    {
        self.falses.len()
    }

    /// How many clauses are true by a literal of the variable alone.
    pub fn broken_by(&self, var: u32) -> u32
        requires { var ≤ self.now.vars }
        ensures { result ≡ broken self.now var }
    {
        self.broken[var as usize]
    }

    /// The false clause at a place of the list.
    pub fn false_at(&self, place: usize) -> u32
        requires { place < length self.now.order }
        ensures at { result ≡ slice_index self.now.order place }
        ensures low { result < length self.now.counts }
        ensures is { is_false (count_at self.now.counts result) ≡ true }
    {
        self.falses[place]
    }

    /// A literal of the variable became false in the clause.
    pub fn lower(&mut self, clause: u32, var: u32)
        requires low { clause < length self.old.counts }
        requires can { CanLower self.old.vars (count_at self.old.counts clause) var }
        ensures vars { self.new.vars ≡ self.old.vars }
        ensures counts { self.new.counts ≡ slice_set self.old.counts clause (lowered (count_at self.old.counts clause) var) }
    {
        lower_in(
            &mut self.counts,
            &mut self.falses,
            &mut self.places,
            &mut self.broken,
            clause,
            var,
        );
    }

    /// A literal of the variable became true in the clause.
    pub fn raise(&mut self, clause: u32, var: u32)
        requires low { clause < length self.old.counts }
        requires var { var ≤ self.old.vars }
        requires few { (count_at self.old.counts clause).trues + 1 < 2 ^ 32 }
        requires small { (count_at self.old.counts clause).sum + var < 2 ^ 64 }
        ensures vars { self.new.vars ≡ self.old.vars }
        ensures counts { self.new.counts ≡ slice_set self.old.counts clause (raised (count_at self.old.counts clause) var) }
    {
        raise_in(
            &mut self.counts,
            &mut self.falses,
            &mut self.places,
            &mut self.broken,
            clause,
            var,
        );
    }
}
/// A literal of the variable became false in the clause.
fn lower_in(
    counts: &mut Vec<Count>,
    list: &mut Vec<u32>,
    places: &mut Vec<u32>,
    broken: &mut Vec<u32>,
    clause: u32,
    var: u32,
)
    requires tables { (vars : ℕ) × AreTables vars counts.old.items list.old.items places.old.items broken.old.items × CanLower vars (count_at counts.old.items clause) var }
    requires low { clause < length counts.old.items }
    requires room { length counts.old.items ≤ vec_capacity list.old }
    ensures counts { counts.new.items ≡ slice_set counts.old.items clause (lowered (count_at counts.old.items clause) var) }
    ensures tables { (vars : ℕ) → AreTables vars counts.old.items list.old.items places.old.items broken.old.items → CanLower vars (count_at counts.old.items clause) var → AreTables vars counts.new.items list.new.items places.new.items broken.new.items }
    ensures room { vec_capacity list.new ≡ vec_capacity list.old }
{
    let trues = counts[clause as usize].trues;
    if trues == 1 {
        return none_true(counts, list, places, broken, clause, var);
    }
    if trues == 2 {
        return one_true(counts, broken, clause, var);
    }
    some_true(counts, clause, var)
}

/// The last true literal of the clause became false, one of the variable.
fn none_true(
    counts: &mut Vec<Count>,
    list: &mut Vec<u32>,
    places: &mut Vec<u32>,
    broken: &mut Vec<u32>,
    clause: u32,
    var: u32,
)
    requires tables { (vars : ℕ) × AreTables vars counts.old.items list.old.items places.old.items broken.old.items }
    requires low { clause < length counts.old.items }
    requires one { (count_at counts.old.items clause).trues ≡ 1 }
    requires sum { (count_at counts.old.items clause).sum ≡ var }
    requires room { length counts.old.items ≤ vec_capacity list.old }
    ensures counts { counts.new.items ≡ slice_set counts.old.items clause (lowered (count_at counts.old.items clause) var) }
    ensures tables { (vars : ℕ) → AreTables vars counts.old.items list.old.items places.old.items broken.old.items → AreTables vars counts.new.items list.new.items places.new.items broken.new.items }
    ensures room { vec_capacity list.new ≡ vec_capacity list.old }
{
    enlist(list, places, clause);
    broken[var as usize] -= 1;
    counts[clause as usize] = NOTHING;
}

/// One of two true literals of the clause became false, one of the variable.
fn one_true(counts: &mut Vec<Count>, broken: &mut Vec<u32>, clause: u32, var: u32)
    requires tables { (vars : ℕ) × (list : List ℕ) × (places : List ℕ) × AreTables vars counts.old.items list places broken.old.items × ((count_at counts.old.items clause).sum ≤ var + vars) }
    requires low { clause < length counts.old.items }
    requires two { (count_at counts.old.items clause).trues ≡ 2 }
    requires sum { var ≤ (count_at counts.old.items clause).sum }
    ensures counts { counts.new.items ≡ slice_set counts.old.items clause (lowered (count_at counts.old.items clause) var) }
    ensures tables { (vars : ℕ) (list places : List ℕ) → AreTables vars counts.old.items list places broken.old.items → (count_at counts.old.items clause).sum ≤ var + vars → AreTables vars counts.new.items list places broken.new.items }
{
    let count = counts[clause as usize];
    let other = count.sum - var as u64;
    broken[other as usize] += 1;
    counts[clause as usize] = Count {
        trues: 1,
        sum: other,
    };
}

/// One of three true literals or more of the clause became false, one of the variable.
fn some_true(counts: &mut Vec<Count>, clause: u32, var: u32)
    requires low { clause < length counts.old.items }
    requires some { 3 ≤ (count_at counts.old.items clause).trues }
    requires sum { var ≤ (count_at counts.old.items clause).sum }
    ensures counts { counts.new.items ≡ slice_set counts.old.items clause (lowered (count_at counts.old.items clause) var) }
    ensures tables { (vars : ℕ) (list places broken : List ℕ) → AreTables vars counts.old.items list places broken → AreTables vars counts.new.items list places broken }
{
    let count = counts[clause as usize];
    counts[clause as usize] = Count {
        trues: count.trues - 1,
        sum: count.sum - var as u64,
    };
}

/// The first literal of the clause became true, one of the variable.
fn first_true(
    counts: &mut Vec<Count>,
    list: &mut Vec<u32>,
    places: &mut Vec<u32>,
    broken: &mut Vec<u32>,
    clause: u32,
    var: u32,
)
    requires tables { (vars : ℕ) × AreTables vars counts.old.items list.old.items places.old.items broken.old.items × (var ≤ vars) }
    requires low { clause < length counts.old.items }
    requires none { (count_at counts.old.items clause).trues ≡ 0 }
    ensures counts { counts.new.items ≡ slice_set counts.old.items clause (raised (count_at counts.old.items clause) var) }
    ensures tables { (vars : ℕ) → AreTables vars counts.old.items list.old.items places.old.items broken.old.items → var ≤ vars → AreTables vars counts.new.items list.new.items places.new.items broken.new.items }
    ensures room { vec_capacity list.new ≡ vec_capacity list.old }
{
    unlist(list, places, clause);
    broken[var as usize] += 1;
    counts[clause as usize] = Count {
        trues: 1,
        sum: var as u64,
    };
}

/// A second literal of the clause became true, one of the variable.
fn second_true(counts: &mut Vec<Count>, broken: &mut Vec<u32>, clause: u32, var: u32)
    requires tables { (vars : ℕ) × (list : List ℕ) × (places : List ℕ) × AreTables vars counts.old.items list places broken.old.items }
    requires low { clause < length counts.old.items }
    requires one { (count_at counts.old.items clause).trues ≡ 1 }
    requires small { (count_at counts.old.items clause).sum + var < 2 ^ 64 }
    ensures counts { counts.new.items ≡ slice_set counts.old.items clause (raised (count_at counts.old.items clause) var) }
    ensures tables { (vars : ℕ) (list places : List ℕ) → AreTables vars counts.old.items list places broken.old.items → AreTables vars counts.new.items list places broken.new.items }
{
    let count = counts[clause as usize];
    broken[count.sum as usize] -= 1;
    counts[clause as usize] = Count {
        trues: 2,
        sum: count.sum + var as u64,
    };
}

/// A further literal of the clause became true, one of the variable.
fn further_true(counts: &mut Vec<Count>, clause: u32, var: u32)
    requires low { clause < length counts.old.items }
    requires some { 2 ≤ (count_at counts.old.items clause).trues }
    requires few { (count_at counts.old.items clause).trues + 1 < 2 ^ 32 }
    requires small { (count_at counts.old.items clause).sum + var < 2 ^ 64 }
    ensures counts { counts.new.items ≡ slice_set counts.old.items clause (raised (count_at counts.old.items clause) var) }
    ensures tables { (vars : ℕ) (list places broken : List ℕ) → AreTables vars counts.old.items list places broken → AreTables vars counts.new.items list places broken }
{
    let count = counts[clause as usize];
    counts[clause as usize] = Count {
        trues: count.trues + 1,
        sum: count.sum + var as u64,
    };
}

/// A literal of the variable became true in the clause.
fn raise_in(
    counts: &mut Vec<Count>,
    list: &mut Vec<u32>,
    places: &mut Vec<u32>,
    broken: &mut Vec<u32>,
    clause: u32,
    var: u32,
)
    requires tables { (vars : ℕ) × AreTables vars counts.old.items list.old.items places.old.items broken.old.items × (var ≤ vars) }
    requires low { clause < length counts.old.items }
    requires few { (count_at counts.old.items clause).trues + 1 < 2 ^ 32 }
    requires small { (count_at counts.old.items clause).sum + var < 2 ^ 64 }
    ensures counts { counts.new.items ≡ slice_set counts.old.items clause (raised (count_at counts.old.items clause) var) }
    ensures tables { (vars : ℕ) → AreTables vars counts.old.items list.old.items places.old.items broken.old.items → var ≤ vars → AreTables vars counts.new.items list.new.items places.new.items broken.new.items }
    ensures room { vec_capacity list.new ≡ vec_capacity list.old }
{
    let trues = counts[clause as usize].trues;
    if trues == 0 {
        return first_true(counts, list, places, broken, clause, var);
    }
    if trues == 1 {
        return second_true(counts, broken, clause, var);
    }
    further_true(counts, clause, var)
}
