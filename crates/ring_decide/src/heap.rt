// A binary heap of variables (Williams 1964) by their scores, with the place of each variable in it, so that one whose score
// rose moves without a search (as in MiniSat: Eén and Sörensson 2003). The greatest score comes first, and of equal scores
// the least variable. Its room is that of all variables, and is taken once. That no variable is lost from it is proved; its
// order is not, since nothing rests on it but which variable is found first.
ghost use Rattle.std.specs.Prelude.{◌≡◌, ◌≤◌, ◌<◌, ◌+◌, ◌^◌, ℕ, IsTrue, ◌↔◌, length, slice_set, IfOk, IfSome, IsSome, None};
ghost use Rattle.ring_decide.specs.HeapData.{HasPlace, IsFree, IsAlone, KeepsOthers, Leads, AreSizes};

use std::alloc::{AllocError, Global};
use std::marker::Model;

/// The place of a variable that is not in the heap.
const NOWHERE: u32 = u32::MAX;

/// A heap of variables. The first `count` of those listed are in it, and `places` says where each variable stands.
#[derive(Drop)]
pub(crate) struct Heap {
    listed: Vec<u32>,
    places: Vec<u32>,
    count: u32,
}

impl Model for Heap {
    ghost use Rattle.std.specs.Prelude.{length};
    ghost use Rattle.ring_decide.specs.HeapData.{HeapData};

    ghost Value = { HeapData };

    ghost use Rattle.ring_decide.specs.HeapInside.{IsHeap};

    ghost view = { λ h. record { vars = length h.listed.items; count = h.count; places = h.places.items } };

    ghost invariant = { IsHeap };
}

impl Heap {
    /// A heap with room for the variables from 1 to this many, and none in it.
    pub fn new(alloc: Global, vars: usize) -> Result<Heap, AllocError>
        requires { vars ≤ 2 ^ 30 }
        ensures vars { IfOk result (λ h. h.vars ≡ vars) }
        ensures none { IfOk result (λ h. h.count ≡ 0) }
    {
        let mut listed = Vec::new(alloc);
        listed.resize(vars, 0)?;
        let mut places = Vec::new(alloc);
        places.resize(vars + 1, NOWHERE)?;
        Ok(Heap {
            listed,
            places,
            count: 0,
        })
    }

    /// The variable that comes first.
    pub fn first(&self) -> Option<u32>
        ensures some { IsSome result ↔ (0 < self.now.count) }
        ensures var { IfSome result (λ v. v ≤ self.now.vars) }
    {
        if self.count > 0 {
            Some(self.at(0))
        } else {
            None
        }
    }

    /// Takes the variable that comes first out of the heap.
    pub fn pop(&mut self, scores: &[u64]) -> u32
        requires scores { length scores.now ≡ self.old.vars + 1 }
        requires some { 0 < self.old.count }
        ensures vars { self.new.vars ≡ self.old.vars }
        ensures count { self.new.count + 1 ≡ self.old.count }
        ensures kept { KeepsOthers self.old self.new result }
    {
        let last = self.count - 1;
        let first = self.at(0);
        let var = self.at(last);
        self.clear(first);
        self.clear(var);
        self.count = last;
        if last > 0 {
            self.sink(scores, 0, var);
        }
        first
    }

    /// Puts a variable into the heap if it is not in it.
    pub fn insert(&mut self, scores: &[u64], var: u32)
        requires scores { length scores.now ≡ self.old.vars + 1 }
        requires var { var ≤ self.old.vars }
        ensures vars { self.new.vars ≡ self.old.vars }
        ensures placed { self.old.count < self.old.vars → HasPlace self.new var }
        ensures kept { KeepsOthers self.old self.new var }
    {
        if self.place(var).is_some() || self.count as usize == self.listed.len() {
            return;
        }
        let last = self.count;
        self.count += 1;
        self.rise(scores, last, var);
    }

    /// Moves a variable towards the front once its score rose, if it is in the heap.
    pub fn raise(&mut self, scores: &[u64], var: u32)
        requires scores { length scores.now ≡ self.old.vars + 1 }
        requires var { var ≤ self.old.vars }
        ensures sizes { AreSizes self.new self.old }
        ensures kept { (v : ℕ) → v ≤ self.old.vars → HasPlace self.old v → HasPlace self.new v }
    {
        if let Some(place) = self.place(var) {
            self.rise(scores, place, var);
        }
    }

    /// Puts the variables in order once many scores changed.
    pub fn arrange(&mut self, scores: &[u64])
        requires { length scores.now ≡ self.old.vars + 1 }
        ensures sizes { AreSizes self.new self.old }
        ensures kept { (v : ℕ) → v ≤ self.old.vars → HasPlace self.old v → HasPlace self.new v }
    {
        let half = self.count / 2;
        for done in 0..half {
            let at = half - 1 - done;
            let var = self.at(at);
            self.sink(scores, at, var);
        }
    }

    /// Moves a variable from a place where no other stands towards the front, as far as its score takes it.
    fn rise(&mut self, scores: &[u64], from: u32, var: u32)
        requires scores { length scores.now ≡ self.old.vars + 1 }
        requires place { from < self.old.count }
        requires var { var ≤ self.old.vars }
        requires alone { IsAlone self.old from var }
        ensures sizes { AreSizes self.new self.old }
        ensures placed { HasPlace self.new var }
        ensures kept { KeepsOthers self.old self.new var }
    {
        self.clear(var);
        let mut at = from;
        while at > 0 {
            let above = (at - 1) / 2;
            let other = self.at(above);
            if !leads(scores, var, other) {
                break;
            }
            self.put(at, other);
            at = above;
        }
        self.put(at, var);
    }

    /// Moves a variable from a place where no other stands towards the end, as far as its score takes it.
    fn sink(&mut self, scores: &[u64], from: u32, var: u32)
        requires scores { length scores.now ≡ self.old.vars + 1 }
        requires place { from < self.old.count }
        requires var { var ≤ self.old.vars }
        requires alone { IsAlone self.old from var }
        ensures sizes { AreSizes self.new self.old }
        ensures placed { HasPlace self.new var }
        ensures kept { KeepsOthers self.old self.new var }
    {
        self.clear(var);
        let mut at = from;
        while let Some(below) = self.below(scores, at) {
            let other = self.at(below);
            if !leads(scores, other, var) {
                break;
            }
            self.put(at, other);
            at = below;
        }
        self.put(at, var);
    }

    /// Of the two places below a place that of the variable that comes first.
    fn below(&self, scores: &[u64], at: u32) -> Option<u32>
        requires scores { length scores.now ≡ self.now.vars + 1 }
        requires place { at < self.now.count }
        ensures below { IfSome result (λ p. at < p) }
        ensures inside { IfSome result (λ p. p < self.now.count) }
    {
        let count = self.count;
        let left = 2 * at + 1;
        if left >= count {
            return None;
        }
        let right = left + 1;
        if right < count && leads(scores, self.at(right), self.at(left)) {
            Some(right)
        } else {
            Some(left)
        }
    }

    /// Where the variable stands.
    fn place(&self, var: u32) -> Option<u32>
        requires { var ≤ self.now.vars }
        ensures some { IfSome result (λ p. p < self.now.count) }
        ensures has { IsSome result ↔ HasPlace self.now var }
        ensures alone { IfSome result (λ p. IsAlone self.now p var) }
    {
        let place = self.places[var as usize];
        if place < self.count {
            Some(place)
        } else {
            None
        }
    }

    /// The variable at a place.
    fn at(&self, place: u32) -> u32
        requires { place < self.now.count }
        ensures var { result ≤ self.now.vars }
        ensures alone { IsAlone self.now place result }
    {
        self.listed[place as usize]
    }

    /// The variable has no place from now on.
    fn clear(&mut self, var: u32)
        requires { var ≤ self.old.vars }
        ensures places { self.new ≡ record self.old { places = slice_set self.old.places var 4294967295 } }
        ensures len { length self.new.places ≡ self.new.vars + 1 }
        ensures small { self.new.count ≤ 2 ^ 30 }
    {
        self.places[var as usize] = NOWHERE;
    }

    /// Puts a variable at a place where none stands.
    fn put(&mut self, place: u32, var: u32)
        requires place { place < self.old.count }
        requires var { var ≤ self.old.vars }
        requires free { IsFree self.old place }
        ensures { self.new ≡ record self.old { places = slice_set self.old.places var place } }
    {
        self.listed[place as usize] = var;
        self.places[var as usize] = place;
    }
}

/// Whether the first of two variables comes before the second.
fn leads(scores: &[u64], var: u32, other: u32) -> bool
    requires var { var < length scores.now }
    requires other { other < length scores.now }
    ensures { IsTrue result ↔ Leads scores.now var other }
{
    let score = scores[var as usize];
    let other_score = scores[other as usize];
    score > other_score || (score == other_score && var < other)
}
