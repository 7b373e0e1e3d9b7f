// The active variables by scores: each conflict raises those that it met, and later conflicts raise by more, so that old ones
// count for less (VSIDS, as in Chaff: Moskewicz, Madigan, Zhao, Zhang and Malik 2001; by a growing addend as in MiniSat: Eén
// and Sörensson 2003). The scores are integers: they are lowered together before they come near their end.
ghost use Rattle.std.specs.Prelude.{◌≡◌, ◌≢◌, ◌≤◌, ◌<◌, ◌+◌, ◌/◌, ◌-◌, ◌^◌, ℕ, min, length, slice_index, slice_set, IfOk, IfSome, None};
ghost use Rattle.ring_trail.specs.TrailData.{value_of};
ghost use Rattle.ring_decide.specs.Tables.{AreLowered, AreUpTo, IsMarked};
ghost use Rattle.ring_decide.specs.ScoresData.{raised};

use crate::heap::Heap;
use ring_trail::Trail;
use std::alloc::{AllocError, Global};
use std::marker::Model;

/// What a bump adds at first.
const FIRST_ADD: u64 = 1024;

/// A score above this has all of them lowered.
const HIGHEST: u64 = 1 << 61;

/// What the scores are divided by then.
const LOWERED_BY: u64 = 1 << 48;

/// The scores of the variables, what the next bump adds to one, and the variables that may be without a value by their scores.
#[derive(Drop)]
pub(crate) struct Scores {
    scores: Vec<u64>,
    add: u64,
    heap: Heap,
}

impl Model for Scores {
    ghost use Rattle.ring_decide.specs.ScoresData.{ScoresData};

    ghost Value = { ScoresData };

    ghost use Rattle.ring_decide.specs.ScoresInside.{IsScores};

    ghost view = { λ s. record { vars = s.heap.vars; scores = s.scores.items; add = s.add } };

    ghost invariant = { IsScores };
}

impl Scores {
    /// The variables that are marked, with the score 0.
    pub fn new(alloc: Global, active: &[bool]) -> Result<Scores, AllocError>
        requires { length active.now ≤ 2 ^ 30 }
        ensures vars { IfOk result (λ s. s.vars ≡ length active.now) }
        ensures add { IfOk result (λ s. s.add ≡ 1024) }
        ensures none { IfOk result (λ s. AreUpTo 0 s.scores) }
    {
        let mut scores = Vec::new(alloc);
        scores.resize(active.len() + 1, 0)?;
        let mut heap = Heap::new(alloc, active.len())?;
        for i in 0..active.len() {
            if active[i] {
                heap.insert(scores.as_slice(), i as u32 + 1);
            }
        }
        Ok(Scores {
            scores,
            add: FIRST_ADD,
            heap,
        })
    }

    /// The active variable without a value whose score is the greatest. Those with values that come before it leave the heap.
    pub fn next(&mut self, trail: &Trail, active: &[bool]) -> Option<u32>
        requires vars { trail.now.vars ≡ self.old.vars }
        requires marks { length active.now ≡ self.old.vars }
        ensures active { IfSome result (IsMarked active.now) }
        ensures free { IfSome result (λ v. value_of trail.now.steps v ≡ None) }
        ensures same { self.new ≡ self.old }
    {
        while let Some(var) = self.heap.first() {
            if var != 0 && trail.value(var).is_none() && active[var as usize - 1] {
                return Some(var);
            }
            let _popped = self.heap.pop(self.scores.as_slice());
        }
        None
    }

    /// The score of the variable rises.
    pub fn bump(&mut self, var: u32)
        requires low { 1 ≤ var }
        requires high { var ≤ self.old.vars }
        ensures raised { raised self.old var ≤ 2 ^ 61 → self.new ≡ record self.old { scores = slice_set self.old.scores var (raised self.old var) } }
        ensures lowered { 2 ^ 61 < raised self.old var → AreLowered (slice_set self.old.scores var (raised self.old var)) self.new.scores }
        ensures add { 2 ^ 61 < raised self.old var → self.new.add ≡ self.old.add / 2 ^ 48 }
        ensures others { (v : ℕ) → v ≢ var → 0 < slice_index self.new.scores v → 0 < slice_index self.old.scores v }
        ensures vars { self.new.vars ≡ self.old.vars }
    {
        let score = self.scores[var as usize].saturating_add(self.add);
        self.scores[var as usize] = score;
        if score > HIGHEST {
            lower(&mut self.scores);
            self.add /= LOWERED_BY;
            self.heap.arrange(self.scores.as_slice());
        } else {
            self.heap.raise(self.scores.as_slice(), var);
        }
    }

    /// From now on a bump adds more.
    pub fn grow(&mut self)
        ensures { self.new ≡ record self.old { add = min (self.old.add + (self.old.add / 19 + 1)) (2 ^ 64 - 1) } }
    {
        self.add = self.add.saturating_add(self.add / 19 + 1);
    }

    /// The variable loses its value: it is in the heap again.
    pub fn free(&mut self, var: u32)
        requires { var ≤ self.old.vars }
        ensures { self.new ≡ self.old }
    {
        self.heap.insert(self.scores.as_slice(), var);
    }
}

/// Lowers all scores.
fn lower(scores: &mut Vec<u64>)
    ensures { AreLowered scores.old.items scores.new.items }
{
    for i in 0..scores.len() {
        scores[i] /= LOWERED_BY;
    }
}
