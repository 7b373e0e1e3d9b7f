// Which variable is decided: by a queue or by scores, as the turn is. Nothing rests on them but which variable is found: if
// none is, all variables are looked through, so that none is left out whatever the queue and the heap say.
ghost use Rattle.std.specs.Prelude.{◌≡◌, ◌≤◌, ◌^◌, ◌-◌, not, length, slice_set, IfOk, IfSome, None};
ghost use Rattle.ring_trail.specs.TrailData.{value_of};
ghost use Rattle.ring_decide.specs.Phases.{first_phases};
ghost use Rattle.ring_decide.specs.DeciderData.{DeciderData, IsActive, IsDecided, AllValued};

use crate::queue::Queue;
use crate::scores::Scores;
use crate::turns::Turns;
use rand_pcg::Lcg64Xsh32;
use random_bits::lowest_bits;
use ring_trail::Trail;
use sat_words::{Assignment, Lit};
use std::alloc::{AllocError, Global};
use std::marker::Model;

/// The active variables by a queue and by scores, with the phase of each variable: the value that it is given when it is
/// decided. Only the one whose turn it is learns of bumps.
#[derive(Drop)]
pub struct Decider {
    active: Vec<bool>,
    phase: Vec<bool>,
    queue: Queue,
    scores: Scores,
    turns: Turns,
}

impl Model for Decider {
    ghost use Rattle.ring_decide.specs.DeciderData.{DeciderData};

    ghost Value = { DeciderData };

    ghost use Rattle.ring_decide.specs.Inside.{IsInside};

    ghost view = { λ d. record { active = d.active.items; phase = d.phase.items } };

    ghost invariant = { IsInside };
}

impl Decider {
    /// A decider of the variables that are marked, variable 1 first: each has the first phase by the seed and the ring, and
    /// none was bumped. The ring's number says whether the queue or the scores decide, or both in turn.
    pub fn new(alloc: Global, active: &[bool], seed: u64, ring: u32) -> Result<Decider, AllocError>
        requires { length active.now ≤ 2 ^ 30 }
        ensures active { IfOk result (λ d. d.active ≡ active.now) }
        ensures phase { IfOk result (λ d. d.phase ≡ first_phases seed ring (length active.now)) }
    {
        let mut marks = Vec::with_capacity(alloc, active.len())?;
        marks.extend_from_slice(active)?;
        let mut generator = Lcg64Xsh32::new(seed, ring as u64);
        let phase = lowest_bits(alloc, &mut generator, active.len())?;
        Ok(Decider {
            active: marks,
            phase,
            queue: Queue::new(alloc, active)?,
            scores: Scores::new(alloc, active)?,
            turns: Turns::of_ring(ring),
        })
    }

    /// The next literal to be decided; none if every active variable has a value.
    pub fn next(&mut self, trail: &Trail) -> Option<Lit>
        requires vars { trail.now.vars ≡ length self.old.active }
        ensures some { IfSome result (IsDecided self.old trail.now.steps) }
        ensures none { result ≡ None → AllValued self.old trail.now.steps }
        ensures same { self.new ≡ self.old }
    {
        let found = match self.found(trail) {
            Some(var) => Some(var),
            None => self.any(trail),
        };
        match found {
            Some(var) => Some(Lit::new(var, !self.phase[var as usize - 1])),
            None => None,
        }
    }

    /// The variable was part of a conflict: it goes to the end of the queue, or its score rises.
    pub fn bump(&mut self, var: u32)
        requires low { 1 ≤ var }
        requires high { var ≤ length self.old.active }
        ensures same { self.new ≡ self.old }
    {
        if !self.active[var as usize - 1] {
            return;
        }
        if self.turns.by_scores {
            self.scores.bump(var);
        } else {
            self.queue.bump(var);
        }
    }

    /// The variables of a conflict were bumped: those of later ones count for more, and the turn may end.
    pub fn conflict(&mut self)
        ensures same { self.new ≡ self.old }
    {
        if self.turns.by_scores {
            self.scores.grow();
        }
        self.turns.count();
    }

    /// When the variable was bumped last in the queue: the greater, the later.
    pub fn stamp(&self, var: u32) -> u64
        requires { var ≤ length self.now.active }
    {
        self.queue.stamp(var)
    }

    /// The literal loses its value: its variable has this phase from now on, and is looked at again.
    pub fn save(&mut self, lit: Lit)
        requires low { 1 ≤ lit.var }
        requires high { lit.var ≤ length self.old.active }
        ensures { self.new ≡ record self.old { phase = slice_set self.old.phase (lit.var - 1) (not lit.neg) } }
    {
        let var = lit.var();
        self.phase[var as usize - 1] = !lit.is_neg();
        self.queue.free(var);
        self.scores.free(var);
    }

    /// The phases of the variables, as an assignment.
    pub fn phases(&self, alloc: Global) -> Result<Assignment, AllocError>
        ensures phases { IfOk result (λ a. a ≡ self.now.phase) }
        ensures long { length self.now.phase ≡ length self.now.active }
    {
        assignment_of(alloc, self.phase.as_slice())
    }

    /// Each variable has its value in the assignment as its phase from now on.
    pub fn take_phases(&mut self, values: &Assignment)
        requires { length values.now ≡ length self.old.active }
        ensures { self.new ≡ record self.old { phase = values.now } }
    {
        write_values(values, &mut self.phase);
    }

    /// The active variable without a value that the queue or the scores lead to, as the turn is.
    fn found(&mut self, trail: &Trail) -> Option<u32>
        requires vars { trail.now.vars ≡ length self.old.active }
        ensures active { IfSome result (IsActive self.old) }
        ensures free { IfSome result (λ v. value_of trail.now.steps v ≡ None) }
        ensures same { self.new ≡ self.old }
    {
        let active = self.active.as_slice();
        if self.turns.by_scores {
            self.scores.next(trail, active)
        } else {
            self.queue.next(trail, active)
        }
    }

    /// The first active variable without a value.
    fn any(&self, trail: &Trail) -> Option<u32>
        requires vars { trail.now.vars ≡ length self.now.active }
        ensures active { IfSome result (IsActive self.now) }
        ensures free { IfSome result (λ v. value_of trail.now.steps v ≡ None) }
        ensures none { result ≡ None → AllValued self.now trail.now.steps }
    {
        for i in 0..self.active.len() {
            let var = i as u32 + 1;
            if self.active[i] && trail.value(var).is_none() {
                return Some(var);
            }
        }
        None
    }
}

/// Writes the values of an assignment, variable 1 first, over as many others.
fn write_values(values: &Assignment, over: &mut Vec<bool>)
    requires len { length values.now ≡ length over.old.items }
    requires small { length values.now ≤ 2 ^ 30 }
    ensures { over.new.items ≡ values.now }
{
    for i in 0..over.len() {
        over[i] = values.value(i as u32 + 1);
    }
}

/// The assignment with these values, variable 1 first.
fn assignment_of(alloc: Global, values: &[bool]) -> Result<Assignment, AllocError>
    requires { length values.now ≤ 2 ^ 30 }
    ensures { IfOk result (λ a. a ≡ values.now) }
{
    let mut assignment = Assignment::new(alloc, values.len() as u32)?;
    for i in 0..values.len() {
        assignment.set(i as u32 + 1, values[i]);
    }
    Ok(assignment)
}
