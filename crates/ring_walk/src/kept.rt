// The assignment of a walk as it is now, and the best one so far. To copy it each time it is the best would cost as much as it is
// long, so the variables in which the two differ are listed: what a copy costs was paid by flips before.
ghost use Rattle.std.specs.Prelude.{◌≡◌, ◌≤◌, ◌<◌, ◌-◌, ◌^◌, ℕ, IfOk, length, slice_index, if◌then◌else◌};
ghost use Rattle.sat_words.specs.Truth.{value_of};
ghost use Rattle.ring_walk.specs.KeptData.{turned};
ghost use Rattle.ring_walk.specs.Truths.{is_in};

use crate::listed::{enlist, unlist};
use crate::starting::copy_of;
use sat_words::Assignment;
use std::alloc::{AllocError, Global};
use std::marker::Model;

/// Two assignments of the same variables, and the variables in which they differ, with their places in the list.
#[derive(Drop)]
pub(crate) struct Kept {
    values: Assignment,
    best: Assignment,
    changed: Vec<u32>,
    places: Vec<u32>,
}

impl Model for Kept {
    ghost use Rattle.ring_walk.specs.KeptData.{KeptData};

    ghost Value = { KeptData };

    ghost use Rattle.ring_walk.specs.KeptInside.{IsKept};

    ghost view = { λ k. record { values = k.values; best = k.best } };

    ghost invariant = { IsKept };
}

impl Kept {
    /// The assignment is the best one so far.
    pub fn new(alloc: Global, values: Assignment) -> Result<Kept, AllocError>
        requires { length values < 2 ^ 32 - 1 }
        ensures values { IfOk result (λ k. k.values ≡ values) }
        ensures best { IfOk result (λ k. k.best ≡ values) }
    {
        let size = values.len() + 1;
        let changed = Vec::with_capacity(alloc, size)?;
        let mut places = Vec::new(alloc);
        places.resize(size, 0)?;
        let best = copy_of(alloc, values.len() as u32, &values)?;
        Ok(Kept {
            values,
            best,
            changed,
            places,
        })
    }

    /// The assignment as it is now.
    pub fn values(&self) -> &Assignment
        ensures { result.now ≡ self.now.values }
    {
        &self.values
    }

    /// The assignment that was kept.
    pub fn best(&self) -> &Assignment
        ensures { result.now ≡ self.now.best }
    {
        &self.best
    }

    /// The variable has the other value from now on.
    pub fn flip(&mut self, var: u32)
        requires low { 1 ≤ var }
        requires high { var ≤ length self.old.values }
        ensures { self.new ≡ record self.old { values = turned self.old.values var } }
    {
        let value = !self.values.value(var);
        self.values.set(var, value);
        if self.best.value(var) == value {
            unlist(&mut self.changed, &mut self.places, var);
        } else {
            enlist(&mut self.changed, &mut self.places, var);
        }
    }

    /// Keeps the assignment as it is now.
    pub fn keep(&mut self)
        ensures { self.new ≡ record self.old { best = self.old.values } }
    {
        copy_values(&self.values, &mut self.best, self.changed.as_slice());
        self.changed.clear();
    }
}

/// Gives each of these variables the value that it has in the first assignment.
fn copy_values(from: &Assignment, to: &mut Assignment, vars: &[u32])
    requires on { (k : ℕ) → k < length vars.now → (1 ≤ slice_index vars.now k) × (slice_index vars.now k ≤ length to.old) }
    ensures len { length to.new ≡ length to.old }
    ensures each { (v : ℕ) → value_of to.new v ≡ (if is_in vars.now v then value_of from.now v else value_of to.old v) }
{
    for var in vars {
        to.set(*var, from.value(*var));
    }
}
