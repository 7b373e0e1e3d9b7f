// The calls of one object in memory, and those of them that are to fail.
// The program never runs this: it stands for real files and streams in tests, where contracts know every byte.
ghost use Rattle.std.specs.Prelude.{◌≡◌, ◌≤◌, is_err};
ghost use Rattle.io_edge.specs.Calls.{Calls, fails_next, no_calls, after_call};
ghost use Rattle.io_edge.specs.Causes.{one_more};

use crate::Failed;
use crate::faults::count_fault;
use std::marker::Model;

/// Numbers the calls of an object from 1 on, and fails those that `failing` lists.
#[derive(Drop)]
pub(crate) struct Schedule<'a> {
    failing: &'a [u64],
    made: u64,
    faults: u64,
}

impl<'a> Model for Schedule<'a> {
    ghost Value = { Calls };

    ghost view = { λ s. record { failing = s.failing.now; made = s.made; faults = s.faults } };
}

impl<'a> Schedule<'a> {
    pub(crate) fn new(failing: &'a [u64]) -> Self
        ensures { result ≡ no_calls failing.now }
    {
        Schedule {
            failing,
            made: 0,
            faults: 0,
        }
    }

    /// Counts a call, and fails if it is listed.
    pub(crate) fn next_call(&mut self) -> Result<(), Failed>
        ensures fails { is_err result ≡ fails_next self.old }
        ensures after { self.new ≡ after_call self.old (is_err result) }
        ensures later { self.old.faults ≤ self.new.faults }
    {
        self.made = self.made.saturating_add(1);
        if self.failing.contains(&self.made) {
            return Err(count_fault(&mut self.faults));
        }
        Ok(())
    }

    /// Counts a fault of a call that was counted.
    pub(crate) fn fault(&mut self) -> Failed
        ensures after { self.new ≡ record self.old { faults = one_more self.old.faults } }
        ensures later { self.old.faults ≤ self.new.faults }
    {
        count_fault(&mut self.faults)
    }

    pub(crate) fn faults(&self) -> u64
        ensures { result ≡ self.now.faults }
    {
        self.faults
    }
}
