//! The words of a store that are free.
//! The port in memory, which the program never runs: tests search over it, with every byte known to contracts.
ghost use Rattle.std.specs.Prelude.{◌≡◌, ℕ, ◌<◌, ◌≤◌, ◌+◌, ◌^◌, ◌||◌, false, [], None, OnOk, OnErr, IfErr, IfSome};
ghost use Rattle.clause_cell.specs.Free.{is_free, is_within};
ghost use Rattle.ring_port.specs.Spare.{IsTaken};

use crate::stops::PortStop;
use clause_cell::Holes;
use std::alloc::Global;
use std::marker::Model;

/// The free words. Before the first are given back there is no list of them.
#[derive(Drop)]
pub(crate) struct Spare {
    alloc: Global,
    holes: Option<Holes>,
}

impl Model for Spare {
    ghost use Rattle.std.specs.Prelude.{List, [], ◌≡◌, true};
    ghost use Rattle.std.specs.Option.{unwrap_or};
    ghost use Rattle.clause_cell.specs.declared.holes.Hole.{Hole};
    ghost use Rattle.clause_cell.specs.Free.{is_apart};

    ghost Value = { List Hole };

    ghost view = { λ s. unwrap_or s.holes [] };

    ghost invariant = { λ s. is_apart 0 (unwrap_or s.holes []) ≡ true };
}

impl Spare {
    /// No word is free.
    pub(crate) fn new(alloc: Global) -> Self
        ensures { result ≡ [] }
    {
        Spare { alloc, holes: None }
    }

    /// Takes this many words from the front of the first stretch that has them.
    pub(crate) fn take(&mut self, need: u64) -> Option<u64>
        requires { 0 < need }
        ensures taken { IfSome result (λ first. IsTaken self.old self.new first need) }
        ensures none { result ≡ None → self.new ≡ self.old }
    {
        if let Some(holes) = &mut self.holes {
            if let Ok(first) = holes.take(need) {
                return Some(first);
            }
        }
        None
    }

    /// Gives words back, of which none is free.
    pub(crate) fn give(&mut self, first: u64, len: u64) -> Result<(), PortStop>
        requires range { (0 < len) × (first + len ≤ 2 ^ 63) }
        requires busy { (w : ℕ) → first ≤ w → w < first + len → is_free self.old w ≡ false }
        ensures given { OnOk result ((w : ℕ) → is_free self.new w ≡ (is_within first len w || is_free self.old w)) }
        ensures back { OnErr result (self.new ≡ self.old) }
        ensures memory { IfErr result (λ stop. stop ≡ PortStop.Memory) }
    {
        if let Some(holes) = &mut self.holes {
            if holes.give(first, len).is_err() {
                return Err(PortStop::Memory);
            }
            return Ok(());
        }
        let Ok(holes) = Holes::new(self.alloc, first, len) else {
            return Err(PortStop::Memory);
        };
        self.holes = Some(holes);
        Ok(())
    }
}
