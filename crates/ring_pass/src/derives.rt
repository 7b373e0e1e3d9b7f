// Derived clauses.
ghost use Rattle.std.specs.Prelude.{◌≡◌, ◌≤◌, true, length, OnOk};
ghost use Rattle.rup_model.specs.Rup.{rup};
ghost use Rattle.ring_port.specs.PortState.{IsPort, known};
ghost use Rattle.ring_port.specs.Log.{KeepsLog};
ghost use Rattle.ring_port.specs.Port.{is_usable, IsClause, IsPartOfHeld, AreHints, EndsWith, Derived, KeepsHeld};

use crate::additions::add_clause;
use crate::pass::RingPass;
use crate::refusals::refuse;
use io_edge::Sink;
use ring_port::{Gate, PortStop};
use rup_model::Kind;
use sat_words::{Cref, Lit};
use std::sync::Wait;

impl<'a, S: Sink, G: Gate, H: Wait> RingPass<'a, S, G, H> {
    /// Derives a clause that is a part of one that is held: its line is written, and it is held from then on with its literals
    /// in this order. It counts as none that was learned. Hints show that it follows, if the log has any; else none are given.
    pub fn derive(&mut self, lits: &[Lit], glue: u32, hints: &[u64]) -> Result<Cref, PortStop>
        requires usable { is_usable self.old.refused ≡ true }
        requires long { 2 ≤ length lits.now }
        requires clause { IsClause self.old.vars lits.now }
        requires rup { rup (known self.old) lits.now ≡ true }
        requires part { IsPartOfHeld self.old lits.now }
        requires hints { AreHints self.old lits.now hints.now }
        ensures hints { OnOk result (EndsWith self.new hints.now) }
        ensures derived { Derived self.old self.new lits.now glue result }
        ensures kept { KeepsHeld self.old self.new }
        ensures log { KeepsLog self.old self.new }
        ensures port { IsPort self.new }
    {
        let added = add_clause(
            self.rt,
            self.alloc,
            self.table,
            &mut self.pass,
            self.ring,
            Kind::Derive,
            lits,
            hints,
            glue,
        );
        match added {
            Ok(cell) => Ok(cell),
            Err(stop) => Err(refuse(&mut self.refused, &mut self.ended, stop)),
        }
    }
}
