// The calls on units.
ghost use Rattle.std.specs.Prelude.{◌≡◌, ◌∷◌, [], true, ℕ, MatchOption, OnOk, Contains};
ghost use Rattle.rup_model.specs.Rup.{rup};
ghost use Rattle.ring_port.specs.PortState.{IsPort, IsOn, known};
ghost use Rattle.ring_port.specs.Log.{KeepsLog};
ghost use Rattle.ring_port.specs.Port.{is_usable, AreHints, EndsWith, Took, UnitWritten};

use crate::numbers::number_of;
use crate::pass::RingPass;
use crate::refusals::refuse;
use crate::sights::{leave_out, list_unit, see_next};
use crate::turns::write_unit;
use io_edge::Sink;
use ring_port::{Gate, PortStop};
use rup_model::Kind;
use sat_words::Lit;
use std::sync::Wait;

impl<'a, S: Sink, G: Gate, H> RingPass<'a, S, G, H> {
    /// The next unit that this ring has not been given: one that was seen before and kept, or else the next that is listed.
    /// None exactly if none is kept and as many units are listed, by the count that was read, as the ring has seen.
    pub fn next_unit(&mut self) -> Option<Lit>
        ensures took { Took self.old self.new result }
        ensures log { KeepsLog self.old self.new }
        ensures port { IsPort self.new }
    {
        if self.passed < self.arrived.len() {
            let lit = self.arrived[self.passed];
            self.passed += 1;
            return Some(lit);
        }
        let lit = see_next(
            self.table,
            &mut self.pass,
            &mut self.seen,
            &mut self.arrived,
            &mut self.numbers,
        )?;
        self.passed += 1;
        Some(lit)
    }

    /// The number of a unit's clause; none exactly if the port knows no number of it.
    pub fn unit_number(&self, lit: Lit) -> Option<u64>
        requires hinted { self.now.hinted ≡ true }
        ensures told { MatchOption result ((n : ℕ) → Contains self.now.told (lit, n) → ⊥) (λ n. Contains self.now.told (lit, n)) }
        ensures port { IsPort self.now }
    {
        number_of(self.numbers.as_slice(), lit)
    }
}

impl<'a, S: Sink, G: Gate, H: Wait> RingPass<'a, S, G, H> {
    /// Writes the line of a literal that propagation made true for good, and lists it for the other rings. The line is written in one
    /// turn; in a second one all listed units are seen, and this one is listed unless another ring has done so. Hints show that it
    /// follows, if the log has any; else none are given.
    pub fn unit(&mut self, lit: Lit, hints: &[u64]) -> Result<(), PortStop>
        requires usable { is_usable self.old.refused ≡ true }
        requires on { IsOn self.old.vars lit }
        requires rup { rup (known self.old) (lit ∷ []) ≡ true }
        requires hints { AreHints self.old (lit ∷ []) hints.now }
        ensures hints { OnOk result (EndsWith self.new hints.now) }
        ensures written { UnitWritten self.old self.new lit result }
        ensures log { KeepsLog self.old self.new }
        ensures port { IsPort self.new }
    {
        let written = write_unit(
            self.rt,
            self.alloc,
            self.table,
            &mut self.pass,
            self.ring,
            Kind::UnitLine,
            lit,
            hints,
        );
        match written {
            Ok(number) => {
                list_unit(
                    self.rt,
                    self.alloc,
                    self.table,
                    &mut self.pass,
                    self.ring,
                    lit,
                    number,
                    &mut self.seen,
                    &mut self.arrived,
                    &mut self.numbers,
                );
                leave_out(&mut self.arrived, self.passed, lit);
                Ok(())
            }
            Err(stop) => Err(refuse(&mut self.refused, &mut self.ended, stop)),
        }
    }
}
