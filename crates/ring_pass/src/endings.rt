// The end of the log.
ghost use Rattle.std.specs.Prelude.{◌≡◌, [], true, OnOk};
ghost use Rattle.rup_model.specs.Rup.{rup};
ghost use Rattle.ring_port.specs.PortState.{IsPort, known};
ghost use Rattle.ring_port.specs.Log.{KeepsLog};
ghost use Rattle.ring_port.specs.Port.{is_usable, AreHints, EndsWith, EmptyWritten};

use crate::pass::RingPass;
use crate::refusals::refuse;
use crate::turns::write_empty;
use io_edge::Sink;
use ring_port::{Gate, PortStop};
use std::sync::Wait;

impl<'a, S: Sink, G: Gate, H: Wait> RingPass<'a, S, G, H> {
    /// Writes the empty clause, which ends the log. Hints show that it follows, if the log has any; else none are given.
    pub fn empty(&mut self, hints: &[u64]) -> Result<(), PortStop>
        requires usable { is_usable self.old.refused ≡ true }
        requires rup { rup (known self.old) [] ≡ true }
        requires hints { AreHints self.old [] hints.now }
        ensures hints { OnOk result (EndsWith self.new hints.now) }
        ensures written { EmptyWritten self.old self.new result }
        ensures log { KeepsLog self.old self.new }
        ensures port { IsPort self.new }
    {
        let written = write_empty(
            self.rt,
            self.alloc,
            self.table,
            &mut self.pass,
            self.ring,
            hints,
        );
        match written {
            Ok(()) => {
                self.ended = true;
                Ok(())
            }
            Err(stop) => Err(refuse(&mut self.refused, &mut self.ended, stop)),
        }
    }
}
