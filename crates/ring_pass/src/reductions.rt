// Reductions.
ghost use Rattle.std.specs.Prelude.{◌≡◌, true};
ghost use Rattle.ring_port.specs.PortState.{IsPort};
ghost use Rattle.ring_port.specs.Log.{KeepsLog};
ghost use Rattle.ring_port.specs.Port.{is_usable};
ghost use Rattle.ring_port.specs.Reducing.{MayReduce, Noted};

use crate::pass::RingPass;
use crate::refusals::refuse;
use crate::turns::write_reduction;
use io_edge::Sink;
use ring_port::{Gate, PortStop};
use std::sync::Wait;

impl<'a, S: Sink, G: Gate, H: Wait> RingPass<'a, S, G, H> {
    /// Notes that the ring reduces its clauses: what it learned and took before need not be kept from now on. The log has no
    /// line for it.
    pub fn note_reduce(&mut self) -> Result<(), PortStop>
        requires usable { is_usable self.old.refused ≡ true }
        requires spaced { MayReduce self.old }
        ensures noted { Noted self.old self.new result }
        ensures log { KeepsLog self.old self.new }
        ensures port { IsPort self.new }
    {
        let noted = write_reduction(self.rt, self.alloc, self.table, &mut self.pass, self.ring);
        match noted {
            Ok(()) => {
                self.taken.clear();
                Ok(())
            }
            Err(stop) => Err(refuse(&mut self.refused, &mut self.ended, stop)),
        }
    }
}
