// The calls on clauses of other rings.
ghost use Rattle.std.specs.Prelude.{◌≡◌, ◌≢◌, ◌<◌, ◌≤◌};
ghost use Rattle.ring_port.specs.PortState.{IsPort};
ghost use Rattle.ring_port.specs.Log.{KeepsLog};
ghost use Rattle.ring_port.specs.Port.{KeepsHeld};
ghost use Rattle.ring_port.specs.Exchange.{Polled};

use crate::pass::RingPass;
use io_edge::Sink;
use ring_port::{Gate, PortStop};
use sat_words::Cref;

impl<'a, S: Sink, G: Gate, H> RingPass<'a, S, G, H> {
    /// Takes the clause of a class that another ring has put for this one at a place, which is held from then on. None exactly
    /// if the slot of that ring for this class at this place was empty. It is refused for want of memory alone, before it looks.
    pub fn poll(&mut self, from: u32, class: u8, place: u32) -> Result<Option<Cref>, PortStop>
        requires other { from ≢ self.old.ring }
        requires ring { from < self.old.rings }
        requires class { class ≤ 3 }
        requires place { place < self.old.depth }
        ensures polled { Polled self.old self.new from class place result }
        ensures kept { KeepsHeld self.old self.new }
        ensures log { KeepsLog self.old self.new }
        ensures port { IsPort self.new }
    {
        if self.taken.reserve(1).is_err() {
            return Err(PortStop::Memory);
        }
        let found = pool_exchange::get(self.table, &mut self.pass, self.ring, from, class, place);
        self.polled = self.polled.saturating_add(1);
        match found {
            None => Ok(None),
            Some(c) => {
                self.taken.push_reserved(c);
                Ok(Some(c))
            }
        }
    }
}
