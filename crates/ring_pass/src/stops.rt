// The calls on the stop.
ghost use Rattle.std.specs.Prelude.{◌≡◌, ◌≤◌, true};
ghost use Rattle.sat_words.specs.declared.shared.TheConstants.{STOP_SAT, STOP_REFUTED, STOP_MEMORY};
ghost use Rattle.ring_port.specs.PortState.{IsPort};
ghost use Rattle.ring_port.specs.Log.{KeepsLog};
ghost use Rattle.ring_port.specs.Port.{Looked, SetStop};

use crate::pass::RingPass;
use io_edge::Sink;
use ring_port::Gate;
use sat_words::{Set, Stop};

impl<'a, S: Sink, G: Gate, H> RingPass<'a, S, G, H> {
    /// The stop that stands, if any. None comes of a look at the table's word that found none, and is counted.
    pub fn stopped(&mut self) -> Option<Stop>
        ensures looked { Looked self.old self.new result }
        ensures log { KeepsLog self.old self.new }
        ensures port { IsPort self.new }
    {
        stop_word::look(self.table, &mut self.pass)
    }

    /// Sets this ring's stop, one of the kinds from `STOP_SAT` to `STOP_MEMORY`, if none stands.
    pub fn stop(&mut self, kind: u8) -> Set
        requires low { STOP_SAT ≤ kind }
        requires high { kind ≤ STOP_MEMORY }
        requires refuted { kind ≡ STOP_REFUTED → self.old.ended ≡ true }
        ensures set { SetStop self.old self.new kind result }
        ensures log { KeepsLog self.old self.new }
        ensures port { IsPort self.new }
    {
        let stop = Stop {
            kind,
            ring: self.ring,
        };
        stop_word::set(self.table, &mut self.pass, stop)
    }
}
