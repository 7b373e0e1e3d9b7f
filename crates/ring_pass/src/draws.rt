// Tickets.
ghost use Rattle.std.specs.Prelude.{◌≡◌, ◌≤◌, false};
ghost use Rattle.ring_port.specs.PortState.{IsPort};
ghost use Rattle.ring_port.specs.Log.{KeepsLog};
ghost use Rattle.ring_port.specs.Drawing.{HasDrawn};

use crate::pass::RingPass;
use io_edge::Sink;
use ring_port::{Drawn, Gate};

impl<'a, S: Sink, G: Gate, H> RingPass<'a, S, G, H> {
    /// Draws one of the tickets that the rings share, unless all are drawn. It is one step on a word of the table, and waits for
    /// nobody.
    pub fn draw(&mut self) -> Drawn
        requires none { self.old.ticket ≡ false }
        requires left { self.old.found ≤ self.old.limit }
        ensures drawn { HasDrawn self.old self.new result }
        ensures log { KeepsLog self.old self.new }
        ensures port { IsPort self.new }
    {
        ticket_word::draw(self.table, &mut self.pass)
    }
}
