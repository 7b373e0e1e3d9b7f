// Clauses given up.
ghost use Rattle.std.specs.Prelude.{◌≡◌, ◌≢◌, IsSome};
ghost use Rattle.ring_port.specs.PortState.{IsPort, held_at};
ghost use Rattle.ring_port.specs.Log.{KeepsLog};
ghost use Rattle.ring_port.specs.Deleting.{IsNotTaken, Dropped};
ghost use Rattle.ring_pass.specs.Giving.{unless_cell};

use crate::literals::read_clause;
use crate::pass::RingPass;
use crate::waiting::Waiting;
use io_edge::Sink;
use ref_count::{drop_count, read_head};
use ring_port::{Gate, Point, PortStop};
use sat_words::Cref;

/// The clause learned last, unless it is this one.
fn unless_at(last: Option<Cref>, c: Cref) -> Option<Cref>
    ensures { result ≡ unless_cell last c.address }
{
    match last {
        Some(lemma) if lemma.address != c.address => Some(lemma),
        _ => None,
    }
}

impl<'a, S: Sink, G: Gate, H> RingPass<'a, S, G, H> {
    /// Holds the clause once less. If nobody holds it any more it waits for its deletion: its number and its literals are
    /// read before its count is given up, and room for them is taken first.
    pub fn drop_clause(&mut self, c: Cref) -> Result<(), PortStop>
        requires held { IsSome (held_at self.old c.address) }
        requires apart { IsNotTaken self.old c.address }
        ensures dropped { Dropped self.old self.new c.address result }
        ensures log { KeepsLog self.old self.new }
        ensures port { IsPort self.new }
    {
        let head = read_head(self.table, &mut self.pass, c);
        let rings = self.table.layout.rings as usize;
        if self.waiting.reserve(rings).is_err() {
            return Err(PortStop::Memory);
        }
        let Ok(mut lits) = Vec::with_capacity(self.alloc, head.size as usize) else {
            return Err(PortStop::Memory);
        };
        read_clause(self.table, &mut self.pass, c, head.size, &mut lits);
        self.last = unless_at(self.last, c);
        match drop_count(self.table, &mut self.pass, c) {
            ref_count::Dropped::Left => Ok(()),
            ref_count::Dropped::Last => {
                self.waiting.push_reserved(Waiting {
                    cell: c,
                    number: head.number,
                    lits,
                });
                self.gate.at(self.ring, Point::Dropped, self.learned);
                Ok(())
            }
        }
    }
}
