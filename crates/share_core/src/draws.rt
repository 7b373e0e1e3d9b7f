//! Tickets: each lets a ring learn one clause.
//! The executable core, which the program never runs: it makes the definitions of specs/ run, for tests.
ghost use Rattle.std.specs.Prelude.{◌≡◌, length};
ghost use Rattle.share_core.specs.declared.event.Event.TheVariants.{Draw};
ghost use Rattle.share_core.specs.Enabled.{IsEnabled};
ghost use Rattle.share_core.specs.Learning.{ticket_after};
ghost use Rattle.share_core.specs.Events.{after};
ghost use Rattle.share_core.specs.Guards.{is_enabled};
ghost use Rattle.share_core.specs.Machine.{data_of, state_of, Logged, Kept};

use crate::progress::{Origin, Progress};
use rup_model::Kind;

/// Whether a ticket is in hand after something of this kind was added.
pub(crate) fn ticket_after(kind: Kind, ticket: bool) -> bool
    ensures { result ≡ ticket_after kind ticket }
{
    match kind {
        Kind::Learn => false,
        Kind::Ruler | Kind::Derive | Kind::UnitLine => ticket,
    }
}

impl Progress {
    /// Whether the ring has no ticket in hand, and each draw of it so far found one left.
    pub(crate) fn may_draw(&self, origin: &Origin, ring: u32) -> bool
        ensures { result ≡ is_enabled (state_of (data_of origin.now self.now)) (Draw ring) }
    {
        self.is_ring(ring) && !self.ring(ring).ticket && self.ring(ring).found <= origin.limit
    }

    /// One more ticket is drawn, and the ring has it in hand if there was one left.
    pub(crate) fn draw(&mut self, origin: &Origin, ring: u32)
        requires kept { Kept (data_of origin.now self.old) }
        requires enabled { IsEnabled (state_of (data_of origin.now self.old)) (Draw ring) }
        ensures after { state_of (data_of origin.now self.new) ≡ after (state_of (data_of origin.now self.old)) (Draw ring) }
        ensures logged { Logged (data_of origin.now self.new) }
        ensures wide { length self.new.slots.items ≡ length self.old.slots.items }
    {
        let left = self.drawn < origin.limit;
        let drawn = self.drawn + 1;
        let own = &mut self.rings[ring as usize];
        own.ticket = left;
        own.found = drawn;
        self.drawn = drawn;
    }
}
