//! Tickets, each for one lemma.
ghost use Rattle.std.specs.Prelude.{◌≡◌, ◌+◌, ◌<◌, ◌≤◌, nat_le, false};
ghost use Rattle.ring_port.specs.Port.{ticket_after};

use rup_model::Kind;

/// What a ring got when it asked for a ticket.
#[derive(Clone, Copy, PartialEq, Eq, Debug, Drop)]
pub enum Drawn {
    /// A ticket, with which it may learn one lemma.
    Ticket,
    /// None: all have been drawn.
    Gone,
}

/// The tickets of a ring that draws alone.
#[derive(Drop)]
pub(crate) struct Tickets {
    /// A ticket is in hand.
    pub(crate) in_hand: bool,
    /// How often a ticket was asked for; at the end one more than there are.
    pub(crate) found: u128,
    /// How many tickets there are.
    pub(crate) limit: u64,
}

impl Tickets {
    /// So many tickets, none of which is drawn.
    pub(crate) fn new(limit: u64) -> Tickets
        ensures { result ≡ record { in_hand = false; found = 0; limit = limit } }
    {
        Tickets {
            in_hand: false,
            found: 0,
            limit,
        }
    }

    /// Draws the next ticket, if there is one.
    pub(crate) fn draw(&mut self) -> Drawn
        requires { self.old.found ≤ self.old.limit }
        ensures state { self.new ≡ record self.old { in_hand = nat_le (self.old.found + 1) self.old.limit; found = self.old.found + 1 } }
        ensures ticket { result ≡ Drawn.Ticket → self.new.found ≤ self.new.limit }
        ensures gone { result ≡ Drawn.Gone → self.new.limit < self.new.found }
    {
        self.found += 1;
        self.in_hand = self.found <= self.limit as u128;
        if self.in_hand {
            Drawn::Ticket
        } else {
            Drawn::Gone
        }
    }

    /// Uses the ticket up if a clause of this kind needs one.
    pub(crate) fn use_for(&mut self, kind: Kind)
        ensures { self.new ≡ record self.old { in_hand = ticket_after kind self.old.in_hand } }
    {
        match kind {
            Kind::Learn => self.in_hand = false,
            Kind::Ruler | Kind::Derive | Kind::UnitLine => {}
        }
    }
}
