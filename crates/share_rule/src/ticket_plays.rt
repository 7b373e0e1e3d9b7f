//! The kind of step on the tickets, and what it says the pass that takes it.
use crate::View;
use atomic_table::Play;

/// The fetch_add that draws a ticket.
pub struct Draws;

impl<S> Play<S, View> for Draws {
    ghost use Rattle.share_rule.specs.TicketsTold.{did_draw};

    ghost then = { did_draw };
}
