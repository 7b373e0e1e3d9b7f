//! Drawing a ticket.
ghost use Rattle.std.specs.Prelude.{◌≡◌, ◌≤◌, ℕ};
ghost use Rattle.share_rule.specs.Passes.{IsPassOf, IsSamePass};
ghost use Rattle.share_rule.specs.Tickets.{MayDraw, after_draw};
ghost use Rattle.share_rule.specs.Views.{only};
ghost use Rattle.ticket_word.specs.Draws.{IsDrawn};

use ring_port::Drawn;
use share_rule::{Draws, Ledger, Pass, Shared};

/// Draws a ticket for the pass's ring, with which it may learn one clause. The ring has none in hand, and each draw of it
/// so far found one left. Gone exactly if as many as the limit were drawn before; then the ring draws no more.
pub fn draw<B: Ledger>(table: &Shared<B>, pass: &mut Pass<B>) -> Drawn
    requires pass { IsPassOf table.now pass.old }
    requires may { MayDraw pass.old.me.0 }
    ensures pass { IsPassOf table.now pass.new × IsSamePass pass.old pass.new }
    ensures part { (found : ℕ) × (pass.new.me.0 ≡ after_draw found pass.old.me.0) × ((only pass.old.me.0).core.found ≤ found) × IsDrawn pass.old.me.0.opening.limit found result }
{
    let ticket = table.layout.ticket();
    let words = &table.table.shared;
    let found = words.fetch_add::<Draws>(pass, ticket, 1);
    if found < table.layout.conflicts {
        Drawn::Ticket
    } else {
        Drawn::Gone
    }
}
