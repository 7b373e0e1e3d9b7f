//! A ring that draws its first ticket.
ghost use Rattle.std.specs.Prelude.{◌≡◌, ◌∷◌, [], ℕ};
ghost use Rattle.share_core.specs.declared.part.CoreOpening.{CoreOpening};
ghost use Rattle.share_rule.specs.Passes.{IsPassOf};
ghost use Rattle.share_rule.specs.Steps.{new_part};
ghost use Rattle.share_rule.specs.Tickets.{after_draw};
ghost use Rattle.ticket_word.specs.Draws.{IsDrawn};

use share_rule::{Ledger, Shared};
use test_tables::Ring;
use ticket_word::{Drawn, draw};

/// Draws for a ring that has taken its grant, and no step since.
pub fn draw_first<B: Ledger>(table: &Shared<B>, ring: &mut Ring<B>) -> Drawn
    requires pass { IsPassOf table.now ring.old.pass }
    requires new { (o : CoreOpening) × (r : ℕ) × (ring.old.pass.me.0.parts ≡ new_part o r ∷ []) }
    ensures pass { IsPassOf table.now ring.new.pass }
    ensures part { (found : ℕ) × (ring.new.pass.me.0 ≡ after_draw found ring.old.pass.me.0) × IsDrawn ring.old.pass.me.0.opening.limit found result }
    ensures same { ring.new.ring ≡ ring.old.ring }
{
    draw(table, &mut ring.pass)
}
