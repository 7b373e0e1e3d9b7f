//! That the step on the tickets is its event.
ghost use Rattle.std.specs.Prelude.{◌≡◌, ℕ, ◌+◌, ◌%◌, ◌^◌, ◌≤◌, true, [], slice_index, Option};
ghost use mathlib.Core.Option.{some};
ghost use lib.ListN.{get_elem?};
ghost use Rattle.atomic_table.specs.Table.{State as Table, stepped, keeps};
ghost use Rattle.share_core.specs.declared.event.Event.TheVariants.{Draw};
ghost use Rattle.share_core.specs.Events.{after};
ghost use Rattle.share_rule.specs.declared.rule.Key.{Key};
ghost use Rattle.share_rule.specs.declared.view.View.{View};
ghost use Rattle.share_rule.specs.Books.{StandsFor};
ghost use Rattle.share_rule.specs.Layout.{ticket_at};
ghost use Rattle.share_rule.specs.Shown.{Shows, ring_of};
ghost use Rattle.share_rule.specs.Tickets.{MayDraw, after_draw};
ghost use Rattle.share_rule.specs.Views.{only, is_ready};

use crate::Ledger;

/// Drawing is its event, and finds how many were drawn, which are no fewer than the ring had found before.
pub fn a_draw_is_its_event<B: Ledger>()
    ensures { (k : Key) (s : Table (Option B) View) (h : Shows (StandsFor B.account B.stands) k.layout s) (id : ℕ) (v : View) → get_elem? s.views id ≡ some v → is_ready v.stage ≡ true → MayDraw v
        → (n : Shows (StandsFor B.account B.stands) k.layout (stepped s (ticket_at v.layout) ((slice_index s.words (ticket_at v.layout) + 1) % 2 ^ 64) id [] (after_draw (slice_index s.words (ticket_at v.layout)) v) keeps)) × (n.core ≡ after h.core (Draw (ring_of (only v))))
        × (slice_index s.words (ticket_at v.layout) ≡ h.core.drawn) × ((only v).core.found ≤ h.core.drawn) }
{}
