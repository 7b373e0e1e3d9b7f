// Clauses that the ring adds, with their cells.
ghost use Rattle.std.specs.Prelude.{◌≡◌, [], true, IfOk, IfErr};
ghost use Rattle.rup_model.specs.Opening.{IsLong};
ghost use Rattle.share_core.specs.Learning.{follows, MayAddClause};
ghost use Rattle.share_rule.specs.Layout.{InVars};
ghost use Rattle.share_rule.specs.Passes.{IsPassOf};
ghost use Rattle.share_rule.specs.Turns.{IsFree};
ghost use Rattle.share_rule.specs.Views.{only};
ghost use Rattle.ring_pass.specs.Adding.{Added};
ghost use Rattle.ring_pass.specs.Writes.{entries_of, own_opening, WroteNone};

use crate::cells::store_cell;
use crate::clauses::write_clause;
use io_edge::Sink;
use log_book::{Book, TurnStop};
use ref_count::open_cell;
use rup_model::Kind;
use sat_words::{Cref, Lit};
use share_rule::{Pass, Shared};
use std::alloc::Global;
use std::sync::Wait;

/// Adds a clause of two literals or more in a turn, and then builds its cell, which the ring holds from then on.
pub(crate) fn add_clause<H: Wait, S: Sink>(
    rt: &H,
    alloc: Global,
    table: &Shared<Book<S>>,
    pass: &mut Pass<Book<S>>,
    ring: u32,
    kind: Kind,
    lits: &[Lit],
    hints: &[u64],
    glue: u32,
) -> Result<Cref, TurnStop>
    requires pass { IsPassOf table.now pass.old × (pass.old.me.1 ≡ []) }
    requires ring { IsFree pass.old.me.0 × (ring ≡ (only pass.old.me.0).core.ring) }
    requires may { MayAddClause (own_opening pass.old.me.0) (entries_of (only pass.old.me.0)) (only pass.old.me.0).core (only pass.old.me.0).core.ring kind lits.now }
    requires long { IsLong lits.now }
    requires follows { follows pass.old.me.0.opening.hinted (only pass.old.me.0).core lits.now hints.now ≡ true }
    requires on { InVars pass.old.me.0.layout lits.now }
    ensures pass { IsPassOf table.now pass.new × (pass.new.id ≡ pass.old.id) × (pass.new.me.1 ≡ []) }
    ensures added { IfOk result (λ c. Added pass.old.me.0 pass.new.me.0 kind lits.now hints.now glue c.address) }
    ensures refused { IfErr result (WroteNone pass.old.me.0 pass.new.me.0) }
{
    let line = write_clause(rt, alloc, table, pass, ring, kind, lits, hints, glue)?;
    store_cell(table, pass, line.cell, line.number, glue, lits);
    open_cell(table, pass, line.cell);
    Ok(line.cell)
}
