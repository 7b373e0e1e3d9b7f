// Clauses that the ring adds.
ghost use Rattle.std.specs.Prelude.{◌≡◌, [], true, length, IfOk, IfErr};
ghost use Rattle.rup_model.specs.Opening.{IsLong};
ghost use Rattle.share_core.specs.Learning.{follows, MayAddClause};
ghost use Rattle.share_rule.specs.Layout.{InVars};
ghost use Rattle.share_rule.specs.Passes.{IsPassOf};
ghost use Rattle.share_rule.specs.Turns.{IsFree};
ghost use Rattle.share_rule.specs.Views.{only};
ghost use Rattle.ring_pass.specs.Writes.{entries_of, own_opening, WroteNone};
ghost use Rattle.ring_pass.specs.Cells.{WroteClause};

use io_edge::Sink;
use log_book::{Book, TurnStop, give_turn, take_turn};
use rup_model::Kind;
use sat_words::{Cref, Lit};
use share_rule::{Pass, Shared};
use std::alloc::Global;
use std::sync::Wait;

/// A clause whose line stands.
#[derive(Clone, Copy, Drop)]
pub(crate) struct Stored {
    /// The cell that it is to have.
    pub(crate) cell: Cref,
    /// Its number.
    pub(crate) number: u64,
}

/// Waits for the turn, adds a clause of two literals or more in it, and gives it back. The ring builds the clause's cell.
pub(crate) fn write_clause<H: Wait, S: Sink>(
    rt: &H,
    alloc: Global,
    table: &Shared<Book<S>>,
    pass: &mut Pass<Book<S>>,
    ring: u32,
    kind: Kind,
    lits: &[Lit],
    hints: &[u64],
    glue: u32,
) -> Result<Stored, TurnStop>
    requires pass { IsPassOf table.now pass.old × (pass.old.me.1 ≡ []) }
    requires ring { IsFree pass.old.me.0 × (ring ≡ (only pass.old.me.0).core.ring) }
    requires may { MayAddClause (own_opening pass.old.me.0) (entries_of (only pass.old.me.0)) (only pass.old.me.0).core (only pass.old.me.0).core.ring kind lits.now }
    requires long { IsLong lits.now }
    requires follows { follows pass.old.me.0.opening.hinted (only pass.old.me.0).core lits.now hints.now ≡ true }
    requires on { InVars pass.old.me.0.layout lits.now }
    ensures pass { IsPassOf table.now pass.new × (pass.new.id ≡ pass.old.id) × (pass.new.me.1 ≡ []) }
    ensures wrote { IfOk result (λ x. WroteClause pass.old.me.0 pass.new.me.0 kind lits.now hints.now glue x.cell.address x.number) }
    ensures refused { IfErr result (WroteNone pass.old.me.0 pass.new.me.0) }
{
    let mut turn = take_turn(rt, alloc, table, pass, ring);
    let added = turn.add(pass, alloc, kind, lits, glue, hints);
    let number = turn.last();
    give_turn(table, pass, turn);
    match added {
        Ok(cell) => Ok(Stored { cell, number }),
        Err(stop) => Err(stop),
    }
}
