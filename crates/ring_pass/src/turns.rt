// Turns of the log with one entry.
ghost use Rattle.std.specs.Prelude.{◌≡◌, ◌≤◌, [], ◌∷◌, true, length, OnOk, IfOk, IfErr};
ghost use Rattle.rup_model.specs.declared.journal.TheConstants.{LEARNED_PER_REDUCTION};
ghost use Rattle.rup_model.specs.Journal.{recent};
ghost use Rattle.share_rule.specs.declared.note.Note.TheVariants.{Empty, Reduce};
ghost use Rattle.share_core.specs.Learning.{follows, MayAddUnit};
ghost use Rattle.share_rule.specs.Layout.{InVars};
ghost use Rattle.share_rule.specs.Passes.{IsPassOf};
ghost use Rattle.share_rule.specs.Turns.{IsFree};
ghost use Rattle.share_rule.specs.Views.{only};
ghost use Rattle.ring_pass.specs.Writes.{entries_of, own_opening, Wrote, WroteNone};
ghost use Rattle.ring_pass.specs.Cells.{WroteUnitLine};

use io_edge::Sink;
use log_book::{Book, TurnStop, give_turn, take_turn};
use rup_model::Kind;
use sat_words::Lit;
use share_rule::{Pass, Shared};
use std::alloc::Global;
use std::sync::Wait;

/// Waits for the turn, notes in it that the ring reduces its clauses, and gives it back.
pub(crate) fn write_reduction<H: Wait, S: Sink>(
    rt: &H,
    alloc: Global,
    table: &Shared<Book<S>>,
    pass: &mut Pass<Book<S>>,
    ring: u32,
) -> Result<(), TurnStop>
    requires pass { IsPassOf table.now pass.old × (pass.old.me.1 ≡ []) }
    requires ring { IsFree pass.old.me.0 × (ring ≡ (only pass.old.me.0).core.ring) }
    requires spaced { LEARNED_PER_REDUCTION ≤ length (recent (only pass.old.me.0).core.ring (entries_of (only pass.old.me.0))) }
    ensures pass { IsPassOf table.now pass.new × (pass.new.id ≡ pass.old.id) × (pass.new.me.1 ≡ []) }
    ensures wrote { OnOk result (Wrote pass.old.me.0 pass.new.me.0 Reduce) }
    ensures refused { IfErr result (WroteNone pass.old.me.0 pass.new.me.0) }
{
    let mut turn = take_turn(rt, alloc, table, pass, ring);
    let noted = turn.reduce(pass);
    give_turn(table, pass, turn);
    noted
}

/// Waits for the turn, adds the empty clause in it, and gives it back.
pub(crate) fn write_empty<H: Wait, S: Sink>(
    rt: &H,
    alloc: Global,
    table: &Shared<Book<S>>,
    pass: &mut Pass<Book<S>>,
    ring: u32,
    hints: &[u64],
) -> Result<(), TurnStop>
    requires pass { IsPassOf table.now pass.old × (pass.old.me.1 ≡ []) }
    requires ring { IsFree pass.old.me.0 × (ring ≡ (only pass.old.me.0).core.ring) }
    requires follows { follows pass.old.me.0.opening.hinted (only pass.old.me.0).core [] hints.now ≡ true }
    ensures pass { IsPassOf table.now pass.new × (pass.new.id ≡ pass.old.id) × (pass.new.me.1 ≡ []) }
    ensures wrote { OnOk result (Wrote pass.old.me.0 pass.new.me.0 (Empty hints.now)) }
    ensures refused { IfErr result (WroteNone pass.old.me.0 pass.new.me.0) }
{
    let mut turn = take_turn(rt, alloc, table, pass, ring);
    let added = turn.add_empty(pass, alloc, hints);
    give_turn(table, pass, turn);
    added
}

/// Waits for the turn, adds a unit in it, and gives it back. Answers its number.
pub(crate) fn write_unit<H: Wait, S: Sink>(
    rt: &H,
    alloc: Global,
    table: &Shared<Book<S>>,
    pass: &mut Pass<Book<S>>,
    ring: u32,
    kind: Kind,
    lit: Lit,
    hints: &[u64],
) -> Result<u64, TurnStop>
    requires pass { IsPassOf table.now pass.old × (pass.old.me.1 ≡ []) }
    requires ring { IsFree pass.old.me.0 × (ring ≡ (only pass.old.me.0).core.ring) }
    requires may { MayAddUnit (own_opening pass.old.me.0) (entries_of (only pass.old.me.0)) (only pass.old.me.0).core (only pass.old.me.0).core.ring kind (lit ∷ []) }
    requires follows { follows pass.old.me.0.opening.hinted (only pass.old.me.0).core (lit ∷ []) hints.now ≡ true }
    requires on { InVars pass.old.me.0.layout (lit ∷ []) }
    ensures pass { IsPassOf table.now pass.new × (pass.new.id ≡ pass.old.id) × (pass.new.me.1 ≡ []) }
    ensures wrote { IfOk result (λ n. WroteUnitLine pass.old.me.0 pass.new.me.0 kind lit hints.now n) }
    ensures refused { IfErr result (WroteNone pass.old.me.0 pass.new.me.0) }
{
    let mut turn = take_turn(rt, alloc, table, pass, ring);
    let added = turn.add_unit(pass, alloc, kind, lit, hints);
    give_turn(table, pass, turn);
    added
}
