// Turns of the log that delete clauses.
ghost use Rattle.std.specs.Prelude.{◌≡◌, ◌<◌, ◌≤◌, [], length, min, IfOk, OnOk, IfErr};
ghost use Rattle.share_rule.specs.Passes.{IsPassOf};
ghost use Rattle.share_rule.specs.Seen.{Seen};
ghost use Rattle.share_rule.specs.Turns.{IsFree};
ghost use Rattle.share_rule.specs.Views.{only};
ghost use Rattle.log_book.specs.Turns.{IsTurn};
ghost use Rattle.ring_pass.specs.RingState.{AreWaiting};
ghost use Rattle.ring_pass.specs.Deletions.{Deleted, DeletedSome, Buried, BuriedSome};

use crate::waiting::Waiting;
use io_edge::Sink;
use log_book::{Book, Turn, TurnStop, give_turn, take_turn};
use share_rule::{Pass, Shared};
use std::alloc::Global;
use std::sync::Wait;

/// How many clauses a ring deletes in one turn.
const DELETIONS_IN_TURN: usize = 64;

/// Deletes the first of the clauses that wait, this many and in order, in a turn in which nothing is written yet. Refused it
/// answers how many are deleted.
fn bury_first<S: Sink>(
    turn: &mut Turn<S>,
    pass: &Pass<Book<S>>,
    waiting: &[Waiting],
    count: usize,
) -> Result<(), (usize, TurnStop)>
    requires seen { Seen pass.now.me.0 }
    requires turn { IsTurn S.written S.flushed S.target S.faults pass.now.me.0 turn.old }
    requires none { turn.old.noted.items ≡ [] }
    requires waiting { AreWaiting waiting.now (only pass.now.me.0).core.waiting }
    requires count { count ≤ length waiting.now }
    ensures buried { OnOk result (Buried S.written S.flushed S.target S.faults pass.now.me.0 turn.old turn.new waiting.now count) }
    ensures refused { IfErr result (λ e. BuriedSome S.written S.flushed S.target S.faults pass.now.me.0 turn.old turn.new waiting.now count e.0 e.1) }
{
    for i in 0..count {
        let clause = &waiting[i];
        match turn.bury(pass, clause.cell, clause.number, clause.lits.as_slice()) {
            Ok(()) => {}
            Err(stop) => return Err((i, stop)),
        }
    }
    Ok(())
}

/// Waits for the turn, deletes the first of the clauses that wait in it, as many as a turn may, and gives it back. It answers
/// how many are deleted, also where it is refused.
pub(crate) fn write_deletions<H: Wait, S: Sink>(
    rt: &H,
    alloc: Global,
    table: &Shared<Book<S>>,
    pass: &mut Pass<Book<S>>,
    ring: u32,
    waiting: &[Waiting],
) -> Result<usize, (usize, TurnStop)>
    requires pass { IsPassOf table.now pass.old × (pass.old.me.1 ≡ []) }
    requires ring { IsFree pass.old.me.0 × (ring ≡ (only pass.old.me.0).core.ring) }
    requires waiting { AreWaiting waiting.now (only pass.old.me.0).core.waiting }
    requires some { 0 < length waiting.now }
    ensures pass { IsPassOf table.now pass.new × (pass.new.id ≡ pass.old.id) × (pass.new.me.1 ≡ []) }
    ensures many { IfOk result (λ k. k ≡ min (length waiting.now) 64) }
    ensures deleted { IfOk result (Deleted pass.old.me.0 pass.new.me.0) }
    ensures refused { IfErr result (λ e. DeletedSome pass.old.me.0 pass.new.me.0 (length waiting.now) e.0 e.1) }
{
    let count = waiting.len().min(DELETIONS_IN_TURN);
    let mut turn = take_turn(rt, alloc, table, pass, ring);
    let buried = bury_first(&mut turn, pass, waiting, count);
    give_turn(table, pass, turn);
    match buried {
        Ok(()) => Ok(count),
        Err((done, stop)) => Err((done, stop)),
    }
}
