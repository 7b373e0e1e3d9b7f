// Deletions of the clauses that wait.
ghost use Rattle.std.specs.Prelude.{◌≡◌, [], true, length, OnOk, IfErr};
ghost use Rattle.share_rule.specs.Passes.{IsPassOf};
ghost use Rattle.share_rule.specs.Turns.{IsFree};
ghost use Rattle.share_rule.specs.Views.{only};
ghost use Rattle.ring_port.specs.PortState.{IsPort};
ghost use Rattle.ring_port.specs.Log.{KeepsLog};
ghost use Rattle.ring_port.specs.Port.{is_usable};
ghost use Rattle.ring_port.specs.Deleting.{Tidied};
ghost use Rattle.ring_pass.specs.RingState.{AreWaiting};
ghost use Rattle.ring_pass.specs.Deletions.{Deleted, DeletedSome};

use crate::burials::write_deletions;
use crate::pass::RingPass;
use crate::refusals::refuse;
use crate::waiting::Waiting;
use io_edge::Sink;
use log_book::{Book, TurnStop};
use ring_port::{Gate, PortStop};
use share_rule::{Pass, Shared};
use std::alloc::Global;
use std::sync::Wait;

/// Deletes the clauses that wait, as many in each turn as it may have. Refused it answers how many are deleted.
fn delete_all<H: Wait, S: Sink>(
    rt: &H,
    alloc: Global,
    table: &Shared<Book<S>>,
    pass: &mut Pass<Book<S>>,
    ring: u32,
    waiting: &Vec<Waiting>,
) -> Result<(), (usize, TurnStop)>
    requires pass { IsPassOf table.now pass.old × (pass.old.me.1 ≡ []) }
    requires ring { IsFree pass.old.me.0 × (ring ≡ (only pass.old.me.0).core.ring) }
    requires waiting { AreWaiting waiting.now.items (only pass.old.me.0).core.waiting }
    ensures pass { IsPassOf table.now pass.new × (pass.new.id ≡ pass.old.id) × (pass.new.me.1 ≡ []) }
    ensures deleted { OnOk result (Deleted pass.old.me.0 pass.new.me.0 (length waiting.now.items)) }
    ensures refused { IfErr result (λ e. DeletedSome pass.old.me.0 pass.new.me.0 (length waiting.now.items) e.0 e.1) }
{
    let mut done = 0;
    while done < waiting.len() {
        match write_deletions(rt, alloc, table, pass, ring, &waiting[done..]) {
            Ok(count) => done += count,
            Err((count, stop)) => return Err((done + count, stop)),
        }
    }
    Ok(())
}

impl<'a, S: Sink, G: Gate, H: Wait> RingPass<'a, S, G, H> {
    /// Writes the deletion lines of the clauses that wait, in their order, up to 64 in a turn. After a refusal those not yet
    /// deleted still wait.
    pub fn tidy(&mut self) -> Result<(), PortStop>
        requires usable { is_usable self.old.refused ≡ true }
        ensures tidied { Tidied self.old self.new result }
        ensures log { KeepsLog self.old self.new }
        ensures port { IsPort self.new }
    {
        let deleted = delete_all(
            self.rt,
            self.alloc,
            self.table,
            &mut self.pass,
            self.ring,
            &self.waiting,
        );
        match deleted {
            Ok(()) => {
                self.waiting.clear();
                Ok(())
            }
            Err((count, stop)) => {
                drop(self.waiting.drain(..count));
                Err(refuse(&mut self.refused, &mut self.ended, stop))
            }
        }
    }
}
