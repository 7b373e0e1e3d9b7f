// Learned clauses.
ghost use Rattle.std.specs.Prelude.{◌≡◌, ◌≤◌, ◌∷◌, [], None, true, length, All, IfOk, OnOk, OnErr};
ghost use Rattle.rup_model.specs.Rup.{rup};
ghost use Rattle.rup_model.specs.declared.journal.Kind.TheVariants.{Learn};
ghost use Rattle.ring_port.specs.PortState.{IsPort, IsOn, known};
ghost use Rattle.ring_port.specs.Log.{KeepsLog};
ghost use Rattle.ring_port.specs.Port.{is_usable, IsClause, IsFreshClause, AreHints, EndsWith, ClausePut, UnitPut, Learned, KeepsHeld};
ghost use Rattle.ring_pass.specs.RingState.{IsBuffer};

use crate::additions::add_clause;
use crate::pass::RingPass;
use crate::refusals::refuse;
use crate::sights::{leave_out, list_unit};
use crate::spares::Spares;
use crate::turns::write_unit;
use io_edge::Sink;
use ring_port::{Gate, Point, PortStop};
use rup_model::Kind;
use sat_words::{Cref, Lit};
use std::alloc::{AllocError, Global};
use std::sync::Wait;

/// So many empty buffers, each for this many literals.
fn empty_buffers(alloc: Global, count: usize, size: usize) -> Result<Vec<Vec<Lit>>, AllocError>
    ensures { IfOk result (λ bs. All (IsBuffer size) bs.items × (length bs.items ≡ count)) }
{
    let mut buffers = Vec::with_capacity(alloc, count)?;
    for i in 0..count {
        let _made = i;
        let buffer = Vec::with_capacity(alloc, size)?;
        buffers.push_reserved(buffer);
    }
    Ok(buffers)
}

/// Makes sure of this many buffers, each for this many literals and for no fewer than before. If memory runs out all stays as
/// it was.
fn make_spares(
    alloc: Global,
    spares: &mut Spares,
    count: usize,
    size: usize,
) -> Result<(), AllocError>
    requires buffers { All (IsBuffer spares.old.longest) spares.old.buffers.items }
    ensures made { OnOk result (All (IsBuffer spares.new.longest) spares.new.buffers.items × (count ≤ length spares.new.buffers.items) × (size ≤ spares.new.longest) × (spares.old.longest ≤ spares.new.longest)) }
    ensures places { spares.new.places ≡ spares.old.places }
    ensures same { OnErr result (spares.new ≡ spares.old) }
{
    if spares.buffers.len() >= count && spares.longest >= size {
        return Ok(());
    }
    let longest = size.max(spares.longest);
    let buffers = empty_buffers(alloc, count, longest)?;
    spares.buffers = buffers;
    spares.longest = longest;
    Ok(())
}

impl<'a, S: Sink, G: Gate, H: Wait> RingPass<'a, S, G, H> {
    /// Learns a clause of two literals or more: its line is written, and it is held from then on and may be offered. Room for
    /// what its offer may bring back is taken first.
    fn learn_clause(&mut self, lits: &[Lit], glue: u32, hints: &[u64]) -> Result<Cref, PortStop>
        requires usable { is_usable self.old.refused ≡ true }
        requires long { 2 ≤ length lits.now }
        requires clause { IsClause self.old.vars lits.now }
        requires ticket { self.old.ticket ≡ true }
        requires rup { rup (known self.old) lits.now ≡ true }
        requires fresh { IsFreshClause self.old lits.now }
        requires hints { AreHints self.old lits.now hints.now }
        ensures hints { OnOk result (EndsWith self.new hints.now) }
        ensures learned { ClausePut self.old self.new lits.now glue Learn result }
        ensures kept { KeepsHeld self.old self.new }
        ensures log { KeepsLog self.old self.new }
        ensures port { IsPort self.new }
    {
        let rings = self.table.layout.rings as usize;
        if self.waiting.reserve(rings).is_err() {
            return Err(PortStop::Memory);
        }
        if make_spares(self.alloc, &mut self.spares, rings - 1, lits.len()).is_err() {
            return Err(PortStop::Memory);
        }
        let added = add_clause(
            self.rt,
            self.alloc,
            self.table,
            &mut self.pass,
            self.ring,
            Kind::Learn,
            lits,
            hints,
            glue,
        );
        match added {
            Ok(cell) => {
                self.last = Some(cell);
                self.learned = self.learned.saturating_add(1);
                self.gate.at(self.ring, Point::Learned, self.learned);
                Ok(cell)
            }
            Err(stop) => Err(refuse(&mut self.refused, &mut self.ended, stop)),
        }
    }

    /// Learns a unit: its line is written in one turn, and in a second one it is listed unless another ring has done so.
    fn learn_unit(&mut self, lit: Lit, hints: &[u64]) -> Result<(), PortStop>
        requires usable { is_usable self.old.refused ≡ true }
        requires on { IsOn self.old.vars lit }
        requires ticket { self.old.ticket ≡ true }
        requires rup { rup (known self.old) (lit ∷ []) ≡ true }
        requires fresh { IsFreshClause self.old (lit ∷ []) }
        requires hints { AreHints self.old (lit ∷ []) hints.now }
        ensures hints { OnOk result (EndsWith self.new hints.now) }
        ensures learned { UnitPut self.old self.new lit Learn None result }
        ensures kept { KeepsHeld self.old self.new }
        ensures log { KeepsLog self.old self.new }
        ensures port { IsPort self.new }
    {
        let written = write_unit(
            self.rt,
            self.alloc,
            self.table,
            &mut self.pass,
            self.ring,
            Kind::Learn,
            lit,
            hints,
        );
        match written {
            Ok(number) => {
                list_unit(
                    self.rt,
                    self.alloc,
                    self.table,
                    &mut self.pass,
                    self.ring,
                    lit,
                    number,
                    &mut self.seen,
                    &mut self.arrived,
                    &mut self.numbers,
                );
                leave_out(&mut self.arrived, self.passed, lit);
                self.last = None;
                self.learned = self.learned.saturating_add(1);
                self.gate.at(self.ring, Point::Learned, self.learned);
                Ok(())
            }
            Err(stop) => Err(refuse(&mut self.refused, &mut self.ended, stop)),
        }
    }

    /// Learns a clause that was found at a conflict: its line is written, and it is held from then on with its literals in this
    /// order. Of one literal it is a unit, which has no address and is seen. A refusal leaves the ticket in hand. Hints show that it
    /// follows, if the log has any; else none are given.
    pub fn learn(
        &mut self,
        lits: &[Lit],
        glue: u32,
        hints: &[u64],
    ) -> Result<Option<Cref>, PortStop>
        requires usable { is_usable self.old.refused ≡ true }
        requires some { 1 ≤ length lits.now }
        requires clause { IsClause self.old.vars lits.now }
        requires ticket { self.old.ticket ≡ true }
        requires rup { rup (known self.old) lits.now ≡ true }
        requires fresh { IsFreshClause self.old lits.now }
        requires hints { AreHints self.old lits.now hints.now }
        ensures hints { OnOk result (EndsWith self.new hints.now) }
        ensures learned { Learned self.old self.new lits.now glue result }
        ensures kept { KeepsHeld self.old self.new }
        ensures log { KeepsLog self.old self.new }
        ensures port { IsPort self.new }
    {
        if lits.len() == 1 {
            self.learn_unit(lits[0], hints)?;
            return Ok(None);
        }
        Ok(Some(self.learn_clause(lits, glue, hints)?))
    }
}
