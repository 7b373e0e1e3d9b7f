// The port in memory, which the program never runs: tests search over it, with every byte known to contracts.
ghost use Rattle.std.specs.Prelude.{◌≡◌, ◌≤◌, ◌∷◌, [], true, Some, OnOk, length};
ghost use Rattle.std.specs.Option.{option_map};
ghost use Rattle.rup_model.specs.Rup.{rup};
ghost use Rattle.ring_port.specs.PortState.{IsPort, IsOn, known};
ghost use Rattle.ring_port.specs.Log.{KeepsLog};
ghost use Rattle.ring_port.specs.Port.{is_usable, IsClause, AreHints, EndsWith, KeepsHeld, UnitPut, ClausePut, last_after};
ghost use Rattle.ring_port.specs.Deleting.{TidiedFirst, unless_at};
ghost use Rattle.ring_port.specs.PlainPort.{HasCauseAlone};

use crate::opening_units::{make_unit_room, note_told};
use crate::plain_port::PlainPort;
use crate::stops::PortStop;
use drat_text::LineOut;
use rup_model::{ClauseNumbers, Kind};
use sat_words::{Cref, Lit, Lits};

/// The clause learned last, once one was added.
fn last_after(kind: Kind, last: Option<Cref>, c: Cref) -> Option<Cref>
    ensures { option_map (λ x. x.address) result ≡ last_after kind (option_map (λ x. x.address) last) c.address }
{
    match kind {
        Kind::Learn => Some(c),
        Kind::Ruler | Kind::Derive | Kind::UnitLine => last,
    }
}

/// The clause learned last, unless it is this one.
pub(crate) fn unless_at(last: Option<Cref>, c: Cref) -> Option<Cref>
    ensures { option_map (λ x. x.address) result ≡ unless_at (option_map (λ x. x.address) last) c.address }
{
    match last {
        Some(lemma) if lemma.address != c.address => Some(lemma),
        _ => None,
    }
}

impl<L: LineOut> PlainPort<L> {
    /// Writes the line of a unit, which is seen from then on.
    pub(crate) fn put_unit(
        &mut self,
        lit: Lit,
        kind: Kind,
        last: Option<Cref>,
        hints: &[u64],
    ) -> Result<(), PortStop>
        requires usable { is_usable self.old.state.refused ≡ true }
        requires on { IsOn self.old.state.vars lit }
        requires rup { rup (known self.old.state) (lit ∷ []) ≡ true }
        requires hints { AreHints self.old.state (lit ∷ []) hints.now }
        ensures hints { OnOk result (EndsWith self.new.state hints.now) }
        ensures cause { HasCauseAlone self.old.state self.new.state result }
        ensures put { UnitPut self.old.state self.new.state lit kind (option_map (λ c. c.address) last) result }
        ensures log { KeepsLog self.old.state self.new.state }
        ensures port { IsPort self.new.state }
        ensures loads { self.new.loads ≡ self.old.loads }
    {
        self.log.make_room()?;
        make_unit_room(&mut self.written, &mut self.told)?;
        let Ok(lits) = Lits::from_slice(self.alloc, &[lit]) else {
            return Err(PortStop::Memory);
        };
        let Ok(copy) = ClauseNumbers::from_slice(self.alloc, hints) else {
            return Err(PortStop::Memory);
        };
        let number = self.log.add(lits, kind, copy)?;
        self.written.push_reserved(lit);
        note_told(&mut self.told, self.hinted, lit, number);
        self.last = last;
        self.tickets.use_for(kind);
        Ok(())
    }

    /// How many clauses wait for their deletion.
    pub(crate) fn waits(&self) -> usize
        ensures many { result ≡ length self.now.state.waiting }
        ensures port { IsPort self.now.state }
    {
        self.store.waits()
    }

    /// Writes the line that deletes the first clause that waits, and frees its words.
    pub(crate) fn delete_first(&mut self) -> Result<(), PortStop>
        requires usable { is_usable self.old.state.refused ≡ true }
        requires some { 1 ≤ length self.old.state.waiting }
        ensures cause { HasCauseAlone self.old.state self.new.state result }
        ensures tidied { TidiedFirst self.old.state self.new.state result }
        ensures log { KeepsLog self.old.state self.new.state }
        ensures port { IsPort self.new.state }
        ensures loads { self.new.loads ≡ self.old.loads }
    {
        self.store.free_last()?;
        self.log.make_room()?;
        let Ok(lits) = self.store.first_lits(self.alloc) else {
            return Err(PortStop::Memory);
        };
        let number = self.store.first_head().number;
        self.log.delete(lits.as_slice(), number)?;
        self.store.delete_first();
        Ok(())
    }

    /// Writes the line of a clause of two literals or more, which is held from then on.
    pub(crate) fn put_clause(
        &mut self,
        lits: &[Lit],
        glue: u32,
        kind: Kind,
        hints: &[u64],
    ) -> Result<Cref, PortStop>
        requires usable { is_usable self.old.state.refused ≡ true }
        requires long { 2 ≤ length lits.now }
        requires clause { IsClause self.old.state.vars lits.now }
        requires rup { rup (known self.old.state) lits.now ≡ true }
        requires hints { AreHints self.old.state lits.now hints.now }
        ensures hints { OnOk result (EndsWith self.new.state hints.now) }
        ensures cause { HasCauseAlone self.old.state self.new.state result }
        ensures put { ClausePut self.old.state self.new.state lits.now glue kind result }
        ensures kept { KeepsHeld self.old.state self.new.state }
        ensures log { KeepsLog self.old.state self.new.state }
        ensures port { IsPort self.new.state }
        ensures loads { self.new.loads ≡ self.old.loads }
    {
        self.store.make_room(lits)?;
        self.log.make_room()?;
        let Ok(copy) = Lits::from_slice(self.alloc, lits) else {
            return Err(PortStop::Memory);
        };
        let Ok(numbers) = ClauseNumbers::from_slice(self.alloc, hints) else {
            return Err(PortStop::Memory);
        };
        let number = self.log.add(copy, kind, numbers)?;
        let c = self.store.push(lits, number, glue);
        let last = last_after(kind, self.last, c);
        self.last = last;
        self.tickets.use_for(kind);
        Ok(c)
    }
}
