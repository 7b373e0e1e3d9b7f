// The port in memory, which the program never runs: tests search over it, with every byte known to contracts.
ghost use Rattle.std.specs.Prelude.{◌≡◌, ◌+◌, ◌<◌, ◌≤◌, ◌∷◌, ◌⊎◌, [], true, Some, None, IfErr, IfSome, IsSome, OnOk, length, slice_get};
ghost use Rattle.sat_words.specs.Clause.{has};
ghost use Rattle.sat_words.specs.declared.shared.TheConstants.{STOP_SAT, STOP_MEMORY};
ghost use Rattle.rup_model.specs.Rup.{rup};
ghost use Rattle.ring_port.specs.PortState.{IsPort, IsOn, held_at, lits_at, head_of, known, one_more};
ghost use Rattle.ring_port.specs.Log.{KeepsLog};
ghost use Rattle.ring_port.specs.Port.{is_usable, IsClause, AreHints, EndsWith, Learned, Derived, KeepsHeld, UnitWritten, EmptyWritten, Took, Looked, SetStop};
ghost use Rattle.ring_port.specs.Reducing.{Noted};
ghost use Rattle.ring_port.specs.Drawing.{HasDrawn};
ghost use Rattle.ring_port.specs.Deleting.{Dropped, Tidied};
ghost use Rattle.ring_port.specs.Exchange.{class_at, other_rings, OfferedAs};
ghost use Rattle.ring_port.specs.PlainPort.{HasCauseAlone, HasTidyCause};

use crate::draw::Drawn;
use crate::opening_units::{first_new_from, number_of};
use crate::plain_lines::unless_at;
use crate::plain_port::PlainPort;
use crate::port::Port;
use crate::stops::PortStop;
use drat_text::LineOut;
use rup_model::{ClauseNumbers, Kind};
use sat_words::{Cref, Head, Lit, Lits, Set, Stop};

impl<L: LineOut> Port for PlainPort<L> {
    ghost state = { λ p. p.state };

    fn vars(&self) -> u32 {
        self.vars
    }

    /// There is no other ring, so that no slot is used.
    fn depth(&self) -> u32 {
        let _looks = self.looks;
        1
    }

    fn has_hints(&self) -> bool {
        self.hinted
    }

    fn unit_number(&self, lit: Lit) -> Option<u64> {
        number_of(&self.told, lit)
    }

    fn head(&mut self, c: Cref) -> Head
        requires { IsSome (held_at self.old.state c.address) }
        ensures value { IfSome (held_at self.old.state c.address) (λ h. result ≡ head_of h) }
        ensures size { result.size ≡ length (lits_at self.old.state c.address) }
        ensures same { self.new.state ≡ self.old.state }
        ensures port { IsPort self.new.state }
        ensures loads { self.new.loads ≡ one_more self.old.loads }
    {
        self.loads = self.loads.saturating_add(1);
        self.store.head(c)
    }

    fn read_lit(&mut self, c: Cref, i: u32) -> Lit
        requires held { IsSome (held_at self.old.state c.address) }
        requires inside { i < length (lits_at self.old.state c.address) }
        ensures value { slice_get (lits_at self.old.state c.address) i ≡ Some result }
        ensures same { self.new.state ≡ self.old.state }
        ensures port { IsPort self.new.state }
        ensures loads { self.new.loads ≡ one_more self.old.loads }
    {
        self.loads = self.loads.saturating_add(1);
        self.store.lit(c, i)
    }

    fn learn(&mut self, lits: &[Lit], glue: u32, hints: &[u64]) -> Result<Option<Cref>, PortStop>
        requires ticket { self.old.state.ticket ≡ true }
        requires usable { is_usable self.old.state.refused ≡ true }
        requires some { 1 ≤ length lits.now }
        requires clause { IsClause self.old.state.vars lits.now }
        requires rup { rup (known self.old.state) lits.now ≡ true }
        requires hints { AreHints self.old.state lits.now hints.now }
        ensures hints { OnOk result (EndsWith self.new.state hints.now) }
        ensures cause { HasCauseAlone self.old.state self.new.state result }
        ensures learned { Learned self.old.state self.new.state lits.now glue result }
        ensures kept { KeepsHeld self.old.state self.new.state }
        ensures log { KeepsLog self.old.state self.new.state }
        ensures port { IsPort self.new.state }
        ensures loads { self.new.loads ≡ self.old.loads }
    {
        match lits {
            [lit] => {
                self.put_unit(*lit, Kind::Learn, None, hints)?;
                Ok(None)
            }
            _ => Ok(Some(self.put_clause(lits, glue, Kind::Learn, hints)?)),
        }
    }

    fn draw(&mut self) -> Drawn
        requires left { self.old.state.found ≤ self.old.state.limit }
        ensures alone { self.new.state.found ≡ self.old.state.found + 1 }
        ensures drawn { HasDrawn self.old.state self.new.state result }
        ensures log { KeepsLog self.old.state self.new.state }
        ensures port { IsPort self.new.state }
        ensures loads { self.new.loads ≡ self.old.loads }
    {
        self.tickets.draw()
    }

    fn derive(&mut self, lits: &[Lit], glue: u32, hints: &[u64]) -> Result<Cref, PortStop>
        requires usable { is_usable self.old.state.refused ≡ true }
        requires long { 2 ≤ length lits.now }
        requires clause { IsClause self.old.state.vars lits.now }
        requires rup { rup (known self.old.state) lits.now ≡ true }
        requires hints { AreHints self.old.state lits.now hints.now }
        ensures hints { OnOk result (EndsWith self.new.state hints.now) }
        ensures cause { HasCauseAlone self.old.state self.new.state result }
        ensures derived { Derived self.old.state self.new.state lits.now glue result }
        ensures kept { KeepsHeld self.old.state self.new.state }
        ensures log { KeepsLog self.old.state self.new.state }
        ensures port { IsPort self.new.state }
        ensures loads { self.new.loads ≡ self.old.loads }
    {
        self.put_clause(lits, glue, Kind::Derive, hints)
    }

    fn unit(&mut self, lit: Lit, hints: &[u64]) -> Result<(), PortStop>
        requires usable { is_usable self.old.state.refused ≡ true }
        requires on { IsOn self.old.state.vars lit }
        requires rup { rup (known self.old.state) (lit ∷ []) ≡ true }
        requires hints { AreHints self.old.state (lit ∷ []) hints.now }
        ensures hints { OnOk result (EndsWith self.new.state hints.now) }
        ensures cause { HasCauseAlone self.old.state self.new.state result }
        ensures written { UnitWritten self.old.state self.new.state lit result }
        ensures log { KeepsLog self.old.state self.new.state }
        ensures port { IsPort self.new.state }
        ensures loads { self.new.loads ≡ self.old.loads }
    {
        let last = self.last;
        self.put_unit(lit, Kind::UnitLine, last, hints)
    }

    fn empty(&mut self, hints: &[u64]) -> Result<(), PortStop>
        requires usable { is_usable self.old.state.refused ≡ true }
        requires rup { rup (known self.old.state) [] ≡ true }
        requires hints { AreHints self.old.state [] hints.now }
        ensures hints { OnOk result (EndsWith self.new.state hints.now) }
        ensures cause { HasCauseAlone self.old.state self.new.state result }
        ensures written { EmptyWritten self.old.state self.new.state result }
        ensures log { KeepsLog self.old.state self.new.state }
        ensures port { IsPort self.new.state }
        ensures loads { self.new.loads ≡ self.old.loads }
    {
        self.log.make_room()?;
        let none = Lits::from_vec(Vec::new(self.alloc));
        let Ok(copy) = ClauseNumbers::from_slice(self.alloc, hints) else {
            return Err(PortStop::Memory);
        };
        self.log.add(none, Kind::Derive, copy)?;
        self.log.end();
        Ok(())
    }

    fn drop_clause(&mut self, c: Cref) -> Result<(), PortStop>
        requires held { IsSome (held_at self.old.state c.address) }
        ensures dropped { Dropped self.old.state self.new.state c.address result }
        ensures log { KeepsLog self.old.state self.new.state }
        ensures port { IsPort self.new.state }
        ensures loads { self.new.loads ≡ self.old.loads }
    {
        self.store.drop_clause(c)?;
        let last = unless_at(self.last, c);
        self.last = last;
        Ok(())
    }

    fn tidy(&mut self) -> Result<(), PortStop>
        requires usable { is_usable self.old.state.refused ≡ true }
        ensures cause { HasTidyCause self.old.state self.new.state result }
        ensures tidied { Tidied self.old.state self.new.state result }
        ensures log { KeepsLog self.old.state self.new.state }
        ensures port { IsPort self.new.state }
        ensures loads { self.new.loads ≡ self.old.loads }
    {
        for _ in 0..self.waits() {
            self.delete_first()?;
        }
        Ok(())
    }

    fn note_reduce(&mut self) -> Result<(), PortStop>
        requires usable { is_usable self.old.state.refused ≡ true }
        ensures cause { IfErr result (λ stop. (stop ≡ PortStop.Memory) ⊎ (self.old.state.ended ≡ true)) }
        ensures noted { Noted self.old.state self.new.state result }
        ensures log { KeepsLog self.old.state self.new.state }
        ensures port { IsPort self.new.state }
        ensures loads { self.new.loads ≡ self.old.loads }
    {
        self.log.make_room()?;
        self.log.reduce()
    }

    /// There is no other ring.
    fn offer(&mut self, _c: Cref) -> u64
        requires class { IsSome (class_at self.old.state _c.address) }
        ensures offered { OfferedAs self.old.state self.new.state (class_at self.old.state _c.address) _c.address }
        ensures many { result ≡ length (other_rings self.old.state) }
        ensures log { KeepsLog self.old.state self.new.state }
        ensures port { IsPort self.new.state }
        ensures loads { self.new.loads ≡ self.old.loads }
    {
        self.last = None;
        0
    }

    /// There is no other ring, so that nobody may call this.
    fn poll(&mut self, _from: u32, _class: u8, _place: u32) -> Result<Option<Cref>, PortStop> {
        let _looks = self.looks;
        Ok(None)
    }

    fn next_unit(&mut self) -> Option<Lit>
        ensures listed { IfSome result (λ lit. has self.old.state.opening lit ≡ true) }
        ensures took { Took self.old.state self.new.state result }
        ensures log { KeepsLog self.old.state self.new.state }
        ensures port { IsPort self.new.state }
        ensures loads { self.new.loads ≡ self.old.loads }
    {
        let Some(skipped) = first_new_from(&self.opening, self.passed, &self.written) else {
            self.caught_up = self.caught_up.saturating_add(1);
            return None;
        };
        let place = self.passed + skipped;
        let unit = self.opening[place];
        self.passed = place + 1;
        self.given.push_reserved(unit);
        Some(unit)
    }

    fn stopped(&mut self) -> Option<Stop>
        ensures looked { Looked self.old.state self.new.state result }
        ensures log { KeepsLog self.old.state self.new.state }
        ensures port { IsPort self.new.state }
        ensures loads { self.new.loads ≡ self.old.loads }
    {
        match self.stop {
            Some(stop) => Some(stop),
            None => {
                self.looks = self.looks.saturating_add(1);
                None
            }
        }
    }

    fn stop(&mut self, kind: u8) -> Set
        requires low { STOP_SAT ≤ kind }
        requires high { kind ≤ STOP_MEMORY }
        ensures set { SetStop self.old.state self.new.state kind result }
        ensures log { KeepsLog self.old.state self.new.state }
        ensures port { IsPort self.new.state }
        ensures loads { self.new.loads ≡ self.old.loads }
    {
        match self.stop {
            Some(stop) => Set::Lost(stop),
            None => {
                self.stop = Some(Stop { kind, ring: 0 });
                Set::Won
            }
        }
    }
}
