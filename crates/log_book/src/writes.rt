// What a turn writes.
ghost use Rattle.std.specs.Prelude.{◌≡◌, ◌≤◌, ◌<◌, ◌⊎◌, length, IfOk, IfErr, OnOk};
ghost use Rattle.share_rule.specs.declared.note.Note.TheVariants.{Clause, Unit as UnitNote, Empty, Reduce, Bury};
ghost use Rattle.share_rule.specs.Seen.{Seen};
ghost use Rattle.share_rule.specs.Turns.{next_number};
ghost use Rattle.clause_cell.specs.Free.{largest};
ghost use Rattle.log_book.specs.declared.stop.TurnStop.TheVariants.{NoHole, Memory};
ghost use Rattle.log_book.specs.Turns.{IsTurn, MayNext, MayAdd, Grown, Stopped, IsCause, IsAddCause, waiting, sheet};

use crate::book::Book;
use crate::stop::TurnStop;
use crate::turn::Turn;
use clause_cell::{HoleStop, words_for};
use io_edge::{Failed, Sink};
use rup_model::{ClauseNumbers, Kind};
use sat_words::{Cref, Lit, Lits};
use share_rule::{Note, Pass};
use std::alloc::Global;

impl<S: Sink> Turn<S> {
    pub(crate) fn write_unit(
        &mut self,
        alloc: Global,
        pass: &Pass<Book<S>>,
        kind: Kind,
        lit: Lit,
        hints: &[u64],
    ) -> Result<u64, TurnStop>
        requires seen { Seen pass.now.me.0 }
        requires turn { IsTurn S.written S.flushed S.target S.faults pass.now.me.0 self.old }
        requires note { MayNext pass.now.me.0 self.old (UnitNote kind lit hints.now) }
        ensures added { OnOk result (Grown S.written S.flushed S.target S.faults pass.now.me.0 self.old self.new (UnitNote kind lit hints.now)) }
        ensures number { IfOk result (λ n. n ≡ next_number pass.now.me.0.opening (sheet pass.now.me.0 self.old).journal) }
        ensures stopped { IfErr result (Stopped S.written S.flushed S.target S.faults pass.now.me.0 self.old self.new) }
        ensures cause { IfErr result (IsCause S.faults pass.now.me.0 self.old self.new) }
    {
        if let Err(stop) = self.test(pass) {
            return Err(stop);
        }
        let Ok(copy) = ClauseNumbers::from_slice(alloc, hints) else {
            return Err(TurnStop::Memory);
        };
        let lits = [lit];
        if self.make_room_to_add(&lits).is_err() {
            return Err(TurnStop::Memory);
        }
        match self.book.write_addition(&lits, hints) {
            Ok(number) => {
                self.noted.push_reserved(Note::Unit {
                    kind,
                    lit,
                    hints: copy,
                });
                Ok(number)
            }
            Err(Failed) => Err(TurnStop::ProofFault),
        }
    }

    pub(crate) fn write_empty(
        &mut self,
        alloc: Global,
        pass: &Pass<Book<S>>,
        hints: &[u64],
    ) -> Result<(), TurnStop>
        requires seen { Seen pass.now.me.0 }
        requires turn { IsTurn S.written S.flushed S.target S.faults pass.now.me.0 self.old }
        requires note { MayNext pass.now.me.0 self.old (Empty hints.now) }
        ensures added { OnOk result (Grown S.written S.flushed S.target S.faults pass.now.me.0 self.old self.new (Empty hints.now)) }
        ensures stopped { IfErr result (Stopped S.written S.flushed S.target S.faults pass.now.me.0 self.old self.new) }
        ensures cause { IfErr result (IsCause S.faults pass.now.me.0 self.old self.new) }
    {
        if let Err(stop) = self.test(pass) {
            return Err(stop);
        }
        let Ok(copy) = ClauseNumbers::from_slice(alloc, hints) else {
            return Err(TurnStop::Memory);
        };
        if self.make_room_to_add(&[]).is_err() {
            return Err(TurnStop::Memory);
        }
        match self.book.write_addition(&[], hints) {
            Ok(_) => {
                self.noted.push_reserved(Note::Empty { hints: copy });
                Ok(())
            }
            Err(Failed) => Err(TurnStop::ProofFault),
        }
    }

    pub(crate) fn write_reduction(&mut self, pass: &Pass<Book<S>>) -> Result<(), TurnStop>
        requires seen { Seen pass.now.me.0 }
        requires turn { IsTurn S.written S.flushed S.target S.faults pass.now.me.0 self.old }
        requires note { MayNext pass.now.me.0 self.old Reduce }
        ensures added { OnOk result (Grown S.written S.flushed S.target S.faults pass.now.me.0 self.old self.new Reduce) }
        ensures stopped { IfErr result (Stopped S.written S.flushed S.target S.faults pass.now.me.0 self.old self.new) }
        ensures cause { IfErr result (IsCause S.faults pass.now.me.0 self.old self.new) }
    {
        if let Err(stop) = self.test(pass) {
            return Err(stop);
        }
        if self.noted.reserve(1).is_err() {
            return Err(TurnStop::Memory);
        }
        self.book.count_entry();
        self.noted.push_reserved(Note::Reduce);
        Ok(())
    }

    pub(crate) fn write_deletion(
        &mut self,
        pass: &Pass<Book<S>>,
        cell: Cref,
        number: u64,
        lits: &[Lit],
    ) -> Result<(), TurnStop>
        requires seen { Seen pass.now.me.0 }
        requires turn { IsTurn S.written S.flushed S.target S.faults pass.now.me.0 self.old }
        requires note { MayNext pass.now.me.0 self.old (Bury cell.address) }
        requires number { number ≡ (waiting pass.now.me.0 self.old cell.address).number }
        requires clause { lits.now ≡ (waiting pass.now.me.0 self.old cell.address).lits }
        ensures added { OnOk result (Grown S.written S.flushed S.target S.faults pass.now.me.0 self.old self.new (Bury cell.address)) }
        ensures stopped { IfErr result (Stopped S.written S.flushed S.target S.faults pass.now.me.0 self.old self.new) }
        ensures cause { IfErr result (IsCause S.faults pass.now.me.0 self.old self.new) }
    {
        if let Err(stop) = self.test(pass) {
            return Err(stop);
        }
        if self.make_room_to_delete(lits).is_err() {
            return Err(TurnStop::Memory);
        }
        let words = words_for(lits.len() as u32);
        let Ok(()) = self.book.holes.give(cell.address, words) else {
            return Err(TurnStop::Memory);
        };
        match self.book.write_deletion(number, lits) {
            Ok(()) => {
                self.noted.push_reserved(Note::Bury {
                    address: cell.address,
                });
                Ok(())
            }
            Err(Failed) => Err(TurnStop::ProofFault),
        }
    }

    /// Why a clause of this many words is refused if memory ran out: for want of a hole, if there is none.
    fn no_memory(&self, need: u64) -> TurnStop
        ensures { ((need ≤ largest self.now.book.holes) × (result ≡ Memory)) ⊎ ((largest self.now.book.holes < need) × (result ≡ NoHole need (largest self.now.book.holes))) }
    {
        let largest = self.book.holes.largest();
        if need > largest {
            TurnStop::NoHole { need, largest }
        } else {
            TurnStop::Memory
        }
    }

    pub(crate) fn write_clause(
        &mut self,
        alloc: Global,
        pass: &Pass<Book<S>>,
        kind: Kind,
        lits: &[Lit],
        glue: u32,
        hints: &[u64],
    ) -> Result<Cref, TurnStop>
        requires seen { Seen pass.now.me.0 }
        requires turn { IsTurn S.written S.flushed S.target S.faults pass.now.me.0 self.old }
        requires note { MayAdd pass.now.me.0 self.old kind lits.now hints.now }
        ensures added { IfOk result (λ c. Grown S.written S.flushed S.target S.faults pass.now.me.0 self.old self.new (Clause kind lits.now hints.now glue c.address)) }
        ensures stopped { IfErr result (Stopped S.written S.flushed S.target S.faults pass.now.me.0 self.old self.new) }
        ensures cause { IfErr result (IsAddCause S.faults pass.now.me.0 self.old self.new (length lits.now)) }
    {
        if let Err(stop) = self.test(pass) {
            return Err(stop);
        }
        let need = words_for(lits.len() as u32);
        let Ok(copy) = Lits::from_slice(alloc, lits) else {
            return Err(self.no_memory(need));
        };
        let Ok(numbers) = ClauseNumbers::from_slice(alloc, hints) else {
            return Err(self.no_memory(need));
        };
        if self.make_room_to_add(lits).is_err() {
            return Err(self.no_memory(need));
        }
        let address = match self.book.holes.take(need) {
            Ok(address) => address,
            Err(HoleStop::NoHole { need, largest }) => {
                return Err(TurnStop::NoHole { need, largest });
            }
            // `none` of `Holes::take`: it refuses only if no hole is long enough
            Err(HoleStop::Memory) => unreachable!(),
        };
        match self.book.write_addition(lits, hints) {
            Ok(_) => {
                self.noted.push_reserved(Note::Clause {
                    kind,
                    lits: copy,
                    hints: numbers,
                    glue,
                    address,
                });
                Ok(Cref { address })
            }
            Err(Failed) => Err(TurnStop::ProofFault),
        }
    }
}
