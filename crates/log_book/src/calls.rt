// What a ring may do with its turn.
ghost use Rattle.std.specs.Prelude.{◌≡◌, length, IfOk, IfErr, OnOk};
ghost use Rattle.share_rule.specs.declared.note.Note.TheVariants.{Clause, Unit as UnitNote, Empty, Reduce, Bury};
ghost use Rattle.share_rule.specs.Seen.{Seen};
ghost use Rattle.share_rule.specs.Turns.{next_number};
ghost use Rattle.log_book.specs.Turns.{IsTurn, MayNext, MayAdd, Grown, Refused, IsCause, IsAddCause, waiting, sheet};

use crate::book::Book;
use crate::stop::TurnStop;
use crate::turn::Turn;
use io_edge::Sink;
use rup_model::Kind;
use sat_words::{Cref, Lit};
use share_rule::Pass;
use std::alloc::Global;

impl<S: Sink> Turn<S> {
    /// Adds a clause, and gives its cell the front of the first hole that is long enough. In a log with hints these show that
    /// the clause follows from what the ring knows; in other logs none are given.
    pub fn add(
        &mut self,
        pass: &Pass<Book<S>>,
        alloc: Global,
        kind: Kind,
        lits: &[Lit],
        glue: u32,
        hints: &[u64],
    ) -> Result<Cref, TurnStop>
        requires seen { Seen pass.now.me.0 }
        requires turn { IsTurn S.written S.flushed S.target S.faults pass.now.me.0 self.old }
        requires note { MayAdd pass.now.me.0 self.old kind lits.now hints.now }
        ensures added { IfOk result (λ c. Grown S.written S.flushed S.target S.faults pass.now.me.0 self.old self.new (Clause kind lits.now hints.now glue c.address)) }
        ensures stopped { IfErr result (Refused S.written S.flushed S.target S.faults pass.now.me.0 self.old self.new) }
        ensures cause { IfErr result (IsAddCause S.faults pass.now.me.0 self.old self.new (length lits.now)) }
    {
        match self.write_clause(alloc, pass, kind, lits, glue, hints) {
            Ok(given) => Ok(given),
            Err(stop) => Err(self.refuse(pass, stop)),
        }
    }

    /// Adds a unit, and gives its number. Hints as for a clause.
    pub fn add_unit(
        &mut self,
        pass: &Pass<Book<S>>,
        alloc: Global,
        kind: Kind,
        lit: Lit,
        hints: &[u64],
    ) -> Result<u64, TurnStop>
        requires seen { Seen pass.now.me.0 }
        requires turn { IsTurn S.written S.flushed S.target S.faults pass.now.me.0 self.old }
        requires note { MayNext pass.now.me.0 self.old (UnitNote kind lit hints.now) }
        ensures added { OnOk result (Grown S.written S.flushed S.target S.faults pass.now.me.0 self.old self.new (UnitNote kind lit hints.now)) }
        ensures number { IfOk result (λ n. n ≡ next_number pass.now.me.0.opening (sheet pass.now.me.0 self.old).journal) }
        ensures stopped { IfErr result (Refused S.written S.flushed S.target S.faults pass.now.me.0 self.old self.new) }
        ensures cause { IfErr result (IsCause S.faults pass.now.me.0 self.old self.new) }
    {
        match self.write_unit(alloc, pass, kind, lit, hints) {
            Ok(given) => Ok(given),
            Err(stop) => Err(self.refuse(pass, stop)),
        }
    }

    /// Adds the empty clause, which ends the log. Hints as for a clause.
    pub fn add_empty(
        &mut self,
        pass: &Pass<Book<S>>,
        alloc: Global,
        hints: &[u64],
    ) -> Result<(), TurnStop>
        requires seen { Seen pass.now.me.0 }
        requires turn { IsTurn S.written S.flushed S.target S.faults pass.now.me.0 self.old }
        requires note { MayNext pass.now.me.0 self.old (Empty hints.now) }
        ensures added { OnOk result (Grown S.written S.flushed S.target S.faults pass.now.me.0 self.old self.new (Empty hints.now)) }
        ensures stopped { IfErr result (Refused S.written S.flushed S.target S.faults pass.now.me.0 self.old self.new) }
        ensures cause { IfErr result (IsCause S.faults pass.now.me.0 self.old self.new) }
    {
        match self.write_empty(alloc, pass, hints) {
            Ok(()) => Ok(()),
            Err(stop) => Err(self.refuse(pass, stop)),
        }
    }

    /// Notes that the ring reduces its clauses. This has no line.
    pub fn reduce(&mut self, pass: &Pass<Book<S>>) -> Result<(), TurnStop>
        requires seen { Seen pass.now.me.0 }
        requires turn { IsTurn S.written S.flushed S.target S.faults pass.now.me.0 self.old }
        requires note { MayNext pass.now.me.0 self.old Reduce }
        ensures added { OnOk result (Grown S.written S.flushed S.target S.faults pass.now.me.0 self.old self.new Reduce) }
        ensures stopped { IfErr result (Refused S.written S.flushed S.target S.faults pass.now.me.0 self.old self.new) }
        ensures cause { IfErr result (IsCause S.faults pass.now.me.0 self.old self.new) }
    {
        match self.write_reduction(pass) {
            Ok(()) => Ok(()),
            Err(stop) => Err(self.refuse(pass, stop)),
        }
    }

    /// Deletes the clause of a cell that waits at the ring. Its words are free again.
    pub fn bury(
        &mut self,
        pass: &Pass<Book<S>>,
        cell: Cref,
        number: u64,
        lits: &[Lit],
    ) -> Result<(), TurnStop>
        requires seen { Seen pass.now.me.0 }
        requires turn { IsTurn S.written S.flushed S.target S.faults pass.now.me.0 self.old }
        requires note { MayNext pass.now.me.0 self.old (Bury cell.address) }
        requires number { number ≡ (waiting pass.now.me.0 self.old cell.address).number }
        requires clause { lits.now ≡ (waiting pass.now.me.0 self.old cell.address).lits }
        ensures added { OnOk result (Grown S.written S.flushed S.target S.faults pass.now.me.0 self.old self.new (Bury cell.address)) }
        ensures stopped { IfErr result (Refused S.written S.flushed S.target S.faults pass.now.me.0 self.old self.new) }
        ensures cause { IfErr result (IsCause S.faults pass.now.me.0 self.old self.new) }
    {
        match self.write_deletion(pass, cell, number, lits) {
            Ok(()) => Ok(()),
            Err(stop) => Err(self.refuse(pass, stop)),
        }
    }
}
