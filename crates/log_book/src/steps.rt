// What each write of a turn begins and ends with.
ghost use Rattle.std.specs.Prelude.{◌≡◌, ◌≢◌, ◌<◌, Err, IfErr, OnOk, vec_len, vec_capacity};
ghost use Rattle.sat_words.specs.declared.line.Line.TheVariants.{Add, Del};
ghost use Rattle.share_rule.specs.Seen.{Seen};
ghost use Rattle.log_book.specs.Books.{AreAlike};
ghost use Rattle.log_book.specs.Kept.{IsReady};
ghost use Rattle.log_book.specs.Turns.{IsTurn, Stopped, IsGrounded, IsCause, CouldWrite, noted_as};
ghost use Rattle.log_book.specs.declared.stop.TurnStop.TheVariants as stop;

use crate::book::Book;
use crate::stop::TurnStop;
use crate::turn::Turn;
use io_edge::Sink;
use sat_words::{Lit, MAX_ENTRIES};
use share_rule::{Pass, Refusal};
use std::alloc::AllocError;

/// How a refusal is noted.
fn noted_as(stop: TurnStop, old: Option<Refusal>) -> Option<Refusal>
    ensures { result ≡ noted_as stop old }
{
    match stop {
        TurnStop::Ended => Some(Refusal::Ended),
        TurnStop::Broken => Some(Refusal::Broken),
        TurnStop::NoHole { need, largest } => Some(Refusal::NoHole { need, largest }),
        TurnStop::Memory => old,
        TurnStop::ProofFault => Some(Refusal::ProofFault),
    }
}

impl<S: Sink> Turn<S> {
    /// Tests that the log may be written on.
    pub(crate) fn test(&self, pass: &Pass<Book<S>>) -> Result<(), TurnStop>
        requires seen { Seen pass.now.me.0 }
        requires turn { IsTurn S.written S.flushed S.target S.faults pass.now.me.0 self.now }
        ensures going { OnOk result (CouldWrite pass.now.me.0 self.now) }
        ensures cause { IfErr result (IsCause S.faults pass.now.me.0 self.now self.now) }
        ensures stopped { IfErr result (Stopped S.written S.flushed S.target S.faults pass.now.me.0 self.now self.now) }
        ensures memory { result ≢ Err stop.Memory }
        ensures fault { result ≢ Err stop.ProofFault }
    {
        if self.book.ended {
            return Err(TurnStop::Ended);
        }
        if self.book.log.is_spent() {
            return Err(TurnStop::Broken);
        }
        if self.book.entries >= MAX_ENTRIES {
            return Err(TurnStop::NoHole {
                need: MAX_ENTRIES + 1,
                largest: MAX_ENTRIES,
            });
        }
        Ok(())
    }

    /// Makes ready for the line that adds the clause, and for its note: what follows takes no memory.
    pub(crate) fn make_room_to_add(&mut self, lits: &[Lit]) -> Result<(), AllocError>
        ensures noted { (self.new.noted.items ≡ self.old.noted.items) × (self.new.refused ≡ self.old.refused) }
        ensures same { AreAlike self.old.book self.new.book }
        ensures room { OnOk result (vec_len self.new.noted < vec_capacity self.new.noted) }
        ensures ready { OnOk result (IsReady self.new.book.log.kept (Add lits.now)) }
    {
        self.noted.reserve(1)?;
        self.book.prepare_addition(lits)
    }

    /// Makes ready for the line that deletes the clause, and for its note: what follows takes no memory.
    pub(crate) fn make_room_to_delete(&mut self, lits: &[Lit]) -> Result<(), AllocError>
        ensures noted { (self.new.noted.items ≡ self.old.noted.items) × (self.new.refused ≡ self.old.refused) }
        ensures same { AreAlike self.old.book self.new.book }
        ensures room { OnOk result (vec_len self.new.noted < vec_capacity self.new.noted) }
        ensures ready { OnOk result (IsReady self.new.book.log.kept (Del lits.now)) }
    {
        self.noted.reserve(1)?;
        self.book.prepare_deletion(lits)
    }

    /// Notes a refusal.
    pub(crate) fn refuse(&mut self, _pass: &Pass<Book<S>>, stop: TurnStop) -> TurnStop
        requires seen { Seen _pass.now.me.0 }
        requires turn { IsTurn S.written S.flushed S.target S.faults _pass.now.me.0 self.old }
        requires grounded { IsGrounded _pass.now.me.0 self.old stop }
        ensures stop { result ≡ stop }
        ensures same { (self.new.book ≡ self.old.book) × (self.new.noted ≡ self.old.noted) }
        ensures refused { self.new.refused ≡ noted_as stop self.old.refused }
        ensures turn { IsTurn S.written S.flushed S.target S.faults _pass.now.me.0 self.new }
    {
        self.refused = noted_as(stop, self.refused);
        stop
    }
}
