// Bytes that gather before a sink, and are written in blocks.
ghost use Rattle.std.specs.Prelude.{◌≡◌, ◌+◌, ◌*◌, ◌≤◌, ◌<◌, ◌++◌, [], true, None, codes, length, IfOk, IfErr, OnOk, OnErr, MatchResult};
ghost use Rattle.std.specs.Fmt.{decimal};
ghost use Rattle.io_edge.specs.Bytes.{IsFront};
ghost use Rattle.io_edge.specs.Causes.{HasCause};
ghost use Rattle.rup_model.specs.NumberedLines.{Added};
ghost use Rattle.drat_text.specs.Binary.{marked_bytes};
ghost use Rattle.drat_text.specs.Gathered.{bytes_in, Gathers, Breaks};
ghost use Rattle.drat_text.specs.Lrat.{lrat_text};
ghost use Rattle.drat_text.specs.Text.{lits_text};
ghost use Rattle.drat_text.specs.declared.groups.TheConstants.{MOST};
ghost use Rattle.drat_text.specs.declared.literals.TheConstants.{LONGEST};
ghost use Rattle.drat_text.specs.declared.lrat.TheConstants.{WORD, DELETION};

use crate::groups::write_marked;
use crate::literals::write_rest;
use crate::lrat::{write_addition, write_deletion};
use io_edge::{Failed, Sink, write_all_of};
use sat_words::Lit;
use std::alloc::{AllocFailed, Global};
use std::marker::Model;

/// How many bytes are written at once.
pub const BLOCK: usize = 65_536;

/// A sink that is written in blocks: what is put gathers until it comes to one. The memory of a block is taken once.
#[derive(Drop)]
pub(crate) struct Blocks<S> {
    bytes: Vec<u8>,
    len: usize,
    sink: S,
}

impl<S> Model for Blocks<S> {
    ghost use Rattle.std.specs.Prelude.{◌≡◌, ◌≤◌, length, take};
    ghost use Rattle.drat_text.specs.declared.blocks.TheConstants.{BLOCK};
    ghost use Rattle.drat_text.specs.Gathered.{Gathered};

    ghost Value = { Gathered S };

    ghost view = { λ b. record { waiting = take b.len b.bytes.items; sink = b.sink } };

    ghost invariant = { λ b. (length b.bytes.items ≡ BLOCK) × (b.len ≤ BLOCK) };
}

impl<S: Sink> Blocks<S> {
    /// No byte waits. Refused for memory it gives the sink back.
    pub(crate) fn new(alloc: Global, sink: S) -> Result<Blocks<S>, AllocFailed<S>>
        ensures made { IfOk result (λ blocks. blocks ≡ record { waiting = []; sink = sink }) }
        ensures back { IfErr result (λ refused. refused.value ≡ sink) }
    {
        match vec![in alloc; 0; BLOCK] {
            Ok(bytes) => Ok(Blocks {
                bytes,
                len: 0,
                sink,
            }),
            Err(_) => Err(AllocFailed { value: sink }),
        }
    }

    /// The sink. What waits is let go.
    pub(crate) fn into_sink(self) -> S
        ensures { result ≡ self.sink }
    {
        let Blocks { sink, .. } = self;
        sink
    }

    /// Whether the sink leads nowhere.
    pub(crate) fn is_nowhere(&self) -> bool
        ensures untold { result ≡ true → S.written self.now.sink ≡ None }
    {
        self.sink.is_nowhere()
    }

    fn push(&mut self, bytes: &[u8])
        requires { length self.old.waiting + length bytes.now ≤ BLOCK }
        ensures { self.new ≡ record { waiting = self.old.waiting ++ bytes.now; sink = self.old.sink } }
    {
        let end = self.len + bytes.len();
        self.bytes[self.len..end].copy_from_slice(bytes);
        self.len = end;
    }

    /// How many bytes would come to a block.
    #[inline(always)]
    pub(crate) fn room(&self) -> usize
        ensures { length self.now.waiting + result ≡ BLOCK }
    {
        BLOCK - self.len
    }

    /// Puts the literals' texts, each with a space after it, and the end of a line. They are written where they are to stand.
    pub(crate) fn push_lits(&mut self, lits: &[Lit])
        requires room { length self.old.waiting + LONGEST * length lits.now + 2 < BLOCK }
        ensures put { self.new ≡ record { waiting = self.old.waiting ++ (lits_text lits.now ++ codes "0\n"); sink = self.old.sink } }
        ensures few { length self.new.waiting < BLOCK }
    {
        self.len = write_rest(self.bytes.as_mut_slice(), self.len, lits);
    }

    /// Puts a byte, the groups of the literals' codes, and a zero. They are written where they are to stand.
    pub(crate) fn push_marked(&mut self, mark: u8, lits: &[Lit])
        requires room { length self.old.waiting + MOST * length lits.now + 2 < BLOCK }
        ensures put { self.new ≡ record { waiting = self.old.waiting ++ marked_bytes mark lits.now; sink = self.old.sink } }
        ensures few { length self.new.waiting < BLOCK }
    {
        self.len = write_marked(self.bytes.as_mut_slice(), self.len, mark, lits);
    }

    /// Puts the line of an addition in LRAT. It is written where it is to stand.
    pub(crate) fn push_addition(&mut self, number: u64, lits: &[Lit], hints: &[u64])
        requires room { length self.old.waiting + WORD + LONGEST * length lits.now + WORD * length hints.now + 4 < BLOCK }
        ensures put { self.new ≡ record { waiting = self.old.waiting ++ lrat_text (Added number lits.now hints.now); sink = self.old.sink } }
        ensures few { length self.new.waiting < BLOCK }
    {
        self.len = write_addition(self.bytes.as_mut_slice(), self.len, number, lits, hints);
    }

    /// Puts the line of a deletion in LRAT. It is written where it is to stand.
    pub(crate) fn push_deletion(&mut self, last: u64, number: u64)
        requires room { length self.old.waiting + DELETION < BLOCK }
        ensures put { self.new ≡ record { waiting = self.old.waiting ++ (decimal last ++ codes " d " ++ decimal number ++ codes " 0\n"); sink = self.old.sink } }
        ensures few { length self.new.waiting < BLOCK }
    {
        self.len = write_deletion(self.bytes.as_mut_slice(), self.len, last, number);
    }

    /// Writes what waits. In either case nothing waits then.
    pub(crate) fn write_out(&mut self) -> Result<(), Failed>
        ensures all { OnOk result (S.written self.new.sink ≡ bytes_in S.written self.old) }
        ensures front { OnErr result (IsFront (S.written self.new.sink) (bytes_in S.written self.old)) }
        ensures nothing { self.new.waiting ≡ [] }
        ensures idle { self.old.waiting ≡ [] → self.new.sink ≡ self.old.sink }
        ensures flushed { S.flushed self.new.sink ≡ S.flushed self.old.sink }
        ensures target { S.target self.new.sink ≡ S.target self.old.sink }
        ensures cause { HasCause (S.faults self.old.sink) (S.faults self.new.sink) result }
    {
        if self.len == 0 {
            return Ok(());
        }
        let written = write_all_of(&mut self.sink, &self.bytes[..self.len]);
        self.len = 0;
        match written {
            Ok(()) => Ok(()),
            Err(_) => Err(Failed),
        }
    }

    /// Puts the bytes after those that wait. Where they come to a block it is written, and the rest waits.
    pub(crate) fn append(&mut self, bytes: &[u8]) -> Result<(), Failed>
        requires room { length self.old.waiting < BLOCK }
        requires short { length bytes.now ≤ BLOCK }
        ensures { MatchResult result (λ _. Gathers S.written S.flushed S.target S.faults self.old self.new bytes.now) (λ _. Breaks S.written S.flushed S.target S.faults self.old self.new bytes.now) }
    {
        let room = BLOCK - self.len;
        if bytes.len() < room {
            self.push(bytes);
            return Ok(());
        }
        let (front, rest) = bytes.split_at(room);
        self.push(front);
        match self.write_out() {
            Ok(()) => {
                self.push(rest);
                Ok(())
            }
            Err(Failed) => Err(Failed),
        }
    }
}
