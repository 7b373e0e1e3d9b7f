// The lines of a log as a proof.
ghost use Rattle.std.specs.Prelude.{◌≡◌, ◌≢◌, Err, ◌≤◌, ◌<◌, ◌+◌, ◌^◌, [], true, false, length, is_err, IfOk, IfErr, OnOk, OnErr};
ghost use Rattle.std.specs.Io.KnownBytes.{append_known};
ghost use Rattle.io_edge.specs.Bytes.{IsFront};
ghost use Rattle.io_edge.specs.Causes.{HasCause};
ghost use Rattle.io_edge.specs.Paths.{IsEmptyWhereTold};
ghost use Rattle.sat_words.specs.declared.line.ProofFormat.TheVariants.{Text};
ghost use Rattle.rup_model.specs.NumberedLines.{Added, Deleted};
ghost use Rattle.drat_text.specs.SinkData.{SinkData, told_by, begun_lines};
ghost use Rattle.drat_text.specs.LineOut.{WasPut};
ghost use Rattle.drat_text.specs.declared.stop.LineStop.TheVariants.{Memory};
ghost use Rattle.drat_text.specs.Spelling.{spelling};
ghost use Rattle.drat_text.specs.declared.blocks.TheConstants.{BLOCK};

use crate::blocks::Blocks;
use crate::line_out::LineOut;
use crate::numbers::Numbers;
use crate::stop::LineStop;
use io_edge::{Failed, Sink};
use sat_words::{Lit, ProofFormat};
use std::alloc::{AllocFailed, Global};
use std::marker::Model;

/// Writes the lines to a sink and keeps none. It does not flush.
///
/// The bytes are written in blocks of `BLOCK` bytes, so that a write may end within a line; the memory of one block is taken
/// at first, and no other. `finish` writes what is left. After a fault the sink has a front of the bytes of the lines, that
/// which failed being the last. No line is spelled for a sink that leads nowhere.
#[derive(Drop)]
pub struct SinkLines<S> {
    format: ProofFormat,
    numbers: Numbers,
    spent: bool,
    blocks: Blocks<S>,
}

impl<S> Model for SinkLines<S> {
    ghost use Rattle.std.specs.Prelude.{◌<◌, length};
    ghost use Rattle.drat_text.specs.declared.blocks.TheConstants.{BLOCK};
    ghost use Rattle.drat_text.specs.SinkData.{SinkData};

    ghost Value = { SinkData S };

    ghost view = { λ p. record { format = p.format; entries = p.numbers.entries; last = p.numbers.last; spent = p.spent; waiting = p.blocks.waiting; sink = p.blocks.sink } };

    ghost invariant = { λ p. length p.blocks.waiting < BLOCK };
}

impl<S: Sink> SinkLines<S> {
    /// Lines as text.
    pub fn new(alloc: Global, clauses: u64, sink: S) -> Result<Self, AllocFailed<S>>
        requires few { clauses ≤ 2 ^ 63 }
        requires empty { IsEmptyWhereTold (S.written sink) }
        ensures made { IfOk result (λ lines. lines ≡ begun_lines Text clauses sink) }
        ensures back { IfErr result (λ refused. refused.value ≡ sink) }
    {
        SinkLines::with_format(alloc, ProofFormat::Text, clauses, sink)
    }

    /// Lines in this format for a formula of this many clauses, in a sink to which nothing was written. Refused for memory
    /// it gives the sink back.
    pub fn with_format(
        alloc: Global,
        format: ProofFormat,
        clauses: u64,
        sink: S,
    ) -> Result<Self, AllocFailed<S>>
        requires few { clauses ≤ 2 ^ 63 }
        requires empty { IsEmptyWhereTold (S.written sink) }
        ensures made { IfOk result (λ lines. lines ≡ begun_lines format clauses sink) }
        ensures back { IfErr result (λ refused. refused.value ≡ sink) }
    {
        match Blocks::new(alloc, sink) {
            Ok(blocks) => Ok(SinkLines {
                format,
                numbers: Numbers::after(clauses),
                spent: false,
                blocks,
            }),
            Err(refused) => Err(refused),
        }
    }

    /// Whether the sink has failed, so that no further line can be put.
    pub fn is_spent(&self) -> bool
        ensures { result ≡ self.now.spent }
    {
        self.spent
    }

    /// Writes what waits, and gives the sink back. It does not flush. Where the sink has failed, now or at a line before,
    /// that is known; after a line that failed nothing more is written.
    pub fn finish(self) -> (Result<(), Failed>, S)
        ensures whole { OnOk result.0 (S.written result.1 ≡ append_known (S.written self.sink) self.waiting) }
        ensures front { OnErr result.0 (IsFront (S.written result.1) (append_known (S.written self.sink) self.waiting)) }
        ensures spent { self.spent ≡ true → (is_err result.0 ≡ true) × (result.1 ≡ self.sink) }
        ensures cause { self.spent ≡ false → HasCause (S.faults self.sink) (S.faults result.1) result.0 }
        ensures nothing { self.waiting ≡ [] → result.1 ≡ self.sink }
        ensures flushed { S.flushed result.1 ≡ S.flushed self.sink }
        ensures target { S.target result.1 ≡ S.target self.sink }
    {
        let SinkLines {
            spent,
            mut blocks,
            ..
        } = self;
        let result = if spent {
            Err(Failed)
        } else {
            blocks.write_out()
        };
        (result, blocks.into_sink())
    }
}

impl<S: Sink> LineOut for SinkLines<S> {
    ghost told = { told_by S.written S.flushed S.target S.faults };

    fn format(&self) -> ProofFormat {
        self.format
    }

    fn add(&mut self, lits: &[Lit], hints: &[u64]) -> Result<u64, LineStop>
        requires unspent { self.old.spent ≡ false }
        ensures put { WasPut (told_by S.written S.flushed S.target S.faults self.old) (told_by S.written S.flushed S.target S.faults self.new) (Added (self.old.last + 1) lits.now hints.now) result }
        ensures number { IfOk result (λ n. n ≡ self.old.last + 1) }
        ensures memory { result ≢ Err Memory }
        ensures gathers { length self.old.waiting + length (spelling self.old.format (Added (self.old.last + 1) lits.now hints.now)) < BLOCK → self.new.sink ≡ self.old.sink }
    {
        if self.numbers.is_full() {
            return Err(LineStop::Full);
        }
        let number = self.numbers.next();
        if self
            .blocks
            .spell_addition(self.format, number, lits, hints)
            .is_err()
        {
            self.spent = true;
            return Err(LineStop::ProofFault);
        }
        self.numbers.count_addition();
        Ok(number)
    }

    fn del(&mut self, number: u64, lits: &[Lit]) -> Result<(), LineStop>
        requires unspent { self.old.spent ≡ false }
        ensures put { WasPut (told_by S.written S.flushed S.target S.faults self.old) (told_by S.written S.flushed S.target S.faults self.new) (Deleted self.old.last number lits.now) result }
        ensures memory { result ≢ Err Memory }
        ensures gathers { length self.old.waiting + length (spelling self.old.format (Deleted self.old.last number lits.now)) < BLOCK → self.new.sink ≡ self.old.sink }
    {
        if self.numbers.is_full() {
            return Err(LineStop::Full);
        }
        let last = self.numbers.last();
        if self
            .blocks
            .spell_deletion(self.format, last, number, lits)
            .is_err()
        {
            self.spent = true;
            return Err(LineStop::ProofFault);
        }
        self.numbers.count_deletion();
        Ok(())
    }
}
