// The lines on their way to the sink, of which a list is kept if that is asked for.
ghost use Rattle.std.specs.Prelude.{◌≡◌, ◌≢◌, ◌≤◌, ◌+◌, ◌^◌, [], true, false, Err, is_err, IfOk, IfErr, OnOk, OnErr};
ghost use Rattle.std.specs.Option.{option_map};
ghost use Rattle.std.specs.Io.KnownBytes.{append_known};
ghost use Rattle.io_edge.specs.Bytes.{IsFront};
ghost use Rattle.io_edge.specs.Causes.{HasCause};
ghost use Rattle.io_edge.specs.Paths.{IsEmptyWhereTold};
ghost use Rattle.sat_words.specs.declared.line.Line.TheVariants.{Add, Del};
ghost use Rattle.rup_model.specs.NumberedLines.{Added, Deleted};
ghost use Rattle.drat_text.specs.LineOut.{WasPut};
ghost use Rattle.drat_text.specs.SinkData.{told_by, begun_lines};
ghost use Rattle.drat_text.specs.declared.stop.LineStop.TheVariants.{Memory};
ghost use Rattle.log_book.specs.Kept.{kept_after, IsReady};
ghost use Rattle.log_book.specs.Books.{no_line};

use crate::kept::Kept;
use drat_text::{LineOut, LineStop, SinkLines};
use io_edge::{Failed, Sink};
use sat_words::{Line, Lit, ProofFormat};
use std::alloc::{AllocError, AllocFailed, Global};
use std::marker::Model;

/// The lines on their way to the sink, the last number given, and the lines if they are asked for.
#[derive(Drop)]
pub struct LogLines<S: Sink> {
    lines: SinkLines<S>,
    last: u64,
    kept: Kept,
}

impl<S: Sink> Model for LogLines<S> {
    ghost use Rattle.std.specs.Prelude.{◌≡◌};
    ghost use Rattle.log_book.specs.Kept.{LogData};

    ghost Value = { LogData S };

    ghost view = { λ p. record { lines = p.lines; kept = p.kept } };

    ghost invariant = { λ p. p.last ≡ p.lines.last };
}

impl<S: Sink> LogLines<S> {
    /// No line yet, for a formula of this many clauses and in a sink to which nothing was written. The lines are spelled in
    /// this format. Refused for memory it gives the sink back.
    pub(crate) fn new(
        alloc: Global,
        format: ProofFormat,
        clauses: u64,
        sink: S,
        keep_lines: bool,
    ) -> Result<Self, AllocFailed<S>>
        requires few { clauses ≤ 2 ^ 63 }
        requires empty { IsEmptyWhereTold (S.written sink) }
        ensures made { IfOk result (λ log. log.lines ≡ begun_lines format clauses sink) }
        ensures kept { IfOk result (λ log. log.kept.lines ≡ no_line keep_lines) }
        ensures back { IfErr result (λ refused. refused.value ≡ sink) }
    {
        match SinkLines::with_format(alloc, format, clauses, sink) {
            Ok(lines) => Ok(LogLines {
                lines,
                last: clauses,
                kept: Kept::new(alloc, keep_lines),
            }),
            Err(refused) => Err(refused),
        }
    }

    /// Whether a write has failed.
    pub(crate) fn is_spent(&self) -> bool
        ensures { result ≡ self.now.lines.spent }
    {
        self.lines.is_spent()
    }

    /// The last number given.
    pub(crate) fn last(&self) -> u64
        ensures { result ≡ self.now.lines.last }
    {
        self.last
    }

    /// How the lines are spelled.
    pub(crate) fn format(&self) -> ProofFormat
        ensures { result ≡ self.now.lines.format }
    {
        self.lines.format()
    }

    /// Makes ready for the line that adds the clause: what follows takes no memory.
    pub(crate) fn prepare_addition(&mut self, lits: &[Lit]) -> Result<(), AllocError>
        ensures same { (self.new.lines ≡ self.old.lines) × (self.new.kept.lines ≡ self.old.kept.lines) }
        ensures ready { OnOk result (IsReady self.new.kept (Add lits.now)) }
    {
        self.kept.prepare_addition(lits)
    }

    /// Makes ready for the line that deletes the clause: what follows takes no memory.
    pub(crate) fn prepare_deletion(&mut self, lits: &[Lit]) -> Result<(), AllocError>
        ensures same { (self.new.lines ≡ self.old.lines) × (self.new.kept.lines ≡ self.old.kept.lines) }
        ensures ready { OnOk result (IsReady self.new.kept (Del lits.now)) }
    {
        self.kept.prepare_deletion(lits)
    }

    /// Puts the line that adds the clause after the others, with these hints, and keeps it if it stands.
    pub(crate) fn add(&mut self, lits: &[Lit], hints: &[u64]) -> Result<u64, LineStop>
        requires unspent { self.old.lines.spent ≡ false }
        requires ready { IsReady self.old.kept (Add lits.now) }
        ensures put { WasPut (told_by S.written S.flushed S.target S.faults self.old.lines) (told_by S.written S.flushed S.target S.faults self.new.lines) (Added (self.old.lines.last + 1) lits.now hints.now) result }
        ensures number { IfOk result (λ n. n ≡ self.old.lines.last + 1) }
        ensures kept { self.new.kept.lines ≡ kept_after result self.old.kept.lines (Add lits.now) }
        ensures memory { result ≢ Err Memory }
    {
        match self.lines.add(lits, hints) {
            Ok(number) => {
                self.kept.keep();
                self.last = number;
                Ok(number)
            }
            Err(stop) => Err(stop),
        }
    }

    /// Puts the line that deletes the clause with this number after the others, and keeps it if it stands.
    pub(crate) fn del(&mut self, number: u64, lits: &[Lit]) -> Result<(), LineStop>
        requires unspent { self.old.lines.spent ≡ false }
        requires ready { IsReady self.old.kept (Del lits.now) }
        ensures put { WasPut (told_by S.written S.flushed S.target S.faults self.old.lines) (told_by S.written S.flushed S.target S.faults self.new.lines) (Deleted self.old.lines.last number lits.now) result }
        ensures kept { self.new.kept.lines ≡ kept_after result self.old.kept.lines (Del lits.now) }
        ensures memory { result ≢ Err Memory }
    {
        match self.lines.del(number, lits) {
            Ok(()) => {
                self.kept.keep();
                Ok(())
            }
            Err(stop) => Err(stop),
        }
    }

    /// Writes what waits, and gives the sink back, with the lines where they were asked for. It does not flush.
    pub(crate) fn finish(self) -> (Result<(), Failed>, S, Option<Vec<Line>>)
        ensures kept { option_map (λ v. v.items) result.2 ≡ self.kept.lines }
        ensures whole { OnOk result.0 (S.written result.1 ≡ append_known (S.written self.lines.sink) self.lines.waiting) }
        ensures front { OnErr result.0 (IsFront (S.written result.1) (append_known (S.written self.lines.sink) self.lines.waiting)) }
        ensures spent { self.lines.spent ≡ true → (is_err result.0 ≡ true) × (result.1 ≡ self.lines.sink) }
        ensures cause { self.lines.spent ≡ false → HasCause (S.faults self.lines.sink) (S.faults result.1) result.0 }
        ensures flushed { S.flushed result.1 ≡ S.flushed self.lines.sink }
        ensures target { S.target result.1 ≡ S.target self.lines.sink }
    {
        let LogLines { lines, kept, .. } = self;
        let (written, sink) = lines.finish();
        (written, sink, kept.into_lines())
    }
}
