// What a book does: it takes lines, and ends.
ghost use Rattle.std.specs.Prelude.{◌≡◌, ◌+◌, ◌<◌, ◌^◌, ◌≤◌, ◌⊎◌, length, ◌++◌, ◌∷◌, [], true, false, is_err, List, IfOk, IfErr, OnOk, OnErr, MatchResult, Bool};
ghost use Rattle.std.specs.Option.{option_map};
ghost use Rattle.std.specs.Io.KnownBytes.{append_known};
ghost use Rattle.io_edge.specs.Bytes.{IsFront};
ghost use Rattle.io_edge.specs.Causes.{HasCause, Rose};
ghost use Rattle.io_edge.specs.Paths.{IsEmptyWhereTold};
ghost use Rattle.sat_words.specs.Literal.{Literal};
ghost use Rattle.sat_words.specs.declared.line.Line.TheVariants.{Add, Del};
ghost use Rattle.sat_words.specs.declared.line.ProofFormat.{ProofFormat};
ghost use Rattle.sat_words.specs.declared.shared.TheConstants.{MAX_ENTRIES};
ghost use Rattle.rup_model.specs.declared.journal.Round.{Round as RoundStart};
ghost use Rattle.rup_model.specs.declared.journal.Entry.{Entry};
ghost use Rattle.rup_model.specs.declared.journal.Entry.TheVariants.{Round};
ghost use Rattle.rup_model.specs.NumberedLines.{Added, Deleted};
ghost use Rattle.drat_text.specs.JournalText.{Origin};
ghost use Rattle.share_rule.specs.declared.Layout.{Layout};
ghost use Rattle.share_rule.specs.Books.{HasLog};
ghost use Rattle.log_book.specs.Books.{begun, told_of, told_new, account_of, origin_of, IsNew, IsFilled, IsFrom, IsCutOff, IsCutLog, IsLogOf, AreAlike, CountsOneMore, IsFull, HasPut, HasFailed};
ghost use Rattle.log_book.specs.Ended.{HasEnded};
ghost use Rattle.log_book.specs.Kept.{IsReady};

use crate::book::Book;
use crate::log_lines::LogLines;
use clause_cell::Holes;
use drat_text::{LineOut, LineStop};
use io_edge::{Failed, Sink};
use sat_words::{Line, Lit, MAX_ENTRIES, ProofFormat};
use std::alloc::{AllocError, AllocFailed, Global};

impl<S: Sink> Book<S> {
    /// A book for a formula of this many clauses, in a sink to which nothing was written. It has no line yet, and no word is
    /// free. Its lines are spelled in this format. Refused for memory it gives the sink back.
    pub fn new(
        alloc: Global,
        format: ProofFormat,
        clauses: u64,
        sink: S,
        keep_lines: bool,
    ) -> Result<Self, AllocFailed<S>>
        requires few { clauses ≤ 2 ^ 63 }
        requires empty { IsEmptyWhereTold (S.written sink) }
        ensures made { IfOk result (λ book. IsNew format clauses sink keep_lines book) }
        ensures told { IfOk result (λ book. told_of S.written S.flushed S.target S.faults book ≡ told_new S.written S.flushed S.target S.faults format clauses sink keep_lines) }
        ensures back { IfErr result (λ refused. refused.value ≡ sink) }
    {
        let Ok(holes) = Holes::new(alloc, 0, 0) else {
            return Err(AllocFailed { value: sink });
        };
        match LogLines::new(alloc, format, clauses, sink, keep_lines) {
            Ok(log) => Ok(Book {
                log,
                entries: 0,
                ended: false,
                holes,
            }),
            Err(refused) => Err(refused),
        }
    }

    /// The last number that was given: that of the last addition, or if there is none that of the formula's last clause.
    pub fn last(&self) -> u64
        ensures { result ≡ self.now.log.lines.last }
    {
        self.log.last()
    }

    /// A table can be made over a book that was filled through the bound of a line output, if it says the bytes of a
    /// journal's lines since it was new. Where the output failed at a line after those, what its sink has is known too. The
    /// call computes nothing.
    pub fn has_its_log(&self)
        ensures whole { (F : List (List Literal)) (J : List Entry) (l : Layout) (f : ProofFormat) (sink : S) (asked : Bool) → IsEmptyWhereTold (S.written sink)
            → IsFilled (begun F (told_new S.written S.flushed S.target S.faults f (length F) sink asked)) J (told_of S.written S.flushed S.target S.faults self.now)
            → HasLog account_of (IsLogOf S.written S.flushed S.target S.faults) self.now (origin_of S.written S.flushed S.target S.faults self.now) l F J × IsFrom S.target S.faults f sink asked (origin_of S.written S.flushed S.target S.faults self.now) }
        ensures cut { (F : List (List Literal)) (J : List Entry) (l : Layout) (f : ProofFormat) (sink : S) (asked : Bool) → IsEmptyWhereTold (S.written sink)
            → IsCutOff (begun F (told_new S.written S.flushed S.target S.faults f (length F) sink asked)) J l.vars (told_of S.written S.flushed S.target S.faults self.now)
            → IsCutLog S.written S.flushed S.target S.faults f sink self.now l F J }
    {}

    /// Makes ready for the line that adds the clause: what follows takes no memory.
    pub(crate) fn prepare_addition(&mut self, lits: &[Lit]) -> Result<(), AllocError>
        ensures same { AreAlike self.old self.new }
        ensures ready { OnOk result (IsReady self.new.log.kept (Add lits.now)) }
    {
        self.log.prepare_addition(lits)
    }

    /// Makes ready for the line that deletes the clause: what follows takes no memory.
    pub(crate) fn prepare_deletion(&mut self, lits: &[Lit]) -> Result<(), AllocError>
        ensures same { AreAlike self.old self.new }
        ensures ready { OnOk result (IsReady self.new.log.kept (Del lits.now)) }
    {
        self.log.prepare_deletion(lits)
    }

    /// Puts the line that adds the clause after the others, with these hints, and answers its number.
    pub(crate) fn write_addition(&mut self, lits: &[Lit], hints: &[u64]) -> Result<u64, Failed>
        requires unspent { self.old.log.lines.spent ≡ false }
        requires room { self.old.entries < MAX_ENTRIES }
        requires ready { IsReady self.old.log.kept (Add lits.now) }
        ensures put { MatchResult result (λ _. HasPut S.written S.flushed S.target S.faults self.old self.new (Added (self.old.log.lines.last + 1) lits.now hints.now)) (λ _. HasFailed S.written S.flushed S.target S.faults self.old self.new (Added (self.old.log.lines.last + 1) lits.now hints.now)) }
        ensures number { IfOk result (λ n. n ≡ self.old.log.lines.last + 1) }
    {
        match self.log.add(lits, hints) {
            Ok(number) => {
                self.ended = self.ended || lits.is_empty();
                self.entries += 1;
                Ok(number)
            }
            Err(LineStop::ProofFault) => Err(Failed),
            // `room`: fewer lines stand
            Err(LineStop::Full) => unreachable!(),
            // `ready`: what the line needs was taken before
            Err(LineStop::Memory) => unreachable!(),
        }
    }

    /// Puts the line that deletes the clause with this number after the others.
    pub(crate) fn write_deletion(&mut self, number: u64, lits: &[Lit]) -> Result<(), Failed>
        requires unspent { self.old.log.lines.spent ≡ false }
        requires room { self.old.entries < MAX_ENTRIES }
        requires ready { IsReady self.old.log.kept (Del lits.now) }
        ensures { MatchResult result (λ _. HasPut S.written S.flushed S.target S.faults self.old self.new (Deleted self.old.log.lines.last number lits.now)) (λ _. HasFailed S.written S.flushed S.target S.faults self.old self.new (Deleted self.old.log.lines.last number lits.now)) }
    {
        match self.log.del(number, lits) {
            Ok(()) => {
                self.entries += 1;
                Ok(())
            }
            Err(LineStop::ProofFault) => Err(Failed),
            // `room`: fewer lines stand
            Err(LineStop::Full) => unreachable!(),
            // `ready`: what the line needs was taken before
            Err(LineStop::Memory) => unreachable!(),
        }
    }

    /// Counts an entry that has no line.
    pub(crate) fn count_entry(&mut self)
        requires { self.old.entries < MAX_ENTRIES }
        ensures { CountsOneMore self.old self.new }
    {
        self.entries += 1;
    }

    /// Makes the entry that begins a round of the rings, whatever clauses and units they start with. It has no line, and takes
    /// no memory. It is refused only if as many entries stand as can.
    pub fn open_round(&mut self) -> Result<(), LineStop>
        requires whole { self.old.log.lines.spent ≡ false }
        ensures counted { MatchResult result (λ _. CountsOneMore self.old self.new) (λ stop. IsFull self.old self.new stop) }
        ensures filled { OnOk result ((o : Origin) (J : List Entry) (x : RoundStart) → IsFilled o J (told_of S.written S.flushed S.target S.faults self.old) → IsFilled o (J ++ Round x ∷ []) (told_of S.written S.flushed S.target S.faults self.new)) }
    {
        if self.entries >= MAX_ENTRIES {
            return Err(LineStop::Full);
        }
        self.count_entry();
        Ok(())
    }

    /// Writes what waits, flushes, and gives the sink back, with the lines where they were asked for. It fails exactly if
    /// the sink fails now, or failed before; of a broken book it only flushes.
    pub fn finish(self) -> (Result<(), Failed>, S, Option<Vec<Line>>)
        ensures kept { option_map (λ v. v.items) result.2 ≡ self.log.kept.lines }
        ensures whole { OnOk result.0 ((self.log.lines.spent ≡ false) × (S.written result.1 ≡ append_known (S.written self.log.lines.sink) self.log.lines.waiting) × (S.flushed result.1 ≡ S.written result.1)) }
        ensures front { OnErr result.0 (IsFront (S.written result.1) (append_known (S.written self.log.lines.sink) self.log.lines.waiting)) }
        ensures broken { self.log.lines.spent ≡ true → (is_err result.0 ≡ true) × (S.written result.1 ≡ S.written self.log.lines.sink) }
        ensures cause { self.log.lines.spent ≡ false → HasCause (S.faults self.log.lines.sink) (S.faults result.1) result.0 }
        ensures flushed { (S.flushed result.1 ≡ S.written result.1) ⊎ ((S.flushed result.1 ≡ S.flushed self.log.lines.sink) × Rose (S.faults self.log.lines.sink) (S.faults result.1)) }
        ensures later { S.faults self.log.lines.sink ≤ S.faults result.1 }
        ensures ended { HasEnded S.written S.flushed S.faults self result.1 }
        ensures target { S.target result.1 ≡ S.target self.log.lines.sink }
    {
        let Book { log, .. } = self;
        let (written, mut sink, lines) = log.finish();
        let flushed = sink.flush();
        let result = match written {
            Ok(()) => flushed,
            Err(Failed) => Err(Failed),
        };
        (result, sink, lines)
    }
}

impl<S: Sink> LineOut for Book<S> {
    ghost use Rattle.log_book.specs.Books.{told_of};

    ghost told = { told_of S.written S.flushed S.target S.faults };

    fn format(&self) -> ProofFormat {
        self.log.format()
    }

    fn add(&mut self, lits: &[Lit], hints: &[u64]) -> Result<u64, LineStop> {
        if self.entries == MAX_ENTRIES {
            return Err(LineStop::Full);
        }
        if self.prepare_addition(lits).is_err() {
            return Err(LineStop::Memory);
        }
        match self.write_addition(lits, hints) {
            Ok(number) => Ok(number),
            Err(Failed) => Err(LineStop::ProofFault),
        }
    }

    fn del(&mut self, number: u64, lits: &[Lit]) -> Result<(), LineStop> {
        if self.entries == MAX_ENTRIES {
            return Err(LineStop::Full);
        }
        if self.prepare_deletion(lits).is_err() {
            return Err(LineStop::Memory);
        }
        match self.write_deletion(number, lits) {
            Ok(()) => Ok(()),
            Err(Failed) => Err(LineStop::ProofFault),
        }
    }
}
