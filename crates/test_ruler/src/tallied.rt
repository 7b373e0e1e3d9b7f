// Lines beside a tally of how far the log has come.
ghost use Rattle.std.specs.Prelude.{◌≡◌};

use drat_text::{LineOut, LineStop, SinkLines};
use io_edge::MemSink;
use sat_words::{Lit, ProofFormat};
use simp_base::LogEnd;
use std::marker::Model;

/// Lines that are kept as text.
pub(crate) type Written = Tallied<SinkLines<MemSink<'static>>>;

/// A line output, and how far its log has come.
#[derive(Drop)]
pub(crate) struct Tallied<L: LineOut> {
    lines: L,
    end: LogEnd,
}

impl<L: LineOut> Model for Tallied<L> {
    ghost use Rattle.std.specs.Prelude.{◌≡◌};
    ghost use Rattle.drat_text.specs.LineState.{LineState};

    ghost Value = { LineState };

    ghost view = { λ t. L.told t.lines };

    ghost invariant = { λ t. (t.end.entries ≡ (L.told t.lines).entries) × (t.end.last ≡ (L.told t.lines).last) };
}

impl<L: LineOut> Tallied<L> {
    /// Lines of which none was put yet, for a formula of this many clauses.
    pub(crate) fn new(lines: L, clauses: u64) -> Self
        requires blank { (L.told lines).entries ≡ 0 }
        requires last { (L.told lines).last ≡ clauses }
        ensures { result ≡ L.told lines }
    {
        Tallied {
            lines,
            end: LogEnd {
                entries: 0,
                last: clauses,
            },
        }
    }

    /// How far the log has come.
    pub(crate) fn end(&self) -> LogEnd
        ensures entries { result.entries ≡ self.now.entries }
        ensures last { result.last ≡ self.now.last }
    {
        self.end
    }

    /// The lines alone.
    pub(crate) fn into_lines(self) -> L
        ensures { L.told result ≡ self }
    {
        let Tallied { lines, .. } = self;
        lines
    }
}

impl<L: LineOut> LineOut for Tallied<L> {
    ghost told = { λ t. t };

    fn format(&self) -> ProofFormat {
        self.lines.format()
    }

    fn add(&mut self, lits: &[Lit], hints: &[u64]) -> Result<u64, LineStop> {
        let number = match self.lines.add(lits, hints) {
            Ok(number) => number,
            Err(stop) => return Err(stop),
        };
        self.end.entries += 1;
        self.end.last = number;
        Ok(number)
    }

    fn del(&mut self, number: u64, lits: &[Lit]) -> Result<(), LineStop> {
        match self.lines.del(number, lits) {
            Ok(()) => {}
            Err(stop) => return Err(stop),
        }
        self.end.entries += 1;
        Ok(())
    }
}
