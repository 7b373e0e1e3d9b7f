// The book.
ghost use Rattle.std.specs.Prelude.{◌≤◌};
ghost use Rattle.sat_words.specs.declared.shared.TheConstants.{MAX_ENTRIES};

use crate::log_lines::LogLines;
use clause_cell::Holes;
use io_edge::Sink;
use share_rule::Ledger;

/// The proof's sink and the numbers of the log's lines, with the lines if they are asked for, and the words that are free
/// for cells.
#[derive(Drop)]
pub struct Book<S: Sink> {
    /// The lines on their way to the sink.
    pub log: LogLines<S>,
    /// How many entries stand: the lines, and the reductions, which have none.
    pub entries: u64,
    /// The empty clause was added since rings began.
    pub ended: bool,
    /// The words that are free for cells.
    pub holes: Holes,
    pub ghost counted: { log.lines.entries ≤ entries },
    pub ghost few: { entries ≤ MAX_ENTRIES },
}

impl<S: Sink> Ledger for Book<S> {
    ghost use Rattle.log_book.specs.Books.{account_of, origin_of, IsLogOf};

    ghost account = { account_of };

    ghost origin = { origin_of S.written S.flushed S.target S.faults };

    ghost stands = { IsLogOf S.written S.flushed S.target S.faults };

    fn entries(&self) -> u64 {
        self.entries
    }

    fn is_broken(&self) -> bool {
        self.log.is_spent()
    }

    fn hole_from(&self, first: u64) -> Option<u64> {
        self.holes.len_from(first)
    }

    fn with_holes(self, holes: Holes) -> Self {
        let Book {
            log,
            entries,
            ended: _,
            holes: _,
        } = self;
        Book {
            log,
            entries,
            ended: false,
            holes,
        }
    }
}
