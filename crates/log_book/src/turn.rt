// The turn.
ghost use Rattle.std.specs.Prelude.{◌≡◌};

use crate::book::Book;
use io_edge::Sink;
use share_rule::{Note, Refusal};

/// What a ring has while the turn is its own: the book, and what it wrote since it took it. It must be given back.
///
/// Only the turn's own calls write into the book and note what was written or refused, so that what is noted as the turn is
/// given back is what they did.
pub struct Turn<S: Sink> {
    /// The book.
    pub(crate) book: Book<S>,
    /// What was written, in order.
    pub(crate) noted: Vec<Note>,
    /// What was refused last.
    pub(crate) refused: Option<Refusal>,
}

impl<S: Sink> Turn<S> {
    /// The last number that an addition was given.
    pub fn last(&self) -> u64
        ensures { result ≡ self.now.book.log.lines.last }
    {
        self.book.last()
    }
}
