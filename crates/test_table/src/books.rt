//! Books that take lines one by one.
ghost use Rattle.std.specs.Prelude.{◌≡◌, ◌+◌, false, IfOk, OnOk};
ghost use Rattle.drat_text.specs.LineOut.{WasPut, added_line, deleted_line};
ghost use Rattle.io_edge.specs.Paths.{IsEmptyWhereTold};
ghost use Rattle.log_book.specs.Books.{IsNew, told_of};

use drat_text::{LineOut, LineStop};
use io_edge::Sink;
use log_book::Book;
use sat_words::{Lit, ProofFormat};
use std::alloc::Global;
use std::test::Fail;

/// A book in this format for a formula of one clause, in a sink to which nothing was written.
pub fn new_book<S: Sink + Drop>(
    alloc: Global,
    format: ProofFormat,
    sink: S,
    keep_lines: bool,
) -> Result<Book<S>, Fail>
    requires { IsEmptyWhereTold (S.written sink) }
    ensures made { IfOk result (λ b. IsNew format 1 sink keep_lines b) }
    ensures unspent { IfOk result (λ b. b.log.lines.spent ≡ false) }
{
    match Book::new(alloc, format, 1, sink, keep_lines) {
        Ok(book) => Ok(book),
        Err(_) => Err(Fail::from("no memory")),
    }
}

/// Adds a clause with hints to a book whose sink has not failed, and answers its number.
pub fn add_one<S: Sink>(book: &mut Book<S>, lits: &[Lit], hints: &[u64]) -> Result<u64, LineStop>
    requires unspent { book.old.log.lines.spent ≡ false }
    ensures put { WasPut (told_of S.written S.flushed S.target S.faults book.old) (told_of S.written S.flushed S.target S.faults book.new) (added_line (told_of S.written S.flushed S.target S.faults book.old) lits.now hints.now) result }
    ensures number { IfOk result (λ n. n ≡ book.old.log.lines.last + 1) }
    ensures unspent { OnOk result (book.new.log.lines.spent ≡ false) }
{
    book.add(lits, hints)
}

/// Deletes the clause with this number and these literals from a book whose sink has not failed.
pub fn delete_one<S: Sink>(book: &mut Book<S>, number: u64, lits: &[Lit]) -> Result<(), LineStop>
    requires unspent { book.old.log.lines.spent ≡ false }
    ensures put { WasPut (told_of S.written S.flushed S.target S.faults book.old) (told_of S.written S.flushed S.target S.faults book.new) (deleted_line (told_of S.written S.flushed S.target S.faults book.old) number lits.now) result }
    ensures unspent { OnOk result (book.new.log.lines.spent ≡ false) }
{
    book.del(number, lits)
}
