// `log_book`: books over sinks in memory, each call of which fails in turn.
ghost use Rattle.std.specs.Prelude.{◌≡◌, false, IfOk, OnOk};

use crate::books::{add_one, delete_one, new_book};
use drat_text::LineStop;
use io_edge::{Failed, MemSink, Sink};
use log_book::Book;
use sat_words::{Line, Lit, Lits, ProofFormat};
use std::alloc::Global;
use std::test::Fail;

/// A book in this format for a formula of one clause, over a sink in memory.
fn book<'a>(
    alloc: Global,
    format: ProofFormat,
    fails: &'a [u64],
    keep: bool,
) -> Result<Book<MemSink<'a>>, Fail>
    ensures unspent { IfOk result (λ b. b.log.lines.spent ≡ false) }
{
    new_book(alloc, format, MemSink::new(alloc, 1 << 17, fails)?, keep)
}

/// Adds the clause this many times, as long as the numbers from 2 on are answered. Tells how often it was added, and what
/// stopped it.
fn add_often<S: Sink>(book: &mut Book<S>, lits: &[Lit], times: u32) -> (u32, Option<LineStop>)
    requires unspent { book.old.log.lines.spent ≡ false }
{
    for done in 0..times {
        match add_one(book, lits, &[]) {
            Ok(number) => {
                if number != done as u64 + 2 {
                    return (done, None);
                }
            }
            Err(stop) => return (done, Some(stop)),
        }
    }
    (times, None)
}

/// What becomes of a book over a sink if these of its calls fail: how often a line of six bytes is put, what stopped it,
/// the last number, how the book ends, how many bytes the sink then has, and how many lines were kept.
type Ending = (
    u32,
    Option<LineStop>,
    u64,
    Result<(), Failed>,
    usize,
    Option<usize>,
);

fn ending(alloc: Global, fails: &[u64], times: u32, keep: bool) -> Result<Ending, Fail> {
    let lits = [Lit::new(1, false), Lit::new(2, false)];
    let mut book = book(alloc, ProofFormat::Text, fails, keep)?;
    let (done, stop) = add_often(&mut book, &lits, times);
    let last = book.last();
    book.has_its_log();
    let (end, sink, lines) = book.finish();
    let kept = lines.map(|lines| lines.len());
    Ok((done, stop, last, end, sink.bytes().len(), kept))
}

const FAULT: Option<LineStop> = Some(LineStop::ProofFault);

const FAILED: Result<(), Failed> = Err(Failed);

/// Which calls of the sink fail, how often the line is put, and what becomes of the book. A block of 65,536 bytes is full within
/// the 10,923rd line. The calls of the sink are two writes and a flush.
static ENDINGS: [(&[u64], u32, Ending); 7] = [
    (&[], 10_922, (10_922, None, 10_923, Ok(()), 65_532, None)),
    (&[], 10_923, (10_923, None, 10_924, Ok(()), 65_538, None)),
    (&[1], 10_922, (10_922, None, 10_923, FAILED, 0, None)),
    (&[1], 10_923, (10_922, FAULT, 10_923, FAILED, 0, None)),
    (&[2], 10_922, (10_922, None, 10_923, FAILED, 65_532, None)),
    (&[2], 10_923, (10_923, None, 10_924, FAILED, 65_536, None)),
    (&[3], 10_923, (10_923, None, 10_924, FAILED, 65_538, None)),
];

#[test]
fn a_block_is_written_whenever_it_is_full(rt: HostRuntime) -> Result<(), Fail> {
    for (fails, times, wanted) in &ENDINGS {
        let found = ending(rt.alloc(), fails, *times, false)?;
        assert!(rt; found == *wanted, "{times}");
    }
    Ok(())
}

#[test]
fn lines_are_kept_where_they_are_asked_for(rt: HostRuntime) -> Result<(), Fail> {
    let few = ending(rt.alloc(), &[], 7, true)?;
    let many = ending(rt.alloc(), &[1], 10_930, true)?;
    assert!(rt; few == (7, None, 8, Ok(()), 42, Some(7)));
    assert!(rt; many == (10_922, FAULT, 10_923, FAILED, 0, Some(10_922)));
    Ok(())
}

/// The last number before a clause is added, the number that it is given, and the last one then.
fn add_and_last<S: Sink>(book: &mut Book<S>, lits: &[Lit]) -> Result<(u64, u64, u64), LineStop>
    requires { book.old.log.lines.spent ≡ false }
    ensures { OnOk result (book.new.log.lines.spent ≡ false) }
{
    let before = book.last();
    let number = add_one(book, lits, &[])?;
    Ok((before, number, book.last()))
}

#[test]
fn a_deletion_is_given_no_number(rt: HostRuntime) -> Result<(), Fail> {
    let alloc = rt.alloc();
    let three = [Lit::new(3, false)];
    let mut book = book(alloc, ProofFormat::Text, &[], true)?;
    let lasts = add_and_last(&mut book, &three)?;
    delete_one(&mut book, 2, &three)?;
    let later_lasts = add_and_last(&mut book, &three)?;
    assert!(rt; [lasts, later_lasts] == [(1, 2, 2), (2, 3, 3)]);
    let (end, sink, lines) = book.finish();
    assert!(rt; end == Ok(()));
    assert!(rt; sink.bytes() == b"3 0\nd 3 0\n3 0\n".as_slice());
    let Some(lines) = lines else {
        return Err(Fail::from("no lines"));
    };
    assert!(rt;
        lines.as_slice()
            == [
                Line::Add(Lits::from_slice(alloc, &three)?),
                Line::Del(Lits::from_slice(alloc, &three)?),
                Line::Add(Lits::from_slice(alloc, &three)?)
            ]
            .as_slice()
    );
    Ok(())
}

/// The lines of a log in each format, to a sink in memory: two clauses with hints, a deletion, and the empty clause.
fn written_as(alloc: Global, format: ProofFormat, wanted: &[u8]) -> Result<bool, Fail> {
    let pair = [Lit::new(1, false), Lit::new(2, true)];
    let mut book = book(alloc, format, &[], false)?;
    add_one(&mut book, &pair, &[1])?;
    add_one(&mut book, &[Lit::new(3, false)], &[2, 1])?;
    delete_one(&mut book, 2, &pair)?;
    add_one(&mut book, &[], &[3])?;
    let (end, sink, _) = book.finish();
    Ok(end == Ok(()) && sink.bytes() == wanted)
}

#[test]
fn numbers_and_hints_are_written_in_lrat(rt: HostRuntime) -> Result<(), Fail> {
    let lrat = b"2 1 -2 0 1 0\n3 3 0 2 1 0\n3 d 2 0\n4 0 3 0\n".as_slice();
    assert!(rt; written_as(rt.alloc(), ProofFormat::Lrat, lrat)?);
    Ok(())
}

#[test]
fn drat_passes_over_numbers_and_hints(rt: HostRuntime) -> Result<(), Fail> {
    let text = b"1 -2 0\n3 0\nd 1 -2 0\n0\n".as_slice();
    let binary = [97, 2, 5, 0, 97, 6, 0, 100, 2, 5, 0, 97, 0];
    assert!(rt; written_as(rt.alloc(), ProofFormat::Text, text)?);
    assert!(rt; written_as(rt.alloc(), ProofFormat::Binary, binary.as_slice())?);
    Ok(())
}
