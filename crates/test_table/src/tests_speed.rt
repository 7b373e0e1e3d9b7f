// `log_book`, as bench/turn measures it: lines that are put, and as many bytes that are written plainly.
use crate::books::{add_one, new_book};
use io_edge::{Failed, Sink};
use sat_words::{Lit, ProofFormat};
use std::alloc::Global;
use std::test::Fail;

/// Takes all bytes, and counts them.
#[derive(Drop)]
struct Counter {
    bytes: u64,
}

impl Sink for Counter {
    ghost use Rattle.std.specs.Prelude.{None};

    // It says nothing.
    ghost written = { λ s. None };

    ghost flushed = { λ s. None };

    ghost target = { λ s. None };

    ghost faults = { λ s. 0 };

    fn is_nowhere(&self) -> bool {
        false
    }

    fn write(&mut self, bytes: &[u8]) -> Result<usize, Failed> {
        self.bytes = self.bytes.saturating_add(bytes.len() as u64);
        Ok(bytes.len())
    }

    fn flush(&mut self) -> Result<(), Failed> {
        Ok(())
    }
}

/// How many lines are put.
const LINES: u32 = 1_000_000;

/// A line of ten literals, and its text.
const TEXT: &[u8] = b"100001 100002 100003 100004 100005 100006 100007 100008 100009 100010 0\n";

fn ten_literals(alloc: Global) -> Result<Vec<Lit>, Fail> {
    let mut lits = Vec::new(alloc);
    for var in 100_001..100_011 {
        lits.push(Lit::new(var, false))?;
    }
    Ok(lits)
}

/// Puts a line this often, and says how many bytes came to the sink.
fn put_lines(alloc: Global, format: ProofFormat, times: u32) -> Result<u64, Fail> {
    let lits = ten_literals(alloc)?;
    let mut book = new_book(alloc, format, Counter { bytes: 0 }, false)?;
    for _ in 0..times {
        add_one(&mut book, lits.as_slice(), &[])?;
    }
    let (_, sink, _) = book.finish();
    Ok(sink.bytes)
}

#[test]
fn lines_are_put(rt: HostRuntime) -> Result<(), Fail> {
    let bytes = put_lines(rt.alloc(), ProofFormat::Text, LINES)?;
    assert!(rt; bytes == LINES as u64 * TEXT.len() as u64);
    Ok(())
}

#[test]
fn four_times_as_many_lines_are_put(rt: HostRuntime) -> Result<(), Fail> {
    let bytes = put_lines(rt.alloc(), ProofFormat::Text, 4 * LINES)?;
    assert!(rt; bytes == 4 * LINES as u64 * TEXT.len() as u64);
    Ok(())
}

/// A line of ten literals in binary: a byte that says what it does, three bytes a literal, and a zero.
const BINARY: u64 = 32;

#[test]
fn lines_in_binary_are_put(rt: HostRuntime) -> Result<(), Fail> {
    let bytes = put_lines(rt.alloc(), ProofFormat::Binary, LINES)?;
    assert!(rt; bytes == LINES as u64 * BINARY);
    Ok(())
}

/// Gathers bytes in a block this often, and says how many came to the sink.
fn write_plainly(alloc: Global, text: &[u8], times: u32) -> Result<u64, Fail> {
    let mut sink = Counter { bytes: 0 };
    let mut block = Vec::with_capacity(alloc, 65_536)?;
    for _ in 0..times {
        if block.len() >= 65_000 {
            if sink.write(block.as_slice()).is_err() {
                return Err(Fail::from("not written"));
            }
            block.clear();
        }
        block.extend_from_slice(text)?;
    }
    if sink.write(block.as_slice()).is_err() {
        return Err(Fail::from("not written"));
    }
    Ok(sink.bytes)
}

#[test]
fn as_many_bytes_are_written_plainly(rt: HostRuntime) -> Result<(), Fail> {
    let bytes = write_plainly(rt.alloc(), TEXT, LINES)?;
    assert!(rt; bytes == LINES as u64 * TEXT.len() as u64);
    Ok(())
}
