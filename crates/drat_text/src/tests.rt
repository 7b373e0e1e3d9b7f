ghost use Rattle.std.specs.Prelude.{◌≡◌, false};

use crate::{
    LineOut, ReadLinesStop, SinkLines, a_front_ends_in_a_line, bytes_determine_lines,
    no_spelling_begins_another, one_line_is_the_first_bad, put_binary, read_lines,
};
use io_edge::{Failed, MemSink, NullSink, Sink};
use sat_words::{Line, Lit, Lits, ProofFormat};
use std::alloc::AllocGlobal;
use std::process::Abort;
use std::test::Fail;

/// Puts the line: an addition without hints, or the deletion of the first clause. Answers whether it stands.
fn put<S: Sink>(lines: &mut SinkLines<S>, line: &Line) -> bool
    requires { lines.old.spent ≡ false }
{
    match line {
        Line::Add(lits) => lines.add(lits.as_slice(), &[]).is_ok(),
        Line::Del(lits) => lines.del(1, lits.as_slice()).is_ok(),
    }
}

#[test]
fn lines_and_their_texts(rt: HostRuntime) -> Result<(), Fail> {
    let alloc = rt.alloc();
    let one = Lit::new(1, false);
    let two = Lit::new(2, true);
    let last = Lit::new(1 << 30, true);
    let ten = Lit::new(10, false);
    let table = [
        (Line::Add(Lits::from_slice(alloc, &[one, two])?), "1 -2 0\n"),
        (
            Line::Del(Lits::from_slice(alloc, &[one, two])?),
            "d 1 -2 0\n",
        ),
        (Line::Add(Lits::from_slice(alloc, &[two, one])?), "-2 1 0\n"),
        (Line::Add(Lits::from_slice(alloc, &[])?), "0\n"),
        (Line::Del(Lits::from_slice(alloc, &[])?), "d 0\n"),
        (
            Line::Add(Lits::from_slice(alloc, &[last, last.not(), ten])?),
            "-1073741824 1073741824 10 0\n",
        ),
    ];
    for (line, text) in &table {
        // The second call would fail: a short line is one write.
        let Ok(mut lines) = SinkLines::new(alloc, 0, MemSink::new(alloc, 64, &[2])?) else {
            return Err("no memory".into());
        };
        assert!(rt; put(&mut lines, line), "{text}");
        let (end, sink) = lines.finish();
        assert_eq!(rt; end, Ok(()), "{text}");
        assert!(rt; sink.bytes() == text.as_bytes(), "{text}");
    }
    bytes_determine_lines();
    no_spelling_begins_another();
    a_front_ends_in_a_line();
    Ok(())
}

#[test]
fn lines_in_binary(rt: HostRuntime) -> Result<(), Fail> {
    let alloc = rt.alloc();
    let one = Lit::new(1, false);
    let two = Lit::new(2, true);
    let table: [(Line, &[u8]); 4] = [
        (
            Line::Add(Lits::from_slice(alloc, &[one, two])?),
            &[97, 2, 5, 0],
        ),
        (
            Line::Del(Lits::from_slice(alloc, &[Lit::new(63, true), Lit::new(64, false)])?),
            &[100, 127, 128, 1, 0],
        ),
        (Line::Add(Lits::from_slice(alloc, &[])?), &[97, 0]),
        (
            Line::Add(Lits::from_slice(alloc, &[Lit::new(1 << 30, false)])?),
            &[97, 128, 128, 128, 128, 8, 0],
        ),
    ];
    for (line, wanted) in &table {
        let mut alone = MemSink::new(alloc, 64, &[2])?;
        assert!(rt; put_binary(&mut alone, line).is_ok());
        assert!(rt; alone.bytes() == *wanted);
        let sink = MemSink::new(alloc, 64, &[2])?;
        let Ok(mut lines) = SinkLines::with_format(alloc, ProofFormat::Binary, 0, sink) else {
            return Err("no memory".into());
        };
        assert!(rt; put(&mut lines, line));
        let (end, sink) = lines.finish();
        assert_eq!(rt; end, Ok(()));
        assert!(rt; sink.bytes() == *wanted);
    }
    Ok(())
}

/// A line of 6,002 bytes goes to the sink in two pieces, the second of which fails.
#[test]
fn a_line_in_binary_is_cut(rt: HostRuntime) -> Result<(), Fail> {
    let alloc = rt.alloc();
    let mut lits = Vec::new(alloc);
    for _ in 0..3000 {
        lits.push(Lit::new(64, false))?;
    }
    let line = Line::Add(Lits::from_vec(lits));
    let mut sink = MemSink::new(alloc, 8192, &[2])?;
    let stop = put_binary(&mut sink, &line);
    assert!(rt; stop.is_err_and(|stop| stop.taken == sink.bytes().len()));
    assert!(rt; sink.bytes().len() > 4000 && sink.bytes().len() < 4097);
    let mut whole = MemSink::new(alloc, 8192, &[])?;
    assert!(rt; put_binary(&mut whole, &line).is_ok());
    assert_eq!(rt; whole.bytes().len(), 6002);
    Ok(())
}

/// Puts the line this many times, unless the sink fails before. Answers how often it was put.
fn put_often<S: Sink>(lines: &mut SinkLines<S>, line: &Line, times: u32) -> u32 {
    for done in 0..times {
        if lines.is_spent() || !put(lines, line) {
            return done;
        }
    }
    times
}

/// How often a line of six bytes is put, how many bytes the sink then has, and how many once the lines are finished,
/// if these calls of the sink fail.
fn blocks(
    rt: &(impl Abort + AllocGlobal),
    fails: &[u64],
    times: u32,
) -> Result<(u32, usize, Result<(), Failed>), Fail> {
    let alloc = rt.alloc();
    let line = Line::Add(Lits::from_slice(alloc, &[Lit::new(1, false), Lit::new(2, false)])?);
    let sink = MemSink::new(alloc, 1 << 17, fails)?;
    let Ok(mut lines) = SinkLines::new(alloc, 0, sink) else {
        return Err("no memory".into());
    };
    let done = put_often(&mut lines, &line, times);
    let (end, sink) = lines.finish();
    Ok((done, sink.bytes().len(), end))
}

#[test]
fn a_write_has_a_whole_block(rt: HostRuntime) -> Result<(), Fail> {
    // A block of 65,536 bytes is full within the 10,923rd line.
    let table: [(&[u64], u32, (u32, usize, Result<(), Failed>)); 6] = [
        (&[], 10_922, (10_922, 65_532, Ok(()))),
        (&[], 10_923, (10_923, 65_538, Ok(()))),
        (&[2], 10_922, (10_922, 65_532, Ok(()))),
        (&[2], 10_923, (10_923, 65_536, Err(Failed))),
        (&[1], 10_922, (10_922, 0, Err(Failed))),
        (&[1], 10_923, (10_922, 0, Err(Failed))),
    ];
    for (fails, times, wanted) in table {
        let found = blocks(&rt, fails, times)?;
        assert!(rt; found == wanted, "{times}");
    }
    Ok(())
}

#[test]
fn lines_put_one_by_one(rt: HostRuntime) -> Result<(), Fail> {
    let alloc = rt.alloc();
    let three = [Lit::new(3, false)];
    let Ok(mut lines) = SinkLines::new(alloc, 7, MemSink::new(alloc, 64, &[])?) else {
        return Err("no memory".into());
    };
    assert!(rt; lines.add(&three, &[]) == Ok(8));
    assert!(rt; lines.del(8, &three) == Ok(()));
    assert!(rt; lines.add(&three, &[]) == Ok(9));
    let (end, sink) = lines.finish();
    assert_eq!(rt; end, Ok(()));
    assert!(rt; sink.bytes() == b"3 0\nd 3 0\n3 0\n".as_slice());
    Ok(())
}

#[test]
fn lines_in_lrat(rt: HostRuntime) -> Result<(), Fail> {
    let alloc = rt.alloc();
    let two = Lit::new(2, false);
    let three = Lit::new(3, false);
    let sink = MemSink::new(alloc, 64, &[2])?;
    let Ok(mut lines) = SinkLines::with_format(alloc, ProofFormat::Lrat, 2, sink) else {
        return Err("no memory".into());
    };
    assert!(rt; lines.add(&[two, three], &[1, 2]) == Ok(3));
    assert!(rt; lines.del(2, &[two, three]) == Ok(()));
    assert!(rt; lines.add(&[two.not()], &[]) == Ok(4));
    assert!(rt; lines.add(&[], &[1, 4]) == Ok(5));
    let (end, sink) = lines.finish();
    assert_eq!(rt; end, Ok(()));
    assert!(rt; sink.bytes() == b"3 2 3 0 1 2 0\n3 d 2 0\n4 -2 0 0\n5 0 1 4 0\n".as_slice());
    Ok(())
}

#[test]
fn numbers_of_all_sizes(rt: HostRuntime) -> Result<(), Fail> {
    let alloc = rt.alloc();
    let sink = MemSink::new(alloc, 256, &[])?;
    let Ok(mut lines) = SinkLines::with_format(alloc, ProofFormat::Lrat, 1 << 63, sink) else {
        return Err("no memory".into());
    };
    let hints = [
        9,
        10,
        1000,
        999_999,
        1_000_000,
        4_294_967_295,
        4_294_967_296,
        999_999_999_999_999,
        1_000_000_000_000_000,
        1_000_000_000_000_000_000,
    ];
    assert!(rt; lines.add(&[], &hints).is_ok());
    assert!(rt; lines.del(9_000_000_000_000_000_001, &[]).is_ok());
    let (end, sink) = lines.finish();
    assert_eq!(rt; end, Ok(()));
    assert!(rt;
        sink.bytes()
            == b"9223372036854775809 0 9 10 1000 999999 1000000 4294967295 4294967296 999999999999999 1000000000000000 1000000000000000000 0\n9223372036854775809 d 9000000000000000001 0\n".as_slice()
    );
    Ok(())
}

/// Adds the bytes this many times.
fn repeat(to: &mut Vec<u8>, bytes: &[u8], times: u32) -> Result<(), Fail> {
    for _ in 0..times {
        to.extend_from_slice(bytes)?;
    }
    Ok(())
}

/// A line of 186,006 bytes, and 9,000 lines of nine bytes after it.
#[test]
fn blocks_in_lrat(rt: HostRuntime) -> Result<(), Fail> {
    let alloc = rt.alloc();
    let sink = MemSink::new(alloc, 1 << 19, &[])?;
    let Ok(mut lines) = SinkLines::with_format(alloc, ProofFormat::Lrat, 2, sink) else {
        return Err("no memory".into());
    };
    let lits = vec![in alloc; Lit::new(12, true); 15_000]?;
    let hints = vec![in alloc; 123_456; 18_000]?;
    assert!(rt; lines.add(&lits, &hints) == Ok(3));
    for _ in 0..9000 {
        assert!(rt; !lines.is_spent() && lines.del(12, &lits).is_ok());
    }
    let (end, sink) = lines.finish();
    assert_eq!(rt; end, Ok(()));
    let mut wanted = Vec::new(alloc);
    repeat(&mut wanted, b"3 ", 1)?;
    repeat(&mut wanted, b"-12 ", 15_000)?;
    repeat(&mut wanted, b"0 ", 1)?;
    repeat(&mut wanted, b"123456 ", 18_000)?;
    repeat(&mut wanted, b"0\n", 1)?;
    repeat(&mut wanted, b"3 d 12 0\n", 9000)?;
    assert!(rt; sink.bytes() == wanted.as_slice());
    Ok(())
}

#[test]
fn lines_that_go_nowhere(rt: HostRuntime) -> Result<(), Fail> {
    let alloc = rt.alloc();
    let three = [Lit::new(3, false)];
    let Ok(mut lines) = SinkLines::new(alloc, 7, NullSink) else {
        return Err("no memory".into());
    };
    assert!(rt; lines.add(&three, &[]) == Ok(8));
    assert!(rt; lines.add(&three, &[]) == Ok(9));
    let (end, _) = lines.finish();
    assert_eq!(rt; end, Ok(()));
    Ok(())
}

#[test]
fn texts_and_what_they_say(rt: HostRuntime) -> Result<(), Fail> {
    let alloc = rt.alloc();
    let one = Lit::new(1, false);
    let two = Lit::new(2, true);
    let last = Lit::new(1 << 30, true);
    let lines = [
        Line::Add(Lits::from_slice(alloc, &[one, two])?),
        Line::Del(Lits::from_slice(alloc, &[one, two])?),
        Line::Add(Lits::from_slice(alloc, &[])?),
        Line::Add(Lits::from_slice(alloc, &[last])?),
    ];
    let text = b"1 -2 0\nd 1 -2 0\n0\n-1073741824 0\n";
    let read = read_lines(alloc, text);
    assert!(rt; read.is_ok_and(|read| read.as_slice() == lines.as_slice()));
    let bad: [(&[u8], u64); 12] = [
        (b"1  0\n", 1),
        (b"01 0\n", 1),
        (b"-0 0\n", 1),
        (b"+1 0\n", 1),
        (b"1073741825 0\n", 1),
        (b"0\n1 0", 2),
        (b"0\n\n", 2),
        (b"0\n 0\n", 2),
        (b"0\nd  1 0\n", 2),
        (b"1 0\n2 0\nc 0\n", 3),
        (b"1 0\r\n", 1),
        (b"1 2\n", 1),
    ];
    for (text, line) in bad {
        assert!(rt;
            read_lines(alloc, text).is_err_and(|stop| stop == ReadLinesStop::BadLine(line)),
            "{line}"
        );
    }
    assert!(rt; read_lines(alloc, b"").is_ok_and(|read| read.is_empty()));
    one_line_is_the_first_bad();
    Ok(())
}
