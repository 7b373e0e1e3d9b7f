// Whole calls over objects in memory.
use crate::tests_call::{TestGate, call};
use io_edge::{Files, MemFile, MemFiles, MemOutput, MemSink, MemSource};
use sat_words::Assignment;
use std::alloc::Global;
use std::process::Abort;
use std::sync::Wait;
use std::test::Fail;
use std::thread::Threads;
use top_call::{Remarks, SearchVerdict, Tally, answer_text_to};

const ROOM: usize = 8192;

/// Rings beside each other write more lines than one.
const PROOF_ROOM: usize = 1 << 18;

const NEVER: &[u64] = &[];

const FIRST: &[u64] = &[1];

const SECOND: &[u64] = &[2];

/// What goes in, which calls fail, and what must come out.
#[derive(Clone, Copy)]
struct Row {
    words: &'static [&'static str],
    input: &'static [u8],
    input_fails: &'static [u64],
    inputs: &'static [MemFile<'static>],
    files_fail: &'static [u64],
    proof_fails: &'static [u64],
    out_fails: &'static [u64],
    err_fails: &'static [u64],
    status: u8,
    out: &'static [u8],
    err: &'static [u8],
    opened: bool,
    /// None if no proof's writer may be there; its bytes are compared if `compares_proof` says so.
    proof: Option<&'static [u8]>,
    compares_proof: bool,
    /// What the proof begins with.
    front: &'static [u8],
    /// Whether the proof's last line is the empty clause, and no other line is. In LRAT each line then has hints.
    ends_log: bool,
    /// Whether all that the proof's writer took was flushed, else none of it.
    flushes_proof: bool,
    /// What is left of standard input if each read gives one byte.
    left: &'static [u8],
    /// A number for each ring; the numbers are compared if `compares_learned` says so.
    learned: &'static [u64],
    compares_learned: bool,
    /// What the numbers add up to, if that is compared.
    together: Option<u64>,
    /// The least that they may add up to.
    at_least: u64,
    need: u64,
    largest: u64,
    code: u8,
    line: u64,
}

const NOTHING: &[u8] = b"p cnf 0 0\n";

/// A call without words on a formula with a model.
const PLAIN: Row = Row {
    words: &[],
    input: NOTHING,
    input_fails: NEVER,
    inputs: &[],
    files_fail: NEVER,
    proof_fails: NEVER,
    out_fails: NEVER,
    err_fails: NEVER,
    status: 10,
    out: b"",
    err: b"",
    opened: false,
    proof: Some(b""),
    compares_proof: true,
    front: b"",
    ends_log: false,
    flushes_proof: true,
    left: b"",
    learned: &[],
    compares_learned: true,
    together: None,
    at_least: 0,
    need: 0,
    largest: 0,
    code: 0,
    line: 0,
};

fn is_same(found: &[u8], wanted: &[u8]) -> bool {
    found == wanted
}

fn are_same(found: &[u64], wanted: &[u64]) -> bool {
    found == wanted
}

fn sum_of(numbers: &[u64]) -> u64 {
    let mut sum = 0;
    for number in numbers {
        sum = u64::saturating_add(sum, *number);
    }
    sum
}

/// A model is there exactly at status 10, and its text is the one that was printed.
fn check_model(
    rt: &(impl Abort + AllocGlobal),
    row: &Row,
    model: Option<Assignment>,
) -> Result<(), Fail> {
    assert_eq!(rt; model.is_some(), row.status == 10);
    let Some(model) = model else {
        return Ok(());
    };
    let vars = model.len();
    if vars > 30 {
        return Err(Fail::from("a model of too many variables"));
    }
    let remarks = Remarks {
        made: None,
        checked: row.words.contains(&"--check"),
    };
    let mut again = MemSink::new(rt.alloc(), ROOM, NEVER)?;
    assert!(rt;
        answer_text_to(
            &mut again,
            vars as u32,
            &remarks,
            &SearchVerdict::Satisfiable(model)
        )
        .is_ok()
    );
    assert!(rt; is_same(again.bytes(), row.out));
    Ok(())
}

/// Each ring put each lemma that it offered into a slot of each other ring, and offered none that it didn't learn.
fn check_offers(rt: &impl Abort, tally: &Tally) {
    let learned = tally.learned.as_slice();
    let offered = tally.offered.as_slice();
    let exported = tally.exported.as_slice();
    assert_eq!(rt; offered.len(), learned.len());
    assert_eq!(rt; exported.len(), learned.len());
    let others = learned.len().saturating_sub(1) as u64;
    for ring in 0..learned.len() {
        assert_eq!(rt; offered[ring], exported[ring].wrapping_mul(others));
        assert!(rt; exported[ring] <= learned[ring]);
    }
}

fn check_tally(rt: &impl Abort, row: &Row, tally: &Tally) {
    let learned = tally.learned.as_slice();
    assert_eq!(rt; learned.len(), row.learned.len());
    assert!(rt; !row.compares_learned || are_same(learned, row.learned));
    if let Some(together) = row.together {
        assert_eq!(rt; sum_of(learned), together);
    }
    assert!(rt; row.at_least <= sum_of(learned));
    check_offers(rt, tally);
    assert_eq!(rt; tally.need, row.need);
    assert_eq!(rt; tally.largest, row.largest);
    assert_eq!(rt; tally.code, row.code);
    assert_eq!(rt; tally.line, row.line);
}

/// Whether a line adds the clause without literals. In LRAT it has its number before and its hints after.
fn adds_nothing(line: &[u8], format: &str) -> bool {
    match format {
        "--binary" => is_same(line, b"a"),
        "--lrat" => {
            let mut words = line.split(|byte| *byte == b' ');
            let _number = words.next();
            words.next().is_some_and(|word| is_same(word, b"0"))
        }
        _ => is_same(line, b"0"),
    }
}

/// How many lines add the clause without literals, and whether the last does. A line in binary ends with a zero byte, and has
/// no other.
fn empty_lines(bytes: &[u8], format: &str) -> (u64, bool) {
    let end = if format == "--binary" { 0 } else { b'\n' };
    let mut count = 0;
    let mut last = false;
    for line in bytes.split(|byte| *byte == end) {
        if !line.is_empty() {
            last = adds_nothing(line, format);
            if last {
                count = u64::saturating_add(count, 1);
            }
        }
    }
    (count, last)
}

/// Whether a line in LRAT deletes, or names clauses between the 0 behind its literals and the one at its end.
fn has_hints(line: &[u8]) -> bool {
    let mut words = line.split(|byte| *byte == b' ');
    let _number = words.next();
    if words.next().is_some_and(|word| is_same(word, b"d")) {
        return true;
    }
    let words = line.split(|byte| *byte == b' ');
    words.skip_while(|word| !is_same(word, b"0")).count() > 2 && line.ends_with(b" 0")
}

/// Whether each line has hints, where the format has them.
fn lines_have_hints(bytes: &[u8], format: &str) -> bool {
    format != "--lrat"
        || bytes
            .split(|byte| *byte == b'\n')
            .all(|line| line.is_empty() || has_hints(line))
}

/// The word that asks for the format of the proof, if one does.
fn format_of<'a>(words: &[&'a str]) -> &'a str {
    if words.contains(&"--binary") {
        return "--binary";
    }
    if words.contains(&"--lrat") {
        return "--lrat";
    }
    ""
}

/// The proof's writer has these bytes, made sure of them, and is for the path of the words.
fn check_writer(rt: &impl Abort, row: &Row, wanted: &[u8], writer: &MemSink<'_>) {
    let taken = writer.bytes();
    assert!(rt; !row.compares_proof || is_same(taken, wanted));
    assert!(rt; taken.starts_with(row.front));
    if row.ends_log {
        let format = format_of(row.words);
        assert_eq!(rt; empty_lines(taken, format), (1, true));
        assert!(rt; lines_have_hints(taken, format));
    }
    let sure: &[u8] = if row.flushes_proof { taken } else { b"" };
    assert!(rt; is_same(writer.flushed_bytes(), sure));
    let path = if row.words.contains(&"--proof") {
        Some("P")
    } else {
        None
    };
    assert!(rt; writer.target() == path);
}

fn check_proof(rt: &impl Abort, row: &Row, proof: Option<MemSink<'_>>) -> Result<(), Fail> {
    match (proof, row.proof) {
        (Some(proof), Some(wanted)) => {
            check_writer(rt, row, wanted, &proof);
            Ok(())
        }
        (None, None) => Ok(()),
        _ => Err(Fail::from("the proof's writer is there or not")),
    }
}

fn check_out(rt: &impl Abort, row: &Row, out: &MemSink<'_>) {
    assert!(rt; is_same(out.bytes(), row.out));
    let sure: &[u8] = match row.status {
        10 | 20 | 0 => row.out,
        _ => b"",
    };
    assert!(rt; is_same(out.flushed_bytes(), sure));
}

/// A read of the whole leaves all of the input or nothing.
fn check_left(rt: &impl Abort, row: &Row, piece: usize, input: &MemSource<'_>) {
    let left = if piece == 1 || row.left.len() == row.input.len() {
        row.left
    } else {
        b""
    };
    assert!(rt; is_same(input.left(), left));
}

pub(crate) fn words_of(alloc: Global, words: &[&str]) -> Result<Vec<String>, Fail> {
    let mut strings = Vec::new(alloc);
    for word in words {
        strings.push(String::from_str(alloc, word)?)?;
    }
    Ok(strings)
}

/// The arguments of a row. If the row asks for no number of words, few are asked for, so that a call takes little memory.
fn words_of_row(alloc: Global, row: &Row) -> Result<Vec<String>, Fail> {
    let mut strings = Vec::new(alloc);
    if !row.words.contains(&"--words") {
        strings.push(String::from_str(alloc, "--words")?)?;
        strings.push(String::from_str(alloc, "65536")?)?;
    }
    for word in row.words {
        strings.push(String::from_str(alloc, word)?)?;
    }
    Ok(strings)
}

/// Makes the call with a standard input that gives at most `piece` bytes a read. If the words are refused, or the input can't be
/// opened, the proof is not created.
fn check_row<H: Threads + Wait + Abort + AllocGlobal + Sync>(
    rt: &H,
    row: Row,
    piece: usize,
) -> Result<(), Fail> {
    let alloc = rt.alloc();
    let words = words_of_row(alloc, &row)?;
    let mut outputs = Vec::new(alloc);
    outputs.push(MemOutput::new(alloc, "P", PROOF_ROOM, row.proof_fails)?)?;
    let spare = MemSink::new(alloc, PROOF_ROOM, row.proof_fails)?;
    let mut files = MemFiles::new(alloc, row.inputs, outputs, spare, row.files_fail);
    if piece == 0 {
        return Err(Fail::from("a piece of no byte"));
    }
    let mut input = MemSource::in_pieces(row.input, piece, row.input_fails);
    let mut out = MemSink::new(alloc, ROOM, row.out_fails)?;
    let mut err = MemSink::new(alloc, ROOM, row.err_fails)?;
    let report = call(
        rt,
        &words,
        &mut files,
        &mut input,
        &mut out,
        &mut err,
        &TestGate::open(),
    );
    assert_eq!(rt; report.status, row.status);
    assert_eq!(rt; report.file.is_some(), row.opened);
    assert!(rt; is_same(err.bytes(), row.err));
    check_out(rt, &row, &out);
    check_left(rt, &row, piece, &input);
    check_tally(rt, &row, &report.tally);
    check_model(rt, &row, report.model)?;
    if !row.opened && matches!(row.status, 1 | 3) {
        assert!(rt; files.create_output("P").is_ok());
    }
    check_proof(rt, &row, report.proof)
}

/// Makes each call whole and one byte a read.
fn check_rows<H: Threads + Wait + Abort + AllocGlobal + Sync>(
    rt: &H,
    rows: &[Row],
) -> Result<(), Fail> {
    for row in rows {
        check_row(rt, *row, 65536)?;
        check_row(rt, *row, 1)?;
    }
    Ok(())
}

/// An answer with a model, of four rings that learn nothing.
const MODEL: Row = Row {
    learned: &[0, 0, 0, 0],
    ..PLAIN
};

#[test]
fn models(rt: HostRuntime) -> Result<(), Fail> {
    let rows = [
        Row {
            out: b"s SATISFIABLE\nv 0\n",
            ..MODEL
        },
        Row {
            input: b"c x\np cnf 3 3\n1 0 -1 2\n0 -2 -3 0\n",
            out: b"s SATISFIABLE\nv 1 2 -3 0\n",
            proof: Some(b"2 0\n-3 0\nd -1 2 0\nd -2 -3 0\n"),
            ..MODEL
        },
        Row {
            input: b"p cnf 2 3\n1 1 0\n2 -2 0\n-1 -2 -2 0",
            out: b"s SATISFIABLE\nv 1 -2 0\n",
            proof: Some(b"-2 0\nd -1 -2 0\n"),
            ..MODEL
        },
        Row {
            input: b"p cnf 1 1\n-1 0\n%\n0\n",
            left: b"\n0\n",
            out: b"s SATISFIABLE\nv -1 0\n",
            ..MODEL
        },
        Row {
            input: b"p cnf 3 2\n1 0\n-2 0\n",
            out: b"s SATISFIABLE\nv 1 -2 -3 0\n",
            ..MODEL
        },
        // Every clause is taken away, and the stack gives the values back.
        Row {
            input: b"p cnf 3 4\n1 2 0\n-1 2 0\n-2 3 0\n-3 -1 0\n",
            out: b"s SATISFIABLE\nv -1 2 3 0\n",
            proof: Some(b"2 0\nd -1 2 0\n2 -3 0\nd 1 2 0\nd -1 -3 0\nd -2 3 0\nd 2 -3 0\n"),
            ..MODEL
        },
        // Only units are simplified.
        Row {
            words: &["--no-simplify"],
            input: b"p cnf 3 4\n1 2 0\n-1 2 0\n-2 3 0\n-3 -1 0\n",
            out: b"s SATISFIABLE\nv -1 2 3 0\n",
            compares_proof: false,
            compares_learned: false,
            ..MODEL
        },
    ];
    check_rows(&rt, &rows)
}

#[test]
fn a_seed_gives_the_first_phases(rt: HostRuntime) -> Result<(), Fail> {
    let row = Row {
        words: &["--threads", "1", "--no-simplify"],
        learned: &[0],
        input: b"p cnf 8 4\n1 2 0\n3 4 0\n5 6 0\n7 8 0\n",
        ..MODEL
    };
    let rows = [
        Row {
            out: b"s SATISFIABLE\nv 1 -2 3 -4 5 -6 7 -8 0\n",
            ..row
        },
        Row {
            words: &["--threads", "1", "--no-simplify", "--seed", "1"],
            out: b"s SATISFIABLE\nv 1 2 3 -4 5 -6 7 -8 0\n",
            ..row
        },
        Row {
            words: &["--threads", "1", "--no-simplify", "--seed", "2"],
            out: b"s SATISFIABLE\nv 1 -2 3 4 5 -6 -7 8 0\n",
            ..row
        },
    ];
    check_rows(&rt, &rows)
}

#[test]
fn a_model_of_two_lines(rt: HostRuntime) -> Result<(), Fail> {
    let row = Row {
        input: b"p cnf 30 30\n1 0\n2 0\n3 0\n4 0\n5 0\n6 0\n7 0\n8 0\n9 0\n10 0\n11 0\n12 0\n13 0\n14 0\n15 0\n16 0\n17 0\n18 0\n19 0\n20 0\n21 0\n22 0\n23 0\n24 0\n25 0\n26 0\n27 0\n28 0\n29 0\n30 0\n",
        out: b"s SATISFIABLE\nv 1 2 3 4 5 6 7 8 9 10 11 12 13 14 15 16 17 18 19 20 21 22 23 24 25 26 27 28\nv 29 30 0\n",
        ..MODEL
    };
    check_row(&rt, row, 1)
}

/// Each clause of two variables.
const TWO_VARIABLES: &[u8] = b"p cnf 2 4\n1 2 0\n1 -2 0\n-1 2 0\n-1 -2 0\n";

#[test]
fn refutations(rt: HostRuntime) -> Result<(), Fail> {
    let refuted = Row {
        words: &["--proof", "P"],
        status: 20,
        out: b"s UNSATISFIABLE\n",
        proof: Some(b"0\n"),
        ..MODEL
    };
    let rows = [
        Row {
            input: b"p cnf 0 1\n0\n",
            ..refuted
        },
        Row {
            input: b"p cnf 1 2\n1 0\n-1 0\n",
            ..refuted
        },
        Row {
            input: TWO_VARIABLES,
            proof: Some(b"1 0\nd 1 -2 0\n2 0\nd -1 2 0\n0\n"),
            ..refuted
        },
        Row {
            words: &["--threads", "1", "--no-simplify", "--proof", "P"],
            input: TWO_VARIABLES,
            proof: Some(b"2 0\n0\n"),
            learned: &[1],
            ..refuted
        },
    ];
    check_rows(&rt, &rows)
}

/// The proof in binary: `a` adds a clause and `d` deletes one, a literal is twice its variable, and one more if it is
/// negative, and a zero byte ends the line.
#[test]
fn refutations_in_binary(rt: HostRuntime) -> Result<(), Fail> {
    let refuted = Row {
        words: &["--binary", "--proof", "P"],
        status: 20,
        out: b"s UNSATISFIABLE\n",
        proof: Some(&[97, 0]),
        ..MODEL
    };
    let rows = [
        Row {
            input: b"p cnf 1 2\n1 0\n-1 0\n",
            ..refuted
        },
        Row {
            input: TWO_VARIABLES,
            proof: Some(&[97, 2, 0, 100, 2, 5, 0, 97, 4, 0, 100, 3, 4, 0, 97, 0]),
            ..refuted
        },
        Row {
            words: &[
                "--threads",
                "1",
                "--no-simplify",
                "--check",
                "--binary",
                "--proof",
                "P",
            ],
            input: TWO_VARIABLES,
            out: b"c proof accepted\ns UNSATISFIABLE\n",
            proof: Some(&[97, 4, 0, 97, 0]),
            learned: &[1],
            ..refuted
        },
        // Without a path the format is of what goes nowhere.
        Row {
            words: &["--binary"],
            input: TWO_VARIABLES,
            compares_proof: false,
            ..refuted
        },
        // A write fails.
        Row {
            input: TWO_VARIABLES,
            proof_fails: FIRST,
            status: 7,
            out: b"",
            err: b"gimsatul: proof fault\n",
            proof: Some(b""),
            ..refuted
        },
    ];
    check_rows(&rt, &rows)
}

/// The proof in LRAT: a line begins with the number of its clause and ends with hints; a deletion has the last number given.
#[test]
fn refutations_with_hints(rt: HostRuntime) -> Result<(), Fail> {
    let refuted = Row {
        words: &["--lrat", "--proof", "P"],
        status: 20,
        out: b"s UNSATISFIABLE\n",
        ..MODEL
    };
    let rows = [
        Row {
            input: b"p cnf 0 1\n0\n",
            proof: Some(b"2 0 1 0\n"),
            ..refuted
        },
        Row {
            input: b"p cnf 1 2\n1 0\n-1 0\n",
            proof: Some(b"3 0 1 2 0\n"),
            ..refuted
        },
        Row {
            input: TWO_VARIABLES,
            proof: Some(b"5 1 0 1 2 0\n5 d 2 0\n6 2 0 5 3 0\n6 d 3 0\n7 0 5 6 4 0\n"),
            ..refuted
        },
        // Without a path the format is of what goes nowhere.
        Row {
            words: &["--lrat"],
            input: TWO_VARIABLES,
            compares_proof: false,
            ..refuted
        },
        // A write fails.
        Row {
            input: TWO_VARIABLES,
            proof_fails: FIRST,
            status: 7,
            out: b"",
            err: b"gimsatul: proof fault\n",
            proof: Some(b""),
            ..refuted
        },
    ];
    check_rows(&rt, &rows)
}

#[test]
fn bad_headers(rt: HostRuntime) -> Result<(), Fail> {
    let bad = Row {
        status: 2,
        line: 1,
        ..PLAIN
    };
    let rows = [
        Row {
            input: b"1 0\n",
            left: b" 0\n",
            err: b"gimsatul: input line 1: NoHeader\n",
            code: 1,
            ..bad
        },
        Row {
            input: b"",
            err: b"gimsatul: input line 1: NoHeader\n",
            code: 1,
            ..bad
        },
        Row {
            input: b"p cnf x 1\n",
            left: b" 1\n",
            err: b"gimsatul: input line 1: BadHeader\n",
            code: 2,
            ..bad
        },
        Row {
            input: b"p cnf 268435456 0\n",
            err: b"gimsatul: input line 1: Limit\n",
            code: 8,
            ..bad
        },
    ];
    check_rows(&rt, &rows)
}

#[test]
fn bad_clauses(rt: HostRuntime) -> Result<(), Fail> {
    let bad = Row { status: 2, ..PLAIN };
    let rows = [
        Row {
            input: b"p cnf 2 1\n1 +2 0\n",
            left: b"2 0\n",
            err: b"gimsatul: input line 2: BadToken\n",
            code: 3,
            line: 2,
            ..bad
        },
        Row {
            input: b"p cnf 1 1\n2 0\n",
            left: b"0\n",
            err: b"gimsatul: input line 2: LiteralRange\n",
            code: 4,
            line: 2,
            ..bad
        },
        Row {
            input: b"p cnf 2 0\n1 0\n",
            left: b"0\n",
            err: b"gimsatul: input line 2: TooManyClauses\n",
            code: 5,
            line: 2,
            ..bad
        },
        Row {
            input: b"p cnf 2 2\n1 0\n",
            err: b"gimsatul: input line 3: TooFewClauses\n",
            code: 6,
            line: 3,
            ..bad
        },
        Row {
            input: b"p cnf 2 1\n1 -2\n",
            err: b"gimsatul: input line 3: OpenClause\n",
            code: 7,
            line: 3,
            ..bad
        },
        Row {
            input: b"p cnf 2 1\n1 -2",
            err: b"gimsatul: input line 2: OpenClause\n",
            code: 7,
            line: 2,
            ..bad
        },
    ];
    check_rows(&rt, &rows)
}

/// Inputs as few tools write them: more blanks, leading zeros, carriage returns.
#[test]
fn odd_spellings(rt: HostRuntime) -> Result<(), Fail> {
    let rows = [
        Row {
            input: b"p  cnf  1  1\n01 0\n",
            out: b"s SATISFIABLE\nv 1 0\n",
            ..MODEL
        },
        Row {
            words: &["--proof", "P"],
            input: b"p cnf 1 1\n00\n",
            status: 20,
            out: b"s UNSATISFIABLE\n",
            proof: Some(b"0\n"),
            ..MODEL
        },
        Row {
            input: b"p cnf 1 1\r\n-1 0\r\n",
            out: b"s SATISFIABLE\nv -1 0\n",
            ..MODEL
        },
    ];
    check_rows(&rt, &rows)
}

#[test]
fn odd_headers(rt: HostRuntime) -> Result<(), Fail> {
    let bad = Row {
        status: 2,
        err: b"gimsatul: input line 1: BadHeader\n",
        code: 2,
        line: 1,
        ..PLAIN
    };
    let rows = [
        Row {
            input: b"pcnf 1 1\n",
            left: b"nf 1 1\n",
            ..bad
        },
        Row {
            input: b"p cnf 1 1 x\n",
            left: b"\n",
            ..bad
        },
        // The first bytes of a file that gzip made.
        Row {
            input: &[31, 139, 8],
            left: &[139, 8],
            err: b"gimsatul: input line 1: NoHeader\n",
            code: 1,
            ..bad
        },
        Row {
            input: b"p cnf 99999999999999999999999 1\n",
            err: b"gimsatul: input line 1: Limit\n",
            code: 8,
            ..bad
        },
    ];
    check_rows(&rt, &rows)
}

#[test]
fn odd_clauses(rt: HostRuntime) -> Result<(), Fail> {
    let bad = Row {
        status: 2,
        err: b"gimsatul: input line 2: BadToken\n",
        code: 3,
        line: 2,
        ..PLAIN
    };
    let rows = [
        Row {
            input: b"p cnf 1 1\n-0\n",
            ..bad
        },
        Row {
            input: b"p cnf 1 1\n1 c 0\n",
            left: b" 0\n",
            ..bad
        },
        Row {
            input: b"p cnf 1 1\np cnf 1 1\n",
            left: b" cnf 1 1\n",
            ..bad
        },
        Row {
            input: b"p cnf 0 0\n0\n",
            err: b"gimsatul: input line 2: TooManyClauses\n",
            code: 5,
            ..bad
        },
        Row {
            input: b"p cnf 1 1\n1\n%\n",
            left: b"\n",
            err: b"gimsatul: input line 3: BadToken\n",
            line: 3,
            ..bad
        },
        Row {
            input: b"p cnf 2 2\n1 0\n%\n",
            left: b"\n",
            err: b"gimsatul: input line 3: TooFewClauses\n",
            code: 6,
            line: 3,
            ..bad
        },
        Row {
            input: b"p cnf 1 1\n99999999999999999999999 0\n",
            left: b"0\n",
            err: b"gimsatul: input line 2: LiteralRange\n",
            code: 4,
            ..bad
        },
    ];
    check_rows(&rt, &rows)
}

/// The same call with other words, each of which is refused or not.
fn check_words<H: Threads + Wait + Abort + AllocGlobal + Sync>(
    rt: &H,
    row: Row,
    words: &[&'static [&'static str]],
) -> Result<(), Fail> {
    for words in words {
        check_row(rt, Row { words, ..row }, 65536)?;
    }
    Ok(())
}

#[test]
fn words_that_are_refused(rt: HostRuntime) -> Result<(), Fail> {
    let usage = Row {
        input_fails: FIRST,
        left: NOTHING,
        status: 1,
        err: b"gimsatul: bad command line\n",
        proof: None,
        ..PLAIN
    };
    let table: [&[&str]; 38] = [
        &["--seed", "-1"],
        &["--seed", "9223372036854775808"],
        &["--seed", "1", "--seed", "1"],
        &["--walk", "-1"],
        &["--walk", "1000000001"],
        &["--make", "7", "x.cnf"],
        &["--make", "-1"],
        &["--make", "9223372036854775808"],
        &["--check", "--check"],
        &["--binary", "--binary"],
        &["--add", "--add"],
        &["--lrat", "--lrat"],
        &["--lrat", "--binary"],
        &["--lrat", "--add"],
        &["--threads", "0"],
        &["--threads", "17"],
        &["--threads", "1", "--threads", "1"],
        &["--slots", "0"],
        &["--slots", "17"],
        &["--slots", "1", "--slots", "1"],
        &["--words", "63"],
        &["--words", "2147483649"],
        &["--words", "64", "--words", "64"],
        &["--words"],
        &["--help"],
        &["--version"],
        &["-h"],
        &["--proof"],
        &["--proof", "-P"],
        &["--proof", "P", "--proof", "P"],
        &["--conflicts", "0"],
        &["--conflicts", "1000000000001"],
        &["--round", "0"],
        &["--round", "1000000000001"],
        &["--round", "1", "--round", "1"],
        &["--round"],
        &["--no-simplify=1"],
        &["a.cnf", "b.cnf"],
    ];
    check_words(&rt, usage, &table)
}

#[test]
fn words_that_are_taken(rt: HostRuntime) -> Result<(), Fail> {
    let row = Row {
        out: b"s SATISFIABLE\nv 0\n",
        ..MODEL
    };
    let table: [&[&str]; 14] = [
        &["--seed", "9223372036854775807"],
        &["--walk", "1000000000"],
        &["--slots", "1"],
        &["--slots", "16"],
        &["--threads", "4"],
        &["--threads=+4"],
        &["--threads", "04"],
        &["--conflicts", "1000000000000"],
        &["--no-simplify", "--conflicts=+07"],
        &["--round", "1"],
        &["--round", "1000000000000"],
        &["--add"],
        &["--add", "--no-simplify"],
        &["--"],
    ];
    check_words(&rt, row, &table)?;
    let alone = Row {
        learned: &[0],
        ..row
    };
    let table: [&[&str]; 2] = [&["--threads", "1"], &["--words", "64", "--threads", "1"]];
    check_words(&rt, alone, &table)?;
    let many = Row {
        learned: &[0, 0, 0, 0, 0, 0, 0, 0, 0, 0, 0, 0, 0, 0, 0, 0],
        ..row
    };
    let table: [&[&str]; 1] = [&["--threads", "16"]];
    check_words(&rt, many, &table)
}

/// A store with one file.
const REFUTED: &[MemFile<'static>] = &[MemFile {
    path: "a.cnf",
    bytes: b"p cnf 0 1\n0\n",
    fails: NEVER,
}];

const REFUSED: &[MemFile<'static>] = &[MemFile {
    path: "a.cnf",
    bytes: b"p cnf 0 1\n",
    fails: NEVER,
}];

const FAILING: &[MemFile<'static>] = &[MemFile {
    path: "a.cnf",
    bytes: b"p cnf 0 1\n0\n",
    fails: FIRST,
}];

#[test]
fn a_file_in_place_of_standard_input(rt: HostRuntime) -> Result<(), Fail> {
    let given = Row {
        words: &["--proof", "P", "a.cnf"],
        input_fails: FIRST,
        left: NOTHING,
        inputs: REFUTED,
        opened: true,
        ..PLAIN
    };
    let rows = [
        Row {
            status: 20,
            out: b"s UNSATISFIABLE\n",
            proof: Some(b"0\n"),
            learned: &[0, 0, 0, 0],
            ..given
        },
        Row {
            inputs: REFUSED,
            status: 2,
            err: b"gimsatul: input line 2: TooFewClauses\n",
            code: 6,
            line: 2,
            ..given
        },
        Row {
            inputs: FAILING,
            status: 5,
            err: b"gimsatul: read fault\n",
            ..given
        },
        Row {
            files_fail: SECOND,
            status: 4,
            err: b"gimsatul: cannot create proof\n",
            proof: None,
            ..given
        },
        Row {
            files_fail: FIRST,
            status: 3,
            err: b"gimsatul: cannot open input\n",
            opened: false,
            proof: None,
            ..given
        },
        Row {
            words: &["b.cnf"],
            status: 3,
            err: b"gimsatul: cannot open input\n",
            opened: false,
            proof: None,
            ..given
        },
    ];
    check_rows(&rt, &rows)
}

#[test]
fn faults(rt: HostRuntime) -> Result<(), Fail> {
    let unread = Row {
        input_fails: FIRST,
        left: NOTHING,
        ..PLAIN
    };
    let outside = Row {
        input: b"p cnf 1 1\n2 0\n",
        left: b"0\n",
        status: 2,
        err: b"gimsatul: input line 2: LiteralRange\n",
        code: 4,
        line: 2,
        ..PLAIN
    };
    let unprinted = Row {
        status: 6,
        err: b"gimsatul: write fault\n",
        ..MODEL
    };
    let rows = [
        Row {
            words: &["--proof", "P"],
            files_fail: FIRST,
            status: 4,
            err: b"gimsatul: cannot create proof\n",
            proof: None,
            ..unread
        },
        Row {
            status: 5,
            err: b"gimsatul: read fault\n",
            ..unread
        },
        Row {
            err_fails: FIRST,
            status: 5,
            ..unread
        },
        Row {
            input: b"1 0\n",
            left: b" 0\n",
            proof_fails: FIRST,
            err_fails: SECOND,
            status: 2,
            err: b"gimsatul: input line ",
            code: 1,
            line: 1,
            ..PLAIN
        },
        // A bad input is named, whether or not the proof's flush or the message fails.
        Row {
            words: &["--proof", "P"],
            proof_fails: FIRST,
            ..outside
        },
        Row {
            err_fails: FIRST,
            err: b"",
            ..outside
        },
        Row {
            out_fails: FIRST,
            ..unprinted
        },
        Row {
            out_fails: SECOND,
            out: b"s SATISFIABLE\nv 0\n",
            ..unprinted
        },
    ];
    check_rows(&rt, &rows)
}

#[test]
fn faults_of_the_proof(rt: HostRuntime) -> Result<(), Fail> {
    let unproved = Row {
        words: &["--proof", "P"],
        proof_fails: FIRST,
        status: 7,
        err: b"gimsatul: proof fault\n",
        ..MODEL
    };
    let two_lines = Row {
        words: &["--threads", "1", "--no-simplify", "--proof", "P"],
        input: TWO_VARIABLES,
        learned: &[1],
        ..unproved
    };
    let rows = [
        // The flush is the proof's only call, or follows the lines, which are one write.
        unproved,
        Row {
            input: b"p cnf 0 1\n0\n",
            proof_fails: SECOND,
            proof: Some(b"0\n"),
            flushes_proof: false,
            ..unproved
        },
        Row {
            input: b"p cnf 1 2\n1 0\n-1 0\n",
            proof_fails: SECOND,
            proof: Some(b"0\n"),
            flushes_proof: false,
            ..unproved
        },
        Row {
            proof_fails: SECOND,
            proof: Some(b"2 0\n0\n"),
            flushes_proof: false,
            ..two_lines
        },
        // The write fails, and the flush after it does or doesn't.
        Row {
            input: b"p cnf 0 1\n0\n",
            ..unproved
        },
        two_lines,
        Row {
            proof_fails: &[1, 2],
            ..two_lines
        },
        // The ruler's lines fail, which come to the empty clause.
        Row {
            words: &["--threads", "1", "--proof", "P"],
            learned: &[0],
            ..two_lines
        },
        // Lines of two rings fail.
        Row {
            words: &["--threads", "2", "--no-simplify", "--check", "--proof", "P"],
            learned: &[0, 0],
            compares_learned: false,
            ..two_lines
        },
    ];
    check_rows(&rt, &rows)
}

#[test]
fn a_read_fails_after_ten_bytes(rt: HostRuntime) -> Result<(), Fail> {
    let row = Row {
        input: b"c x\np cnf 3 3\n1 0 -1 2\n0 -2 -3 0\n",
        input_fails: &[11],
        left: b"3 3\n1 0 -1 2\n0 -2 -3 0\n",
        status: 5,
        err: b"gimsatul: read fault\n",
        ..PLAIN
    };
    check_row(&rt, row, 1)
}

/// Six pigeons in five holes: the clause of each pigeon, and of each hole and pair of pigeons.
pub(crate) const PIGEONS: &[u8] =
    b"p cnf 30 81\n1 2 3 4 5 0\n6 7 8 9 10 0\n11 12 13 14 15 0\n16 17 18 19 20 0\n21 22 23 24 25 0\n26 27 28 29 30 0\n-1 -6 0\n-1 -11 0\n-1 -16 0\n-1 -21 0\n-1 -26 0\n-6 -11 0\n-6 -16 0\n-6 -21 0\n-6 -26 0\n-11 -16 0\n-11 -21 0\n-11 -26 0\n-16 -21 0\n-16 -26 0\n-21 -26 0\n-2 -7 0\n-2 -12 0\n-2 -17 0\n-2 -22 0\n-2 -27 0\n-7 -12 0\n-7 -17 0\n-7 -22 0\n-7 -27 0\n-12 -17 0\n-12 -22 0\n-12 -27 0\n-17 -22 0\n-17 -27 0\n-22 -27 0\n-3 -8 0\n-3 -13 0\n-3 -18 0\n-3 -23 0\n-3 -28 0\n-8 -13 0\n-8 -18 0\n-8 -23 0\n-8 -28 0\n-13 -18 0\n-13 -23 0\n-13 -28 0\n-18 -23 0\n-18 -28 0\n-23 -28 0\n-4 -9 0\n-4 -14 0\n-4 -19 0\n-4 -24 0\n-4 -29 0\n-9 -14 0\n-9 -19 0\n-9 -24 0\n-9 -29 0\n-14 -19 0\n-14 -24 0\n-14 -29 0\n-19 -24 0\n-19 -29 0\n-24 -29 0\n-5 -10 0\n-5 -15 0\n-5 -20 0\n-5 -25 0\n-5 -30 0\n-10 -15 0\n-10 -20 0\n-10 -25 0\n-10 -30 0\n-15 -20 0\n-15 -25 0\n-15 -30 0\n-20 -25 0\n-20 -30 0\n-25 -30 0\n";

#[test]
fn six_pigeons_in_five_holes(rt: HostRuntime) -> Result<(), Fail> {
    let row = Row {
        words: &["--threads", "1", "--proof", "P"],
        input: PIGEONS,
        status: 20,
        out: b"s UNSATISFIABLE\n",
        compares_proof: false,
        learned: &[0],
        compares_learned: false,
        ..PLAIN
    };
    check_row(&rt, row, 65536)
}

/// All clauses of three literals on three variables.
const THREE_VARIABLES: &[u8] =
    b"p cnf 3 8\n1 2 3 0\n1 2 -3 0\n1 -2 3 0\n1 -2 -3 0\n-1 2 3 0\n-1 2 -3 0\n-1 -2 3 0\n-1 -2 -3 0\n";

/// The lines of the log are checked at each verdict, with a proof and without one.
#[test]
fn checked_logs(rt: HostRuntime) -> Result<(), Fail> {
    let rows = [
        Row {
            words: &["--threads", "1", "--no-simplify", "--check", "--proof", "P"],
            input: TWO_VARIABLES,
            status: 20,
            out: b"c proof accepted\ns UNSATISFIABLE\n",
            proof: Some(b"2 0\n0\n"),
            learned: &[1],
            ..PLAIN
        },
        Row {
            words: &["--check"],
            input: b"p cnf 2 3\n1 1 0\n2 -2 0\n-1 -2 -2 0\n",
            out: b"c proof accepted\ns SATISFIABLE\nv 1 -2 0\n",
            compares_proof: false,
            ..MODEL
        },
        Row {
            words: &["--threads", "1", "--check", "--conflicts", "1"],
            input: PIGEONS,
            status: 0,
            out: b"c proof accepted\ns UNKNOWN\n",
            compares_proof: false,
            learned: &[1],
            ..PLAIN
        },
        Row {
            words: &["--threads", "1", "--check"],
            input: PIGEONS,
            status: 20,
            out: b"c proof accepted\ns UNSATISFIABLE\n",
            compares_proof: false,
            learned: &[0],
            compares_learned: false,
            ..PLAIN
        },
        // The ruler may add variables.
        Row {
            words: &["--add", "--check"],
            input: PIGEONS,
            status: 20,
            out: b"c proof accepted\ns UNSATISFIABLE\n",
            compares_proof: false,
            learned: &[0, 0, 0, 0],
            compares_learned: false,
            ..PLAIN
        },
        // Four rings, whose lines are of one log.
        Row {
            words: &["--threads", "4", "--no-simplify", "--check"],
            input: PIGEONS,
            status: 20,
            out: b"c proof accepted\ns UNSATISFIABLE\n",
            compares_proof: false,
            learned: &[0, 0, 0, 0],
            compares_learned: false,
            ..PLAIN
        },
        Row {
            words: &["--threads", "4", "--no-simplify", "--check", "--binary"],
            input: PIGEONS,
            status: 20,
            out: b"c proof accepted\ns UNSATISFIABLE\n",
            compares_proof: false,
            learned: &[0, 0, 0, 0],
            compares_learned: false,
            ..PLAIN
        },
        Row {
            words: &["--threads", "4", "--no-simplify", "--check", "--lrat"],
            input: PIGEONS,
            status: 20,
            out: b"c proof accepted\ns UNSATISFIABLE\n",
            compares_proof: false,
            learned: &[0, 0, 0, 0],
            compares_learned: false,
            ..PLAIN
        },
    ];
    for row in &rows {
        check_row(&rt, *row, 65536)?;
    }
    Ok(())
}

/// On five variables, with one model: 1 and 2 have three common sets, and no other simplifier finds anything to do.
const COMMON: &[u8] =
    b"p cnf 5 15\n1 -3 -4 0\n1 -4 -5 0\n1 3 4 0\n2 -3 -4 0\n2 -4 -5 0\n2 3 4 0\n2 -3 -5 0\n-1 -2 -4 0\n1 -2 5 0\n-2 4 -5 0\n-3 4 -5 0\n-1 2 3 0\n-1 4 5 0\n1 3 -5 0\n1 -3 5 0\n";

/// A variable is added if that is asked for. The proof begins with its clauses, and the model has no value for it.
#[test]
fn a_variable_is_added(rt: HostRuntime) -> Result<(), Fail> {
    let row = Row {
        words: &["--threads", "1", "--add", "--check", "--proof", "P"],
        input: COMMON,
        out: b"c proof accepted\ns SATISFIABLE\nv -1 -2 -3 4 -5 0\n",
        compares_proof: false,
        front: b"6 1 0\n6 2 0\n-6 -3 -4 0\n-6 -4 -5 0\n-6 3 4 0\nd ",
        learned: &[0],
        compares_learned: false,
        ..PLAIN
    };
    let binary = Row {
        words: &["--add", "--binary", "--proof", "P"],
        out: b"s SATISFIABLE\nv -1 -2 -3 4 -5 0\n",
        front: &[
            97, 12, 2, 0, 97, 12, 4, 0, 97, 13, 7, 9, 0, 97, 13, 9, 11, 0, 97, 13, 6, 8, 0, 100,
        ],
        learned: &[0, 0, 0, 0],
        ..row
    };
    check_rows(&rt, &[row, binary])
}

/// Two rings write one log, which ends in the empty clause and has it once.
#[test]
fn one_log_of_two_rings(rt: HostRuntime) -> Result<(), Fail> {
    let row = Row {
        words: &["--threads", "2", "--no-simplify", "--check", "--proof", "P"],
        input: TWO_VARIABLES,
        status: 20,
        out: b"c proof accepted\ns UNSATISFIABLE\n",
        compares_proof: false,
        ends_log: true,
        learned: &[0, 0],
        compares_learned: false,
        ..PLAIN
    };
    let binary = Row {
        words: &[
            "--threads",
            "2",
            "--no-simplify",
            "--check",
            "--binary",
            "--proof",
            "P",
        ],
        ..row
    };
    let hinted = Row {
        words: &[
            "--threads",
            "2",
            "--no-simplify",
            "--check",
            "--lrat",
            "--proof",
            "P",
        ],
        ..row
    };
    check_rows(&rt, &[row, binary, hinted])
}

/// Twelve clauses of three literals, each in a cell of five words, leave four words of 64.
#[test]
fn too_few_words(rt: HostRuntime) -> Result<(), Fail> {
    let row = Row {
        words: &["--no-simplify", "--words", "64"],
        input: b"p cnf 15 13\n1 2 3 0\n2 3 4 0\n3 4 5 0\n4 5 6 0\n5 6 7 0\n6 7 8 0\n7 8 9 0\n8 9 10 0\n9 10 11 0\n10 11 12 0\n11 12 13 0\n12 13 14 0\n13 14 15 0\n",
        status: 8,
        err: b"gimsatul: no room: need 5, largest hole 4\n",
        learned: &[0, 0, 0, 0],
        need: 5,
        largest: 4,
        ..PLAIN
    };
    check_rows(&rt, &[row])
}

/// The formula of number 7 is made in place of an input, of which nothing is read. What is printed of it is the same with the
/// ruler and without it, and its model is reported alone.
#[test]
fn a_formula_that_is_made(rt: HostRuntime) -> Result<(), Fail> {
    let alloc = rt.alloc();
    let table: [&[&str]; 2] = [
        &["--make", "7", "--threads", "4", "--words", "4194304"],
        &[
            "--make",
            "7",
            "--no-simplify",
            "--threads",
            "1",
            "--words",
            "4194304",
        ],
    ];
    for words in table {
        let words = words_of(alloc, words)?;
        let spare = MemSink::new(alloc, 1 << 24, NEVER)?;
        let mut files = MemFiles::new(alloc, &[], Vec::new(alloc), spare, FIRST);
        let mut input = MemSource::in_pieces(NOTHING, 65536, FIRST);
        let mut out = MemSink::new(alloc, ROOM, NEVER)?;
        let mut err = MemSink::new(alloc, ROOM, NEVER)?;
        let report = call(
            &rt,
            &words,
            &mut files,
            &mut input,
            &mut out,
            &mut err,
            &TestGate::open(),
        );
        assert_eq!(rt; report.status, 10);
        assert!(rt;
            is_same(
                out.bytes(),
                b"c vars 20000\nc clauses 60000\nc satisfied 60000\ns SATISFIABLE\n"
            )
        );
        assert_eq!(rt; report.model.map(|model| model.len()), Some(20000));
        assert!(rt; is_same(input.left(), NOTHING));
        assert!(rt; err.bytes().is_empty());
    }
    Ok(())
}

#[test]
fn one_lemma_and_no_more(rt: HostRuntime) -> Result<(), Fail> {
    let row = Row {
        words: &["--threads", "1", "--conflicts", "1", "--no-simplify"],
        input: PIGEONS,
        status: 0,
        out: b"s UNKNOWN\n",
        compares_proof: false,
        learned: &[1],
        ..PLAIN
    };
    let walked = Row {
        words: &[
            "--threads",
            "1",
            "--conflicts",
            "1",
            "--no-simplify",
            "--walk",
            "1000",
        ],
        ..row
    };
    check_row(&rt, row, 65536)?;
    check_row(&rt, walked, 65536)
}

/// However many rings there are, they learn as many lemmas together as they may.
#[test]
fn lemmas_of_all_rings(rt: HostRuntime) -> Result<(), Fail> {
    let row = Row {
        words: &["--threads", "4", "--conflicts", "1", "--no-simplify"],
        input: PIGEONS,
        status: 0,
        out: b"s UNKNOWN\n",
        compares_proof: false,
        learned: &[0, 0, 0, 0],
        compares_learned: false,
        together: Some(1),
        ..PLAIN
    };
    let checked = Row {
        words: &[
            "--threads",
            "3",
            "--conflicts",
            "7",
            "--no-simplify",
            "--check",
        ],
        out: b"c proof accepted\ns UNKNOWN\n",
        learned: &[0, 0, 0],
        together: Some(7),
        ..row
    };
    check_row(&rt, row, 65536)?;
    check_row(&rt, checked, 65536)
}

/// In rounds of one lemma the rings learn as many together as they may, and one log is accepted, with hints too, which go on from
/// round to round.
#[test]
fn rounds_of_one_lemma(rt: HostRuntime) -> Result<(), Fail> {
    let row = Row {
        words: &[
            "--threads",
            "1",
            "--conflicts",
            "3",
            "--round",
            "1",
            "--no-simplify",
        ],
        input: PIGEONS,
        status: 0,
        out: b"s UNKNOWN\n",
        compares_proof: false,
        learned: &[3],
        ..PLAIN
    };
    let refuted = Row {
        words: &["--threads", "4", "--no-simplify", "--check", "--round", "1"],
        input: THREE_VARIABLES,
        status: 20,
        out: b"c proof accepted\ns UNSATISFIABLE\n",
        learned: &[0, 0, 0, 0],
        compares_learned: false,
        at_least: 3,
        ..row
    };
    let hinted = Row {
        words: &[
            "--threads",
            "4",
            "--no-simplify",
            "--check",
            "--round",
            "1",
            "--lrat",
            "--proof",
            "P",
        ],
        ends_log: true,
        ..refuted
    };
    check_row(&rt, row, 65536)?;
    check_row(&rt, refuted, 65536)?;
    check_row(&rt, hinted, 65536)
}

/// On 28 variables. Of rounds of one lemma the third finds a model, and the ruler puts entries onto the stack before each of the three.
const THREE_RUNS: &[u8] =
    b"p cnf 28 55\n-13 16 0\n-10 -25 0\n2 15 0\n5 19 0\n-2 21 0\n-26 -11 0\n-13 -28 3 0\n15 12 0\n-13 -6 0\n-15 1 0\n6 -2 0\n20 3 0\n27 2 0\n-10 24 0\n-3 10 -14 0\n11 -23 0\n21 -15 0\n-18 -27 0\n21 -22 0\n4 -8 0\n-12 9 0\n9 -10 0\n27 -24 0\n5 -18 0\n6 7 21 0\n-20 -11 0\n12 7 0\n-19 -23 0\n-13 24 0\n6 -17 8 0\n6 3 -1 0\n28 6 -9 0\n23 -4 0\n20 -8 0\n-12 -4 0\n-28 2 0\n-28 -27 0\n10 -19 0\n22 25 0\n14 12 0\n17 -21 0\n23 -13 0\n8 -16 1 0\n-5 -14 -7 0\n-21 3 0\n5 9 0\n6 -4 0\n27 14 0\n26 14 -13 0\n-1 19 0\n-13 19 0\n-27 4 25 0\n-25 11 -13 0\n-15 26 18 0\n28 -25 27 0\n";

/// A model of the third round is mended by what the ruler put onto the stack in each of its three runs. If the entries of any one
/// run were left out, the model that is printed would be another, and no model of the formula.
#[test]
fn a_model_mended_over_three_rounds(rt: HostRuntime) -> Result<(), Fail> {
    let row = Row {
        words: &["--threads", "1", "--round", "1"],
        input: THREE_RUNS,
        out: b"s SATISFIABLE\nv -1 2 3 -4 5 6 -7 -8 9 -10 -11 12 -13 -14 -15 -16 17 -18 -19 -20 21 -22 -23\nv -24 25 -26 27 -28 0\n",
        compares_proof: false,
        learned: &[2],
        ..PLAIN
    };
    check_row(&rt, row, 65536)
}
