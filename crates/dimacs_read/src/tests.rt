// Worked inputs, whole and one byte a read, and sources that fail.
ghost use Rattle.std.specs.Prelude.{◌<◌};

use crate::{Code, ReadStop, read};
use io_edge::MemSource;
use sat_words::{Clause, Formula, Lit};
use std::alloc::{AllocError, Global};
use std::test::Fail;

/// Reads the text from a source that gives at most this many bytes at a time.
fn read_text(alloc: Global, text: &[u8], piece: usize) -> Result<Formula, ReadStop>
    requires { 0 < piece }
{
    let mut source = MemSource::in_pieces(text, piece, &[]);
    read(alloc, &mut source)
}

fn formula_of(alloc: Global, vars: u32, clauses: &[&[Lit]]) -> Result<Formula, AllocError> {
    let mut formula = Formula::new(alloc, vars);
    for lits in clauses {
        formula.push(Clause::from_lits(alloc, lits)?)?;
    }
    Ok(formula)
}

/// Whether the text is read as the formula, however few bytes a read gives.
fn is_read_as(alloc: Global, text: &str, formula: &Formula) -> bool {
    for piece in [1, 7, 1 << 20] {
        match read_text(alloc, text.as_bytes(), piece) {
            Ok(found) if found == *formula => {}
            _ => return false,
        }
    }
    true
}

/// Whether the first bad place of the text is found, however few bytes a read gives.
fn is_bad(alloc: Global, text: &[u8], code: Code, line: u64) -> bool {
    for piece in [1, 7, 1 << 20] {
        match read_text(alloc, text, piece) {
            Err(stop) if stop == ReadStop::Bad { code, line } => {}
            _ => return false,
        }
    }
    true
}

#[test]
fn formulas(rt: HostRuntime) -> Result<(), Fail> {
    let alloc = rt.alloc();
    let one = Lit::new(1, false);
    let two = Lit::new(2, false);
    let three = Lit::new(3, false);
    let table = [
        ("p cnf 0 0\n", formula_of(alloc, 0, &[])?),
        ("p cnf 0 1\n0\n", formula_of(alloc, 0, &[&[]])?),
        (
            "c x\np cnf 3 3\n1 0 -1 2\n0 -2 -3 0\n",
            formula_of(
                alloc,
                3,
                &[&[one], &[one.not(), two], &[two.not(), three.not()]],
            )?,
        ),
        (
            "p cnf 2 3\n1 1 0\n2 -2 0\n-1 -2 -2 0",
            formula_of(
                alloc,
                2,
                &[&[one], &[two, two.not()], &[one.not(), two.not()]],
            )?,
        ),
    ];
    for (text, formula) in &table {
        assert!(rt; is_read_as(alloc, text, formula), "{text}");
    }
    Ok(())
}

#[test]
fn odd_spellings(rt: HostRuntime) -> Result<(), Fail> {
    let alloc = rt.alloc();
    let one = Lit::new(1, false);
    let two = Lit::new(2, false);
    let table = [
        (
            "p cnf 1 1\n-1 0\n%\n0\n",
            formula_of(alloc, 1, &[&[one.not()]])?,
        ),
        ("p  cnf  1  1\n01 0\n", formula_of(alloc, 1, &[&[one]])?),
        ("p cnf 1 1\n00\n", formula_of(alloc, 1, &[&[]])?),
        (
            "p cnf 1 1\r\n-1 0\r\n",
            formula_of(alloc, 1, &[&[one.not()]])?,
        ),
        (
            "\t c\n\n p cnf 2 1\t\n1\nc 0 %\n\n 2\n 0 ",
            formula_of(alloc, 2, &[&[one, two]])?,
        ),
        ("p cnf 1 1\n1 0\n %x", formula_of(alloc, 1, &[&[one]])?),
        (
            "p cnf 268435455 1\n-268435455 0\n",
            formula_of(alloc, 268_435_455, &[&[Lit::new(268_435_455, true)]])?,
        ),
    ];
    for (text, formula) in &table {
        assert!(rt; is_read_as(alloc, text, formula), "{text}");
    }
    Ok(())
}

#[test]
fn bad_headers(rt: HostRuntime) {
    let alloc = rt.alloc();
    let table = [
        ("1 0\n", Code::NoHeader, 1),
        ("", Code::NoHeader, 1),
        ("c\n\n", Code::NoHeader, 3),
        ("p cnf x 1\n", Code::BadHeader, 1),
        ("pcnf 1 1\n", Code::BadHeader, 1),
        ("p cnf 1 1 x\n", Code::BadHeader, 1),
        ("p cnf x 268435456\n", Code::BadHeader, 1),
        ("p cnf 268435456 x\n", Code::BadHeader, 1),
    ];
    for (text, code, line) in table {
        assert!(rt; is_bad(alloc, text.as_bytes(), code, line), "{text}");
    }
    // The front of a gzip file.
    assert!(rt; is_bad(alloc, &[31, 139, 8], Code::NoHeader, 1));
}

#[test]
fn bad_sizes(rt: HostRuntime) {
    let alloc = rt.alloc();
    let table = [
        ("p cnf 268435456 0\n", Code::Limit, 1),
        ("p cnf 0 268435456", Code::Limit, 1),
        ("p cnf 99999999999999999999999 1\n", Code::Limit, 1),
        ("p cnf 1 1\n2 0\n", Code::LiteralRange, 2),
        (
            "p cnf 1 1\n99999999999999999999999 0\n",
            Code::LiteralRange,
            2,
        ),
    ];
    for (text, code, line) in table {
        assert!(rt; is_bad(alloc, text.as_bytes(), code, line), "{text}");
    }
}

#[test]
fn bad_tokens(rt: HostRuntime) {
    let alloc = rt.alloc();
    let table = [
        ("p cnf 2 1\n1 +2 0\n", Code::BadToken, 2),
        ("p cnf 1 1\n-0\n", Code::BadToken, 2),
        ("p cnf 1 1\n1 c 0\n", Code::BadToken, 2),
        ("p cnf 1 1\np cnf 1 1\n", Code::BadToken, 2),
        ("p cnf 1 1\n1\n%\n", Code::BadToken, 3),
        ("p cnf 1 1\n1 %\n", Code::BadToken, 2),
        // The last clause is read already: a token that is none comes before one too many, and that before a range.
        ("p cnf 1 1\n1 0 %\n", Code::BadToken, 2),
        ("p cnf 1 1\n1 0\nx\n", Code::BadToken, 3),
        ("p cnf 1 1\n1 0\n-0\n", Code::BadToken, 3),
        ("p cnf 1 1\n1 0\n2 0\n", Code::TooManyClauses, 3),
    ];
    for (text, code, line) in table {
        assert!(rt; is_bad(alloc, text.as_bytes(), code, line), "{text}");
    }
}

#[test]
fn bad_counts(rt: HostRuntime) {
    let alloc = rt.alloc();
    let table = [
        ("p cnf 2 0\n1 0\n", Code::TooManyClauses, 2),
        ("p cnf 0 0\n0\n", Code::TooManyClauses, 2),
        ("p cnf 2 2\n1 0\n", Code::TooFewClauses, 3),
        ("p cnf 2 2\n1 0\n%\n", Code::TooFewClauses, 3),
        ("p cnf 2 1\n1 -2\n", Code::OpenClause, 3),
        ("p cnf 2 1\n1 -2", Code::OpenClause, 2),
    ];
    for (text, code, line) in table {
        assert!(rt; is_bad(alloc, text.as_bytes(), code, line), "{text}");
    }
}

#[test]
fn a_clause_of_many_literals(rt: HostRuntime) -> Result<(), Fail> {
    let alloc = rt.alloc();
    let mut text = Vec::new(alloc);
    text.extend_from_slice(b"p cnf 1 1\n")?;
    for _ in 0..1u32 << 20 {
        text.extend_from_slice(b"1 ")?;
    }
    text.extend_from_slice(b"0\n")?;
    match read_text(alloc, &text, 1 << 20) {
        Ok(found) => assert_eq!(rt; found.clauses().len(), 1),
        Err(_) => assert!(rt; false, "the longest clause"),
    }
    text.truncate(text.len() - 2);
    text.extend_from_slice(b"-1 0\n")?;
    match read_text(alloc, &text, 1 << 20) {
        Err(stop) => assert_eq!(rt;
            stop,
            ReadStop::Bad {
                code: Code::Limit,
                line: 2
            }
        ),
        Ok(_) => assert!(rt; false, "a literal more"),
    }
    Ok(())
}

#[test]
fn a_read_fails(rt: HostRuntime) {
    // Ten bytes, each by a call of its own, and one call at the end.
    let text = b"p cnf 7 0\n";
    for failing in 1..=11 {
        let fails = [failing];
        let mut source = MemSource::in_pieces(text, 1, &fails);
        match read(rt.alloc(), &mut source) {
            Err(stop) => assert_eq!(rt; stop, ReadStop::ReadFault, "at {failing}"),
            Ok(_) => assert!(rt; false, "at {failing}"),
        }
        assert_eq!(rt; source.faults(), 1, "at {failing}");
    }
}

#[test]
fn no_read_behind_the_answer(rt: HostRuntime) {
    // The byte that decides each text is its last, and the read after it would fail.
    let table = [
        ("x", Some((Code::NoHeader, 1))),
        ("px", Some((Code::BadHeader, 1))),
        ("p cnf 0 0 1", Some((Code::BadHeader, 1))),
        ("p cnf 1 1\n+", Some((Code::BadToken, 2))),
        ("p cnf 1 1\n2 ", Some((Code::LiteralRange, 2))),
        ("p cnf 1 1\n1\n%", Some((Code::BadToken, 3))),
        ("p cnf 1 1\n1 0\n%", None),
    ];
    for (text, bad) in table {
        let fails = [text.len() as u64 + 1];
        let mut source = MemSource::in_pieces(text.as_bytes(), 1, &fails);
        match (read(rt.alloc(), &mut source), bad) {
            (Err(stop), Some((code, line))) => {
                assert_eq!(rt; stop, ReadStop::Bad { code, line }, "{text}");
            }
            (Ok(found), None) => assert_eq!(rt; found.clauses().len(), 1, "{text}"),
            _ => assert!(rt; false, "{text}"),
        }
        assert_eq!(rt; source.faults(), 0, "{text}");
    }
}

#[test]
fn texts_of_stops(rt: HostRuntime) -> Result<(), Fail> {
    let alloc = rt.alloc();
    let bad = ReadStop::Bad {
        code: Code::TooFewClauses,
        line: 3,
    };
    assert_eq!(rt;
        bad.to_string(alloc)?.as_str(),
        "input line 3: TooFewClauses"
    );
    assert_eq!(rt;
        ReadStop::ReadFault.to_string(alloc)?.as_str(),
        "read fault"
    );
    assert_eq!(rt;
        ReadStop::Memory.to_string(alloc)?.as_str(),
        "out of memory"
    );
    assert_eq!(rt; Code::Limit.number(), 8);
    Ok(())
}
