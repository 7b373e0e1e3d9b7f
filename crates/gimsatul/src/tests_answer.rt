// The text of an answer, printed whole and in pieces.
use io_edge::{MemSink, WriteStop};
use sat_words::Assignment;
use std::alloc::{AllocError, Global};
use std::process::Abort;
use std::test::Fail;
use top_call::{Remarks, SearchVerdict, Summary, answer_text_to};

/// The model of `vars` variables of which the first `trues` are true.
fn model(
    rt: &impl Abort,
    alloc: Global,
    vars: u32,
    trues: u32,
) -> Result<SearchVerdict, AllocError> {
    let mut values = Assignment::new(alloc, vars)?;
    for var in 1..=trues {
        assert!(rt; var as usize <= values.len());
        values.set(var, true);
    }
    Ok(SearchVerdict::Satisfiable(values))
}

/// Nothing but the answer.
const PLAIN: Remarks = Remarks {
    made: None,
    checked: false,
};

const CHECKED: Remarks = Remarks {
    made: None,
    checked: true,
};

/// Of a formula that was made.
const MADE: Summary = Summary {
    vars: 3,
    clauses: 2,
    satisfied: Some(2),
};

const MADE_AND_CHECKED: Remarks = Remarks {
    made: Some(MADE),
    checked: true,
};

const MADE_WITHOUT_A_MODEL: Remarks = Remarks {
    made: Some(Summary {
        satisfied: None,
        ..MADE
    }),
    checked: false,
};

#[test]
fn answers_and_their_texts(rt: HostRuntime) -> Result<(), Fail> {
    let alloc = rt.alloc();
    let table = [
        (0, PLAIN, SearchVerdict::Unsatisfiable, "s UNSATISFIABLE\n"),
        (7, PLAIN, SearchVerdict::Unknown, "s UNKNOWN\n"),
        (0, PLAIN, model(&rt, alloc, 0, 0)?, "s SATISFIABLE\nv 0\n"),
        (
            3,
            CHECKED,
            model(&rt, alloc, 3, 2)?,
            "c proof accepted\ns SATISFIABLE\nv 1 2 -3 0\n",
        ),
        (
            3,
            MADE_AND_CHECKED,
            model(&rt, alloc, 3, 2)?,
            "c vars 3\nc clauses 2\nc satisfied 2\nc proof accepted\ns SATISFIABLE\n",
        ),
        (
            3,
            MADE_WITHOUT_A_MODEL,
            SearchVerdict::Unknown,
            "c vars 3\nc clauses 2\ns UNKNOWN\n",
        ),
        (
            30,
            PLAIN,
            model(&rt, alloc, 30, 30)?,
            "s SATISFIABLE\nv 1 2 3 4 5 6 7 8 9 10 11 12 13 14 15 16 17 18 19 20 21 22 23 24 25 26 27 28\nv 29 30 0\n",
        ),
    ];
    for (vars, remarks, verdict, text) in &table {
        // The second call would fail: a short text is one write.
        let mut out = MemSink::new(alloc, 256, &[2])?;
        assert!(rt;
            answer_text_to(&mut out, *vars, remarks, verdict).is_ok(),
            "{text}"
        );
        assert!(rt; out.bytes() == text.as_bytes(), "{text}");

        let mut out = MemSink::new(alloc, 256, &[1])?;
        assert!(rt;
            answer_text_to(&mut out, *vars, remarks, verdict) == Err(WriteStop { taken: 0 }),
            "{text}"
        );
        assert!(rt; out.bytes().is_empty(), "{text}");
    }
    Ok(())
}

const MANY: u32 = 2000;

const TRUES: u32 = 700;

#[test]
fn a_large_model_in_lines(rt: HostRuntime) -> Result<(), Fail> {
    let alloc = rt.alloc();
    let mut out = MemSink::new(alloc, 1 << 14, &[])?;
    assert!(rt; answer_text_to(&mut out, MANY, &PLAIN, &model(&rt, alloc, MANY, TRUES)?).is_ok());
    let text = std::str::from_utf8(out.bytes())?;
    assert!(rt; text.ends_with(" 0\n"));
    let mut numbers = Vec::new(alloc);
    let mut before: usize = 78;
    for line in text.lines().skip(1) {
        assert!(rt; line.starts_with("v "), "{line}");
        assert!(rt; line.len() <= 78, "{line}");
        let words = &line[2..];
        let first = words.split(' ').next().unwrap_or("");
        assert!(rt; before.saturating_add(first.len()) >= 78, "{line}");
        before = line.len();
        for word in words.split(' ') {
            numbers.push(word.parse::<i32>()?)?;
        }
    }
    assert_eq!(rt; numbers.len(), MANY as usize + 1);
    assert_eq!(rt; numbers.pop(), Some(0));
    for (number, var) in numbers.iter().zip(1..MANY + 1) {
        assert_eq!(rt; number.unsigned_abs(), var);
        assert_eq!(rt; *number > 0, var <= TRUES);
    }
    Ok(())
}

#[test]
fn a_large_model_in_pieces(rt: HostRuntime) -> Result<(), Fail> {
    let alloc = rt.alloc();
    let verdict = model(&rt, alloc, MANY, TRUES)?;
    let mut whole = MemSink::new(alloc, 1 << 14, &[])?;
    assert!(rt; answer_text_to(&mut whole, MANY, &PLAIN, &verdict).is_ok());
    // A piece ends if another number, on a line of its own, and the end might have no room in 4096 bytes.
    for (failing, least, most) in [(1, 0, 0), (2, 4078, 4096), (3, 8156, 8192)] {
        let fails = [failing];
        let mut out = MemSink::new(alloc, 1 << 14, &fails)?;
        let taken = match answer_text_to(&mut out, MANY, &PLAIN, &verdict) {
            Ok(()) => whole.bytes().len(),
            Err(stop) => stop.taken,
        };
        assert!(rt; least <= taken && taken <= most, "at {failing}: {taken}");
        assert_eq!(rt; out.bytes().len(), taken, "at {failing}");
        assert!(rt; whole.bytes().starts_with(out.bytes()), "at {failing}");
    }
    Ok(())
}
