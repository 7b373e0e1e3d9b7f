// `simp_add`: what is written and left, and a line that fails. Its runs make new variables, so that they do not keep the contract
// that the other simplifiers share.
use crate::{counted_work, formula_of, is_on, text_work};
use drat_text::{LineStop, SinkLines};
use io_edge::MemSink;
use simp_base::{Parts, Run};
use std::alloc::{AllocError, Global};
use std::test::Fail;

/// The variables of each row are 1 to this one.
const VARS: u32 = 5;

/// Clauses, each with a 0 after it, and what is wanted: the lines that add, how many lines delete, and how many clauses are left.
#[derive(Clone, Copy)]
struct Row {
    clauses: &'static [i32],
    added: &'static str,
    deleted: usize,
    left: usize,
}

const ROWS: &[Row] = &[
    // three common sets
    Row {
        clauses: &[1, 3, 0, 1, 4, 0, 1, 5, 0, 2, 3, 0, 2, 4, 0, 2, 5, 0],
        added: "6 1 0\n6 2 0\n-6 3 0\n-6 4 0\n-6 5 0\n",
        deleted: 6,
        left: 5,
    },
    // sets of two literals
    Row {
        clauses: &[
            1, 3, 4, 0, 1, 3, 5, 0, 1, 4, 5, 0, 2, 3, 4, 0, 2, 3, 5, 0, 2, 4, 5, 0,
        ],
        added: "6 1 0\n6 2 0\n-6 3 4 0\n-6 3 5 0\n-6 4 5 0\n",
        deleted: 6,
        left: 5,
    },
    // two common sets, and the empty one
    Row {
        clauses: &[1, 0, 2, 0, 1, 3, 0, 1, 4, 0, 2, 3, 0, 2, 4, 0],
        added: "",
        deleted: 0,
        left: 6,
    },
    // two common sets, and a copy
    Row {
        clauses: &[1, 3, 0, 1, 3, 0, 1, 4, 0, 2, 3, 0, 2, 4, 0, 2, 4, 0],
        added: "",
        deleted: 0,
        left: 6,
    },
    // the first of two copies gives its set the place, and all of them go
    Row {
        clauses: &[
            2, 3, 0, 1, 5, 0, 1, 4, 0, 1, 3, 0, 1, 5, 0, 2, 3, 0, 2, 4, 0, 2, 5, 0,
        ],
        added: "6 1 0\n6 2 0\n-6 5 0\n-6 4 0\n-6 3 0\n",
        deleted: 8,
        left: 5,
    },
    // 3 has more common sets with 1 than 2 has; 2 then has three with the negation of the new literal
    Row {
        clauses: &[
            1, 4, 0, 1, 5, 0, 1, -4, 0, 1, -5, 0, 2, 4, 0, 2, 5, 0, 2, -4, 0, 3, 4, 0, 3, 5, 0, 3,
            -4, 0, 3, -5, 0,
        ],
        added: "6 1 0\n6 3 0\n-6 4 0\n-6 5 0\n-6 -4 0\n-6 -5 0\n7 2 0\n7 -6 0\n-7 4 0\n-7 5 0\n-7 -4 0\n",
        deleted: 14,
        left: 8,
    },
    // 2, 3 and the negation of 3 have as many common sets with 1, and 2 has the least code; at last the negations of the two new
    // literals get one of their own
    Row {
        clauses: &[
            -3, 4, 0, -3, 5, 0, -3, -4, 0, 3, 4, 0, 3, 5, 0, 3, -4, 0, 2, 4, 0, 2, 5, 0, 2, -4, 0,
            1, 4, 0, 1, 5, 0, 1, -4, 0,
        ],
        added: "6 1 0\n6 2 0\n-6 4 0\n-6 5 0\n-6 -4 0\n7 3 0\n7 -3 0\n-7 4 0\n-7 5 0\n-7 -4 0\n8 -6 0\n8 -7 0\n-8 4 0\n-8 5 0\n-8 -4 0\n",
        deleted: 18,
        left: 9,
    },
];

/// Which line of the first row's run fails, from 1, and how many clauses are left then.
const FAULTS: &[(u64, usize)] = &[(1, 6), (3, 8), (8, 9)];

/// The lines of the text that add a clause.
fn added_lines(alloc: Global, text: &[u8]) -> Result<Vec<u8>, AllocError> {
    let mut added = Vec::new(alloc);
    for line in text.split(|byte| *byte == b'\n') {
        if !line.is_empty() && !line.starts_with(b"d ") {
            added.extend_from_slice(line)?;
            added.push(b'\n')?;
        }
    }
    Ok(added)
}

/// How many lines of the text delete a clause: only these have this letter.
fn deletions(text: &[u8]) -> usize {
    text.iter().filter(|byte| **byte == b'd').count()
}

/// Whether what is written and left is as in the row. The order of deletions is left open.
fn is_left(
    alloc: Global,
    row: &Row,
    left: Parts<SinkLines<MemSink<'static>>>,
) -> Result<bool, Fail> {
    let (end, sink) = left.output.finish();
    let added = added_lines(alloc, sink.bytes())?;
    Ok(
        end.is_ok()
            && added.as_slice() == row.added.as_bytes()
            && deletions(sink.bytes()) == row.deleted
            && left.units.is_empty()
            && left.clauses.len() == row.left,
    )
}

/// Whether a run on the row is done, and writes and leaves what is wanted.
fn is_as_told(alloc: Global, row: &Row) -> Result<bool, Fail> {
    let formula = formula_of(alloc, VARS, row.clauses)?;
    if !is_on(&formula) {
        return Ok(false);
    }
    let mut work = text_work(alloc, &formula, 512)?;
    if simp_add::run(&mut work) != Ok(Run::Done) {
        return Ok(false);
    }
    is_left(alloc, row, work.into_parts())
}

/// Whether a run on the clauses, if this line fails, says so and leaves this many clauses.
fn is_stopped(alloc: Global, clauses: &[i32], failing: u64, left: usize) -> Result<bool, Fail> {
    let formula = formula_of(alloc, VARS, clauses)?;
    if !is_on(&formula) {
        return Ok(false);
    }
    let mut work = counted_work(alloc, &formula, failing)?;
    let answer = simp_add::run(&mut work);
    Ok(answer == Err(LineStop::ProofFault) && work.into_parts().clauses.len() == left)
}

#[test]
fn what_an_addition_writes_and_leaves(rt: HostRuntime) -> Result<(), Fail> {
    for row in ROWS {
        let added = row.added;
        assert!(rt; is_as_told(rt.alloc(), row)?, "{added}");
    }
    Ok(())
}

#[test]
fn an_addition_of_which_a_line_fails(rt: HostRuntime) -> Result<(), Fail> {
    for (failing, left) in FAULTS {
        assert!(rt;
            is_stopped(rt.alloc(), ROWS[0].clauses, *failing, *left)?,
            "{failing}"
        );
    }
    Ok(())
}
