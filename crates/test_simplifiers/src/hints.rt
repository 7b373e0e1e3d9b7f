// The lines in LRAT that the simplifiers and a work write: which clauses the hints of each name.
ghost use Rattle.std.specs.Prelude.{◌≡◌, false, All};
ghost use Rattle.sat_words.specs.Clause.{has_opposites};
ghost use Rattle.sat_words.specs.Literal.{IsOn};

use crate::{Simplifier, follows_there, formula_of, is_on, run, written_work};
use drat_text::SinkLines;
use io_edge::MemSink;
use sat_words::{Lit, ProofFormat};
use simp_base::{Run, Work};
use std::alloc::{AllocError, Global};
use std::test::Fail;

/// A work whose lines are kept in LRAT.
type Hinted = Work<SinkLines<MemSink<'static>>>;

/// The variables of each row are 1 to this one.
const VARS: u32 = 4;

/// A simplifier, clauses, each with a 0 after it, and the lines that are wanted.
#[derive(Clone, Copy)]
struct Row {
    simplifier: Simplifier,
    clauses: &'static [i32],
    text: &'static str,
}

const ROWS: &[Row] = &[
    // a clause that becomes shorter: it is the last hint
    Row {
        simplifier: Simplifier::Subsumption,
        clauses: &[1, 2, 0, -1, 2, 3, 0],
        text: "3 2 3 0 1 2 0\n3 d 2 0\n",
    },
    // the numbers of two lemmas, one of which rests on the other
    Row {
        simplifier: Simplifier::Subsumption,
        clauses: &[1, 2, 3, 0, -1, 2, 3, 0, -2, 3, 0],
        text: "4 2 3 0 1 2 0\n4 d 2 0\n5 1 3 0 1 3 0\n5 d 1 0\n6 3 0 3 4 0\n6 d 4 0\n",
    },
    // the empty clause, alone and among others
    Row {
        simplifier: Simplifier::Units,
        clauses: &[0],
        text: "2 0 1 0\n",
    },
    Row {
        simplifier: Simplifier::Units,
        clauses: &[2, 3, 0, 0],
        text: "3 0 2 0\n",
    },
    // opposite units
    Row {
        simplifier: Simplifier::Units,
        clauses: &[1, 0, -1, 0],
        text: "3 0 1 2 0\n",
    },
    // a unit that is found, and what is left of a clause
    Row {
        simplifier: Simplifier::Units,
        clauses: &[1, 0, -1, 2, 0, -2, 3, 4, 0],
        text: "4 2 0 1 2 0\n4 d 2 0\n5 3 4 0 4 3 0\n5 d 3 0\n",
    },
    // the resolvent of two clauses
    Row {
        simplifier: Simplifier::Elimination,
        clauses: &[1, 2, 0, 1, 4, 0, -1, 3, 0],
        text: "4 2 3 0 1 3 0\n5 3 4 0 3 2 0\n5 d 1 0\n5 d 2 0\n5 d 3 0\n5 d 4 0\n5 d 5 0\n",
    },
];

/// Whether these lines were written.
fn is_written(work: Hinted, text: &str) -> bool {
    let (end, sink) = work.into_parts().output.finish();
    end.is_ok() && sink.bytes() == text.as_bytes()
}

/// Whether a run on the row writes the lines that are wanted.
fn is_as_told(alloc: Global, row: &Row) -> Result<bool, Fail> {
    let formula = formula_of(alloc, VARS, row.clauses)?;
    if !is_on(&formula) {
        return Ok(false);
    }
    let mut work = written_work(alloc, ProofFormat::Lrat, &formula, 128)?;
    if run(row.simplifier, &mut work).is_err() {
        return Ok(false);
    }
    Ok(is_written(work, row.text))
}

#[test]
fn what_the_simplifiers_write(rt: HostRuntime) -> Result<(), Fail> {
    for row in ROWS {
        let text = row.text;
        assert!(rt; is_as_told(rt.alloc(), row)?, "{text}");
    }
    Ok(())
}

/// Adds the clause of these literals to a work on these clauses, each with a 0 after it, at first: whether this line is written.
fn is_shown_by(alloc: Global, clauses: &[i32], lits: &[Lit], text: &str) -> Result<bool, Fail>
    requires on { All (IsOn 4) lits.now }
    requires apart { has_opposites lits.now ≡ false }
{
    let formula = formula_of(alloc, VARS, clauses)?;
    if !is_on(&formula) {
        return Ok(false);
    }
    let mut work = written_work(alloc, ProofFormat::Lrat, &formula, 128)?;
    if !follows_there(alloc, &work, lits)? {
        return Ok(false);
    }
    if work.add_rup(lits).is_err() {
        return Ok(false);
    }
    Ok(is_written(work, text))
}

#[test]
fn a_unit_of_the_work_shows_a_clause(rt: HostRuntime) -> Result<(), Fail> {
    let lits = [Lit::new(3, true), Lit::new(1, false)];
    assert!(rt; is_shown_by(rt.alloc(), &[1, 2, 0, 1, 0], &lits, "3 -3 1 0 2 0\n")?);
    Ok(())
}

#[test]
fn a_unit_makes_a_literal_false(rt: HostRuntime) -> Result<(), Fail> {
    let lits = [Lit::new(3, false)];
    assert!(rt;
        is_shown_by(
            rt.alloc(),
            &[2, -1, 3, 0, 1, 0, -2, 3, 0],
            &lits,
            "4 3 0 2 1 3 0\n"
        )?
    );
    Ok(())
}

/// Clauses from which the empty one follows though no two units are opposite, and its line.
const REFUTED: &[(&[i32], &str)] = &[
    // in the order of the clauses
    (&[1, 0, -1, 2, 0, -2, 3, 0, -1, -3, 0], "5 0 1 2 3 4 0\n"),
    // clauses before one that forces a literal are looked at again
    (&[1, 0, -2, -3, 0, -2, 3, 0, -1, 2, 0], "5 0 1 4 2 3 0\n"),
    // a clause that is forced and not needed
    (&[-1, 4, 0, 1, 0, -1, 2, 0, -1, -2, 0], "5 0 2 3 4 0\n"),
];

#[test]
fn all_clauses_are_looked_at_once(rt: HostRuntime) -> Result<(), Fail> {
    for (clauses, text) in REFUTED {
        assert!(rt; is_shown_by(rt.alloc(), clauses, &[], text)?, "{text}");
    }
    Ok(())
}

/// How many literals the chain has.
const LINKS: u16 = 20_000;

/// The first literal, of each literal that it implies the next, and not the last, with a 0 after each clause.
fn chain(alloc: Global) -> Result<Vec<i32>, AllocError> {
    let mut numbers = Vec::new(alloc);
    numbers.extend_from_slice(&[1, 0])?;
    for link in 1..LINKS {
        let var = i32::from(link);
        numbers.extend_from_slice(&[-var, var + 1, 0])?;
    }
    numbers.extend_from_slice(&[-i32::from(LINKS), 0])?;
    Ok(numbers)
}

/// How many hints a line has that adds a clause: the numbers after the 0 of its literals, but for the last 0.
fn hints_in(line: &[u8]) -> usize {
    let words = line.split(|byte| *byte == b' ');
    words
        .skip_while(|word| *word != b"0".as_slice())
        .count()
        .saturating_sub(2)
}

/// How many hints the lines have, none of which deletes a clause.
fn count_hints(text: &[u8]) -> usize {
    let mut count = 0usize;
    for line in text.split(|byte| *byte == b'\n') {
        count = count.saturating_add(hints_in(line));
    }
    count
}

/// How many hints the run by units on the chain writes.
fn hints_of_chain(alloc: Global) -> Result<usize, Fail> {
    let numbers = chain(alloc)?;
    let formula = formula_of(alloc, u32::from(LINKS), numbers.as_slice())?;
    if !is_on(&formula) {
        return Err("not on the variables".into());
    }
    let mut work = written_work(alloc, ProofFormat::Lrat, &formula, 1 << 20)?;
    if run(Simplifier::Units, &mut work) != Ok(Run::Refuted) {
        return Err("not refuted".into());
    }
    let (end, sink) = work.into_parts().output.finish();
    if end.is_err() {
        return Err("no room for the lines".into());
    }
    Ok(count_hints(sink.bytes()))
}

#[test]
fn a_chain_has_few_hints(rt: HostRuntime) -> Result<(), Fail> {
    // each unit but the first has that before it and its clause, and the empty clause the two units that are opposite
    assert_eq!(rt; hints_of_chain(rt.alloc())?, 40_000);
    Ok(())
}
