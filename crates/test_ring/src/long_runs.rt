// `ring_run` for so long that it reduces its lemmas and makes others shorter.
ghost use Rattle.std.specs.Prelude.{◌≤◌};

use crate::runs::{Kind, kind_of, run_in};
use sat_words::{Lit, ProofFormat};
use std::alloc::Global;
use std::test::Fail;
use test_formulas::Problem;

/// Room for the text of the proof, in bytes.
const ROOM: usize = 1 << 21;

/// The next of a row of words (Knuth's multiplier).
fn next_word(word: u64) -> u64 {
    word.wrapping_mul(6_364_136_223_846_793_005)
        .wrapping_add(1_442_695_040_888_963_407)
}

/// A literal on one of this many variables after these.
fn chosen(word: u64, after: u32, size: u32) -> Lit
    requires after { after ≤ 200 }
    requires some { 1 ≤ size }
    requires few { size ≤ 100 }
{
    let place = (word >> 40) as u32 % size;
    Lit::new(1 + after + place, (word >> 33) & 1 == 1)
}

/// So many clauses of three literals more, one of each of the first three blocks of variables of this size.
fn with_chosen(alloc: Global, problem: Problem, size: u32, clauses: u32) -> Result<Problem, Fail>
    requires some { 1 ≤ size }
    requires few { size ≤ 100 }
{
    let mut problem = problem;
    let mut word = 1;
    for _ in 0..clauses {
        let first = next_word(word);
        let second = next_word(first);
        word = next_word(second);
        problem = problem.with(
            alloc,
            &[
                chosen(first, 0, size),
                chosen(second, size, size),
                chosen(word, 2 * size, size),
            ],
        )?;
    }
    Ok(problem)
}

/// So many clauses of three literals, one of each of three blocks of variables.
pub(crate) fn chosen_clauses(alloc: Global, size: u32, clauses: u32) -> Result<Problem, Fail>
    requires some { 1 ≤ size }
    requires few { size ≤ 100 }
{
    with_chosen(alloc, Problem::new(alloc, 3 * size), size, clauses)
}

/// Whether this is a line of the text.
fn has_line(text: &[u8], wanted: &[u8]) -> bool {
    for line in text.split(|byte| *byte == b'\n') {
        if line == wanted {
            return true;
        }
    }
    false
}

/// How many lines add a clause of two literals or more.
fn long_lines(text: &[u8]) -> u64 {
    let mut many: u64 = 0;
    let mut spaces: u64 = 0;
    let mut deletes = false;
    for byte in text {
        match *byte {
            b'\n' => {
                if spaces >= 2 && !deletes {
                    many = many.saturating_add(1);
                }
                spaces = 0;
                deletes = false;
            }
            b' ' => spaces = spaces.saturating_add(1),
            b'd' => deletes = true,
            _ => {}
        }
    }
    many
}

// Each lemma has a line, and of these no more than were learned are long. The others are of shorter clauses.
#[test]
fn makes_lemmas_shorter(rt: HostRuntime) -> Result<(), Fail> {
    let alloc = rt.alloc();
    let (end, counts, sink) = run_in(
        alloc,
        chosen_clauses(alloc, 60, 830)?,
        4000,
        ProofFormat::Text,
        ROOM,
    )?;
    assert!(rt; kind_of(&end) == Kind::Spent);
    assert!(rt; long_lines(sink.bytes()) > counts.learned);
    Ok(())
}

// If 181 is true then so are 182 and its negation. But 182 is decided before it, and then no clause is false: so no lemma says it, and
// only a probe finds it.
#[test]
fn finds_a_failed_literal(rt: HostRuntime) -> Result<(), Fail> {
    let alloc = rt.alloc();
    let failed = Lit::new(181, false);
    let last = Lit::new(182, false);
    let problem = with_chosen(alloc, Problem::new(alloc, 182), 60, 830)?;
    let problem = problem.with(alloc, &[failed.not(), last])?;
    let problem = problem.with(alloc, &[failed.not(), last.not()])?;
    let (end, _counts, sink) = run_in(alloc, problem, 3500, ProofFormat::Text, ROOM)?;
    assert!(rt; kind_of(&end) == Kind::Spent);
    assert!(rt; has_line(sink.bytes(), b"-181 0"));
    Ok(())
}

// What conflicts met is decided first, and so some 330 lemmas refute this formula. A ring that bumps nothing learns 2800.
#[test]
fn decides_what_conflicts_met(rt: HostRuntime) -> Result<(), Fail> {
    let alloc = rt.alloc();
    let (end, _counts, _sink) = run_in(
        alloc,
        chosen_clauses(alloc, 30, 420)?,
        1000,
        ProofFormat::Text,
        ROOM,
    )?;
    assert!(rt; kind_of(&end) == Kind::Refuted);
    Ok(())
}
