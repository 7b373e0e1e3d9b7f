// Printing the answer, as the SAT Competition asks: the line `s ..`, and a model in lines that begin with `v`. Remarks stand
// before it, in lines that begin with `c`.
ghost use Rattle.std.specs.Prelude.{◌≡◌, ◌+◌, ◌≤◌, ◌^◌, ◌++◌, ◌∷◌, [], List, ℕ, length, codes, OnOk, IfErr};
ghost use Rattle.sat_words.specs.Literal.{lit_text};
ghost use Rattle.io_edge.specs.Bytes.{GrowsBy};
ghost use Rattle.io_edge.specs.Causes.{HasCause};
ghost use Rattle.drat_text.specs.Cut.{WasCut};
ghost use Rattle.drat_text.specs.declared.piece.TheConstants.{CAPACITY};
ghost use Rattle.top_call.specs.Answer.{answer_text, head_lines, made_lines, summary_lines, satisfied_line, check_line, verdict_line, count_line, true_literal, value_lines, wrapped};

use crate::remarks::{Remarks, Summary};
use crate::report::SearchVerdict;
use drat_text::Piece;
use io_edge::{Sink, WriteStop, write_all_of};
use itoa::Buffer;
use sat_words::Assignment;

/// The most bytes of a line, its newline not counted.
const WIDTH: usize = 78;

/// The most bytes of a number: `-` and ten digits.
const NUMBER: usize = 11;

/// The most bytes that stand before a number: a newline, `v` and a space.
const BREAK: usize = 3;

/// The most bytes of the end: `0`, which may begin a line, and a newline.
const END: usize = BREAK + 2;

/// The most bytes of a number's line after its name: twenty digits and a newline.
const COUNT: usize = 21;

/// The most bytes of the remarks on a formula that was made.
const SUMMARY: usize = 29 + 3 * COUNT;

/// The most bytes before the values: these remarks, that on the check, and the answer's line.
const HEAD: usize = SUMMARY + 17 + 16;

/// Prints the answer over a formula with `vars` variables, and doesn't flush. It takes no memory.
///
/// The text goes to the sink in pieces of at most 4096 bytes. At `WriteStop` the sink failed and has exactly the first
/// `taken` bytes of the text, which are not all of it.
pub fn answer_text_to<O: Sink>(
    out: &mut O,
    vars: u32,
    remarks: &Remarks,
    verdict: &SearchVerdict,
) -> Result<(), WriteStop>
    requires { vars ≤ 2 ^ 30 }
    ensures all { OnOk result (GrowsBy (O.written out.old) (O.written out.new) (answer_text vars remarks.now verdict.now)) }
    ensures part { IfErr result (λ stop. WasCut (O.written out.old) (O.written out.new) (answer_text vars remarks.now verdict.now) stop.taken) }
    ensures cause { HasCause (O.faults out.old) (O.faults out.new) result }
    ensures flushed { O.flushed out.new ≡ O.flushed out.old }
    ensures target { O.target out.new ≡ O.target out.old }
{
    let head = head_of(remarks, verdict);
    match verdict {
        SearchVerdict::Satisfiable(model) => match remarks.made {
            None => put_values(out, head, vars, model),
            Some(_) => put_last(out, head),
        },
        SearchVerdict::Unsatisfiable => put_last(out, head),
        SearchVerdict::Unknown => put_last(out, head),
    }
}

/// Adds a line with a number.
fn push_count(piece: &mut Piece, name: &[u8], count: u64)
    requires room { length piece.old + (length name.now + COUNT) ≤ CAPACITY }
    ensures text { piece.new ≡ piece.old ++ count_line name.now count }
    ensures fits { length piece.new ≤ length piece.old + (length name.now + COUNT) }
{
    let mut digits = Buffer::new();
    piece.push_bytes(name);
    piece.push_bytes(digits.format(count).as_bytes());
    piece.push_bytes(b"\n");
}

/// Adds the number of clauses that the model makes true, if there is one.
fn push_satisfied(piece: &mut Piece, satisfied: Option<u64>)
    requires room { length piece.old + (12 + COUNT) ≤ CAPACITY }
    ensures text { piece.new ≡ piece.old ++ satisfied_line satisfied }
    ensures fits { length piece.new ≤ length piece.old + (12 + COUNT) }
{
    if let Some(count) = satisfied {
        push_count(piece, b"c satisfied ", count);
    }
}

/// Adds the remarks on a formula that was made, if one was.
fn push_made(piece: &mut Piece, made: Option<Summary>)
    requires room { length piece.old + SUMMARY ≤ CAPACITY }
    ensures text { piece.new ≡ piece.old ++ made_lines made }
    ensures fits { length piece.new ≤ length piece.old + SUMMARY }
{
    if let Some(summary) = made {
        push_count(piece, b"c vars ", summary.vars as u64);
        push_count(piece, b"c clauses ", summary.clauses);
        push_satisfied(piece, summary.satisfied);
    }
}

/// Adds that the log was checked, if it was.
fn push_check(piece: &mut Piece, checked: bool)
    requires room { length piece.old + 17 ≤ CAPACITY }
    ensures text { piece.new ≡ piece.old ++ check_line checked }
    ensures fits { length piece.new ≤ length piece.old + 17 }
{
    if checked {
        piece.push_bytes(b"c proof accepted\n");
    }
}

/// Adds the answer's line.
fn push_verdict(piece: &mut Piece, verdict: &SearchVerdict)
    requires room { length piece.old + 16 ≤ CAPACITY }
    ensures text { piece.new ≡ piece.old ++ verdict_line verdict.now }
    ensures fits { length piece.new ≤ length piece.old + 16 }
{
    match verdict {
        SearchVerdict::Satisfiable(_) => piece.push_bytes(b"s SATISFIABLE\n"),
        SearchVerdict::Unsatisfiable => piece.push_bytes(b"s UNSATISFIABLE\n"),
        SearchVerdict::Unknown => piece.push_bytes(b"s UNKNOWN\n"),
    }
}

/// The lines before the values.
fn head_of(remarks: &Remarks, verdict: &SearchVerdict) -> Piece
    ensures text { result ≡ head_lines remarks.now verdict.now }
    ensures short { length result ≤ HEAD }
{
    let mut piece = Piece::new();
    push_made(&mut piece, remarks.made);
    push_check(&mut piece, remarks.checked);
    push_verdict(&mut piece, verdict);
    piece
}

/// Writes a text that is one piece.
fn put_last<O: Sink>(out: &mut O, text: Piece) -> Result<(), WriteStop>
    ensures all { OnOk result (GrowsBy (O.written out.old) (O.written out.new) text) }
    ensures part { IfErr result (λ stop. WasCut (O.written out.old) (O.written out.new) text stop.taken) }
    ensures cause { HasCause (O.faults out.old) (O.faults out.new) result }
    ensures flushed { O.flushed out.new ≡ O.flushed out.old }
    ensures target { O.target out.new ≡ O.target out.old }
{
    let mut piece = text;
    piece.write_to(out, 0)?;
    Ok(())
}

/// Writes the lines before the values, the model's values, and `0` at their end.
fn put_values<O: Sink>(
    out: &mut O,
    head: Piece,
    vars: u32,
    model: &Assignment,
) -> Result<(), WriteStop>
    requires few { vars ≤ 2 ^ 30 }
    requires short { length head ≤ HEAD }
    ensures all { OnOk result (GrowsBy (O.written out.old) (O.written out.new) (head ++ value_lines vars model.now)) }
    ensures part { IfErr result (λ stop. WasCut (O.written out.old) (O.written out.new) (head ++ value_lines vars model.now) stop.taken) }
    ensures cause { HasCause (O.faults out.old) (O.faults out.new) result }
    ensures flushed { O.flushed out.new ≡ O.flushed out.old }
    ensures target { O.target out.new ≡ O.target out.old }
{
    let mut piece = head;
    piece.push_bytes(b"v");
    let mut used = 1;
    let mut taken = 0;
    for var in 1..vars + 1 {
        if !piece.has_room(BREAK + NUMBER + END) {
            taken = piece.write_to(out, taken)?;
        }
        used = push_value(&mut piece, used, model, var);
    }
    push_number(&mut piece, used, b"0");
    piece.push_bytes(b"\n");
    piece.write_to(out, taken)?;
    Ok(())
}

/// Adds the variable's true literal after the `used` bytes of the line, and answers how many bytes its line has then.
fn push_value(piece: &mut Piece, used: usize, model: &Assignment, var: u32) -> usize
    requires low { 1 ≤ var }
    requires high { var ≤ 2 ^ 30 }
    requires line { used ≤ WIDTH }
    requires room { length piece.old + (BREAK + NUMBER) ≤ CAPACITY }
    ensures text { (rest : List (List ℕ)) → piece.new ++ wrapped result rest ≡ piece.old ++ wrapped used (lit_text (true_literal model.now var) ∷ rest) }
    ensures line { result ≤ WIDTH }
    ensures fits { length piece.new ≤ length piece.old + (BREAK + NUMBER) }
{
    let positive = var as i32;
    let value = if model.value(var) {
        positive
    } else {
        -positive
    };
    let mut digits = Buffer::new();
    push_number(piece, used, digits.format(value).as_bytes())
}

/// Adds the number after the `used` bytes of the line, or on a new line if the line would get too long. Answers how many
/// bytes the number's line has then.
fn push_number(piece: &mut Piece, used: usize, number: &[u8]) -> usize
    requires line { used ≤ WIDTH }
    requires short { length number.now ≤ NUMBER }
    requires room { length piece.old + (BREAK + length number.now) ≤ CAPACITY }
    ensures text { (rest : List (List ℕ)) → piece.new ++ wrapped result rest ≡ piece.old ++ wrapped used (number.now ∷ rest) }
    ensures line { result ≤ WIDTH }
    ensures fits { length piece.new ≤ length piece.old + (BREAK + length number.now) }
{
    let longer = used + 1 + number.len();
    if longer <= WIDTH {
        piece.push_bytes(b" ");
        piece.push_bytes(number);
        return longer;
    }
    piece.push_bytes(b"\nv ");
    piece.push_bytes(number);
    2 + number.len()
}
