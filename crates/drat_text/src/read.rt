// Reading the text of a proof.
// The program never runs this: it reads back, for tests, what was written.
ghost use Rattle.std.specs.Prelude.{◌≡◌, ◌≤◌, ◌^◌, ◌++◌, ◌∷◌, List, ℕ, All, IsSome, IfSome, IfOk, IfErr, codes, Some, false};
ghost use Rattle.std.specs.Fmt.{decimal};
ghost use Rattle.sat_words.specs.Literal.{Literal, IsOn, lit_text};
ghost use Rattle.rup_model.specs.Log.{lits_of};
ghost use Rattle.drat_text.specs.Text.{lits_text, line_text};
ghost use Rattle.drat_text.specs.Number.{ends_at, number_from, variable};
ghost use Rattle.drat_text.specs.Read.{IsTextOf, BeginsWithLine, WasUnread};

use crate::line::number_of;
use itoa::Buffer;
use sat_words::{Line, Lit, Lits};
use std::alloc::{AllocError, Global};

/// The greatest variable.
const MAX_VAR: u64 = 1 << 30;

/// Why no lines were read.
#[derive(Clone, Copy, PartialEq, Eq, Debug)]
pub enum ReadLinesStop {
    /// The line of this number, from 1, is the first that is not spelled as one. A last line without a newline is bad too.
    BadLine(u64),
    /// Memory ran out.
    Memory,
}

/// What follows the front, where the bytes begin with it.
fn strip_prefix<'a>(bytes: &'a [u8], front: &[u8]) -> Option<&'a [u8]>
    ensures found { IfSome result (λ rest. bytes.now ≡ front.now ++ rest.now) }
    ensures all { (more : List ℕ) → bytes.now ≡ front.now ++ more → IsSome result }
{
    if bytes.starts_with(front) {
        Some(&bytes[front.len()..])
    } else {
        None
    }
}

/// The number, if a variable can have it.
fn variable(value: u64) -> Option<u32>
    ensures is { result ≡ variable value }
    ensures range { IfSome result (λ var. (1 ≤ var) × (var ≤ 2 ^ 30)) }
{
    if 0 < value && value <= MAX_VAR {
        Some(value as u32)
    } else {
        None
    }
}

/// Whether the digits end at this byte, after those of a value.
fn ends_at(value: u64, byte: u8) -> bool
    ensures ends { result ≡ ends_at value byte }
    ensures digit { result ≡ false → (value ≤ MAX_VAR) × (48 ≤ byte) × (byte ≤ 57) }
{
    !byte.is_ascii_digit() || value > MAX_VAR
}

/// The variable's number that the digits at the front write.
fn number_at(bytes: &[u8]) -> Option<u32>
    ensures is { result ≡ number_from 0 bytes.now }
    ensures range { IfSome result (λ var. (1 ≤ var) × (var ≤ 2 ^ 30)) }
{
    let mut value: u64 = 0;
    for byte in bytes {
        if ends_at(value, *byte) {
            return variable(value);
        }
        value = value * 10 + (*byte - b'0') as u64;
    }
    variable(value)
}

/// The literal of this sign whose variable's number the digits at the front write.
fn literal_at(neg: bool, digits: &[u8]) -> Option<Lit>
    ensures on { IfSome result (IsOn (2 ^ 30)) }
    ensures all { (v : ℕ) (more : List ℕ) → 1 ≤ v → v ≤ 2 ^ 30 → digits.now ≡ decimal v ++ 32 ∷ more → result ≡ Some (record { var = v; neg = neg }) }
{
    match number_at(digits) {
        Some(var) => Some(Lit::new(var, neg)),
        None => None,
    }
}

/// The literal that the front spells, if it spells one.
fn candidate(bytes: &[u8]) -> Option<Lit>
    ensures on { IfSome result (IsOn (2 ^ 30)) }
    ensures all { (l : Literal) (more : List ℕ) → IsOn (2 ^ 30) l → bytes.now ≡ lit_text l ++ 32 ∷ more → result ≡ Some l }
{
    match strip_prefix(bytes, b"-") {
        Some(digits) => literal_at(true, digits),
        None => literal_at(false, bytes),
    }
}

/// The literal at the front, and what follows it and a space.
fn read_lit(bytes: &[u8]) -> Option<(Lit, &[u8])>
    ensures found { IfSome result (λ r. bytes.now ≡ lit_text r.0 ++ 32 ∷ r.1.now) }
    ensures on { IfSome result (λ r. IsOn (2 ^ 30) r.0) }
    ensures all { (l : Literal) (more : List ℕ) → IsOn (2 ^ 30) l → bytes.now ≡ lit_text l ++ 32 ∷ more → IsSome result }
{
    let Some(lit) = candidate(bytes) else {
        return None;
    };
    // A number has one spelling.
    let mut digits = Buffer::new();
    let Some(rest) = strip_prefix(bytes, digits.format(number_of(lit)).as_bytes()) else {
        return None;
    };
    match strip_prefix(rest, b" ") {
        Some(after) => Some((lit, after)),
        None => None,
    }
}

/// The literals at the front, and what follows the end of their line.
fn read_lits(alloc: Global, bytes: &[u8]) -> Result<Option<(Lits, &[u8])>, AllocError>
    ensures found { IfOk result (λ o. IfSome o (λ r. bytes.now ≡ (lits_text r.0 ++ codes "0\n") ++ r.1.now)) }
    ensures on { IfOk result (λ o. IfSome o (λ r. All (IsOn (2 ^ 30)) r.0)) }
    ensures all { IfOk result (λ o. (c : List Literal) (more : List ℕ) → All (IsOn (2 ^ 30)) c → bytes.now ≡ (lits_text c ++ codes "0\n") ++ more → IsSome o) }
{
    let mut lits = Vec::new(alloc);
    let mut rest = bytes;
    while let Some((lit, after)) = read_lit(rest) {
        lits.push(lit)?;
        rest = after;
    }
    match strip_prefix(rest, b"0\n") {
        Some(after) => Ok(Some((Lits::from_vec(lits), after))),
        None => Ok(None),
    }
}

/// The line at the front, and what follows it.
fn read_line(alloc: Global, bytes: &[u8]) -> Result<Option<(Line, &[u8])>, AllocError>
    ensures found { IfOk result (λ o. IfSome o (λ r. bytes.now ≡ line_text r.0 ++ r.1.now)) }
    ensures on { IfOk result (λ o. IfSome o (λ r. All (IsOn (2 ^ 30)) (lits_of r.0))) }
    ensures all { IfOk result (λ o. BeginsWithLine bytes.now → IsSome o) }
{
    match strip_prefix(bytes, b"d ") {
        Some(rest) => match read_lits(alloc, rest)? {
            Some((lits, after)) => Ok(Some((Line::Del(lits), after))),
            None => Ok(None),
        },
        None => match read_lits(alloc, bytes)? {
            Some((lits, after)) => Ok(Some((Line::Add(lits), after))),
            None => Ok(None),
        },
    }
}

/// The lines whose text the bytes are, in the one spelling of textual DRAT that `SinkLines` writes: no comments, no other
/// blanks, no leading zeros.
pub fn read_lines(alloc: Global, bytes: &[u8]) -> Result<Vec<Line>, ReadLinesStop>
    ensures read { IfOk result (λ lines. IsTextOf lines.items bytes.now) }
    ensures bad { IfErr result (WasUnread bytes.now) }
{
    let mut lines = Vec::new(alloc);
    let mut rest = bytes;
    while !rest.is_empty() {
        match read_line(alloc, rest) {
            Ok(Some((line, after))) => {
                if lines.push(line).is_err() {
                    return Err(ReadLinesStop::Memory);
                }
                rest = after;
            }
            Ok(None) => return Err(ReadLinesStop::BadLine(lines.len() as u64 + 1)),
            Err(_) => return Err(ReadLinesStop::Memory),
        }
    }
    Ok(lines)
}
