// From spot to spot, byte by byte.
ghost use Rattle.std.specs.Prelude.{◌≡◌, ◌==◌, if◌then◌else◌, MatchResult, OnOk, IfOk, IfErr};
ghost use Rattle.dimacs_read.specs.Bytes.{IsKind};
ghost use Rattle.dimacs_read.specs.Body.{IsLawful};
ghost use Rattle.dimacs_read.specs.State.{Leads, Stops};
ghost use Rattle.dimacs_read.specs.declared.body.Body.{Body as BodyState};
ghost use Rattle.dimacs_read.specs.declared.spot.State.TheVariants.{Preamble, Header, Line, Gap, Minus, Number};

use crate::body::Body;
use crate::bytes::{ByteKind, with_digit};
use crate::header;
use crate::spot::{HeaderState, State};
use crate::stop::{Code, Halt};
use std::alloc::Global;

/// What a byte leads to before the header.
fn in_preamble(byte: u8, kind: ByteKind) -> Result<State, Halt>
    requires { IsKind byte kind }
    ensures { (b : BodyState) → MatchResult result (λ next. Leads Preamble b byte next b) (λ stop. Stops Preamble b byte stop b) }
{
    match (kind, byte) {
        (ByteKind::Newline | ByteKind::Blank, _) => Ok(State::Preamble),
        (ByteKind::Other, b'c') => Ok(State::PreambleComment),
        (ByteKind::Other, b'p') => Ok(State::Header(HeaderState::P)),
        _ => Err(Halt::Bad(Code::NoHeader)),
    }
}

/// What a byte leads to in the header line. The newline opens the formula.
fn in_header(
    alloc: Global,
    spot: HeaderState,
    body: &mut Body,
    byte: u8,
    kind: ByteKind,
) -> Result<State, Halt>
    requires kind { IsKind byte kind }
    requires lawful { IsLawful body.old }
    ensures lawful { OnOk result (IsLawful body.new) }
    ensures leads { IfOk result (λ next. Leads (Header spot) body.old byte next body.new) }
    ensures stops { IfErr result (λ stop. Stops (Header spot) body.old byte stop body.new) }
{
    if byte == b'\n' {
        let header = match header::header_of(spot) {
            Ok(header) => header,
            Err(code) => return Err(Halt::Bad(code)),
        };
        *body = Body::new(alloc, header);
        return Ok(State::Line);
    }
    match header::next_state(spot, byte, kind) {
        Some(next) => Ok(State::Header(next)),
        None => Err(Halt::Bad(Code::BadHeader)),
    }
}

/// What a byte leads to after a token and a blank.
fn after_blank(byte: u8, kind: ByteKind) -> Result<State, Halt>
    requires { IsKind byte kind }
    ensures { (b : BodyState) → MatchResult result (λ next. Leads Gap b byte next b) (λ stop. Stops Gap b byte stop b) }
{
    match (kind, byte) {
        (ByteKind::Newline, _) => Ok(State::Line),
        (ByteKind::Blank, _) => Ok(State::Gap),
        (ByteKind::Digit(digit), _) => Ok(State::Number(false, digit)),
        (ByteKind::Other, b'-') => Ok(State::Minus),
        _ => Err(Halt::Bad(Code::BadToken)),
    }
}

/// What a byte leads to at the front of a line after the header.
fn after_newline(body: &Body, byte: u8, kind: ByteKind) -> Result<State, Halt>
    requires kind { IsKind byte kind }
    requires lawful { IsLawful body.now }
    ensures leads { IfOk result (λ next. Leads Line body.now byte next body.now) }
    ensures stops { IfErr result (λ stop. Stops Line body.now byte stop body.now) }
{
    if byte == b'c' {
        return Ok(State::Comment);
    }
    if byte == b'%' {
        return Err(body.stop_at_mark());
    }
    match kind {
        ByteKind::Newline | ByteKind::Blank => Ok(State::Line),
        ByteKind::Digit(_) => after_blank(byte, kind),
        ByteKind::Other => after_blank(byte, kind),
    }
}

/// What a byte leads to after a minus sign.
fn after_minus(byte: u8, kind: ByteKind) -> Result<State, Halt>
    requires { IsKind byte kind }
    ensures { (b : BodyState) → MatchResult result (λ next. Leads Minus b byte next b) (λ stop. Stops Minus b byte stop b) }
{
    match kind {
        ByteKind::Digit(digit) => Ok(State::Number(true, digit)),
        _ => Err(Halt::Bad(Code::BadToken)),
    }
}

/// What a byte leads to in the digits of a token.
fn in_number(
    alloc: Global,
    body: &mut Body,
    neg: bool,
    value: u64,
    byte: u8,
    kind: ByteKind,
) -> Result<State, Halt>
    requires kind { IsKind byte kind }
    requires lawful { IsLawful body.old }
    ensures lawful { OnOk result (IsLawful body.new) }
    ensures leads { IfOk result (λ next. Leads (Number neg value) body.old byte next body.new) }
    ensures stops { IfErr result (λ stop. Stops (Number neg value) body.old byte stop body.new) }
{
    match kind {
        ByteKind::Newline => {
            body.take_integer(alloc, neg, value)?;
            Ok(State::Line)
        }
        ByteKind::Blank => {
            body.take_integer(alloc, neg, value)?;
            Ok(State::Gap)
        }
        ByteKind::Digit(digit) => Ok(State::Number(neg, with_digit(value, digit))),
        ByteKind::Other => Err(Halt::Bad(Code::BadToken)),
    }
}

/// What a byte leads to in a comment, from where its line's end leads.
fn in_comment(comment: State, line: State, byte: u8) -> State
    ensures { result ≡ (if byte == 10 then line else comment) }
{
    if byte == b'\n' { line } else { comment }
}

/// What a byte leads to.
pub(crate) fn next_state(
    alloc: Global,
    spot: State,
    body: &mut Body,
    byte: u8,
    kind: ByteKind,
) -> Result<State, Halt>
    requires kind { IsKind byte kind }
    requires lawful { IsLawful body.old }
    ensures lawful { OnOk result (IsLawful body.new) }
    ensures leads { IfOk result (λ next. Leads spot body.old byte next body.new) }
    ensures stops { IfErr result (λ stop. Stops spot body.old byte stop body.new) }
{
    match spot {
        State::Preamble => in_preamble(byte, kind),
        State::PreambleComment => Ok(in_comment(spot, State::Preamble, byte)),
        State::Header(part) => in_header(alloc, part, body, byte, kind),
        State::Line => after_newline(body, byte, kind),
        State::Comment => Ok(in_comment(spot, State::Line, byte)),
        State::Gap => after_blank(byte, kind),
        State::Minus => after_minus(byte, kind),
        State::Number(neg, value) => in_number(alloc, body, neg, value, byte, kind),
    }
}
