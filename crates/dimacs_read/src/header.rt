// The header line, byte by byte.
ghost use Rattle.std.specs.Prelude.{◌≡◌, ◌<◌, ◌-◌, ◌^◌, ℕ, List, [], Err, MatchResult, IfOk, true, false};
ghost use Rattle.dimacs_read.specs.Grammar.{judge, places, opening, is_newline};
ghost use Rattle.dimacs_read.specs.Bytes.{Passes, IsKind};
ghost use Rattle.dimacs_read.specs.Header.{sizes_at, HeaderLeads};

use crate::bytes::{ByteKind, with_digit};
use crate::spot::HeaderState;
use crate::stop::Code;

/// Numbers of variables and of clauses are below it.
const LIMIT: u64 = 1 << 28;

/// What a blank leads to. None if the line is then no header, however it goes on.
fn behind_blank(spot: HeaderState, byte: u8) -> Option<HeaderState>
    requires { Passes byte false true false }
    ensures { HeaderLeads spot byte result }
{
    match spot {
        HeaderState::P => Some(HeaderState::AfterP),
        HeaderState::Cnf => Some(HeaderState::AfterCnf),
        HeaderState::Vars(vars) => Some(HeaderState::AfterVars(vars)),
        HeaderState::Clauses(vars, clauses) => Some(HeaderState::AfterClauses(vars, clauses)),
        HeaderState::C | HeaderState::Cn => None,
        HeaderState::AfterP
        | HeaderState::AfterCnf
        | HeaderState::AfterVars(_)
        | HeaderState::AfterClauses(_, _) => Some(spot),
    }
}

/// What a digit leads to. None if the line is then no header, however it goes on.
fn behind_digit(spot: HeaderState, byte: u8, digit: u64) -> Option<HeaderState>
    requires passes { Passes byte false false true }
    requires value { digit ≡ byte - 48 }
    requires small { digit < 10 }
    ensures { HeaderLeads spot byte result }
{
    match spot {
        HeaderState::AfterCnf => Some(HeaderState::Vars(digit)),
        HeaderState::Vars(vars) => Some(HeaderState::Vars(with_digit(vars, digit))),
        HeaderState::AfterVars(vars) => Some(HeaderState::Clauses(vars, digit)),
        HeaderState::Clauses(vars, clauses) => {
            Some(HeaderState::Clauses(vars, with_digit(clauses, digit)))
        }
        _ => None,
    }
}

/// What another byte leads to. None if the line is then no header, however it goes on.
fn behind_other(spot: HeaderState, byte: u8) -> Option<HeaderState>
    requires { Passes byte false false false }
    ensures { HeaderLeads spot byte result }
{
    match (spot, byte) {
        (HeaderState::AfterP, b'c') => Some(HeaderState::C),
        (HeaderState::C, b'n') => Some(HeaderState::Cn),
        (HeaderState::Cn, b'f') => Some(HeaderState::Cnf),
        _ => None,
    }
}

/// What a byte that is no newline leads to. None if the line is then no header, however it goes on.
pub(crate) fn next_state(spot: HeaderState, byte: u8, kind: ByteKind) -> Option<HeaderState>
    requires kind { IsKind byte kind }
    requires within { is_newline byte ≡ false }
    ensures { HeaderLeads spot byte result }
{
    match kind {
        ByteKind::Newline => None,
        ByteKind::Blank => behind_blank(spot, byte),
        ByteKind::Digit(digit) => behind_digit(spot, byte, digit),
        ByteKind::Other => behind_other(spot, byte),
    }
}

/// The numbers of variables and of clauses of a header line that ends here.
#[derive(Clone, Copy)]
pub(crate) struct Header {
    pub vars: u32,
    pub clauses: u32,
}

/// The header that ends here, or why it is none.
pub(crate) fn header_of(spot: HeaderState) -> Result<Header, Code>
    ensures opening { MatchResult result
        (λ header. (line : ℕ) (more : List (List ℕ)) → opening line (sizes_at spot []) more ≡ judge header.vars header.clauses [] [] (places line more))
        (λ code. (line : ℕ) (more : List (List ℕ)) → opening line (sizes_at spot []) more ≡ Err (record { code = code; line = line })) }
    ensures few { IfOk result (λ header. (header.vars < 2 ^ 28) × (header.clauses < 2 ^ 28)) }
{
    let (HeaderState::Clauses(vars, clauses) | HeaderState::AfterClauses(vars, clauses)) = spot
    else {
        return Err(Code::BadHeader);
    };
    if vars >= LIMIT || clauses >= LIMIT {
        return Err(Code::Limit);
    }
    Ok(Header {
        vars: vars as u32,
        clauses: clauses as u32,
    })
}
