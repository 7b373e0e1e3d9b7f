// Why an input is refused.
ghost use Rattle.std.specs.Prelude.{◌≡◌, Some};
ghost use Rattle.dimacs_read.specs.Codes.{number_of, name_of};

use std::alloc::{AllocError, AllocFailed};
use std::fmt;
use thiserror::Error;

/// What is wrong with an input at its first bad place.
#[derive(Clone, Copy, Debug, PartialEq, Eq)]
pub enum Code {
    /// A line that is no comment stands before the header, or there is no header.
    NoHeader,
    /// The header line isn't `p cnf`, a number of variables and a number of clauses.
    BadHeader,
    /// A token is no integer, or a `%` stands within a clause.
    BadToken,
    /// A literal is on a variable above the header's number.
    LiteralRange,
    /// A token follows the header's number of clauses.
    TooManyClauses,
    /// The formula ends before the header's number of clauses.
    TooFewClauses,
    /// The input ends within a clause.
    OpenClause,
    /// More than 2^28 - 1 variables or clauses, 2^20 literals in a clause, or 2^33 bytes.
    Limit,
}

impl Code {
    /// Its number, from 1 to 8.
    pub fn number(self) -> u8
        ensures { result ≡ number_of self }
    {
        match self {
            Code::NoHeader => 1,
            Code::BadHeader => 2,
            Code::BadToken => 3,
            Code::LiteralRange => 4,
            Code::TooManyClauses => 5,
            Code::TooFewClauses => 6,
            Code::OpenClause => 7,
            Code::Limit => 8,
        }
    }

    /// Its name.
    pub fn name(self) -> &'static str
        ensures { result.now ≡ name_of self }
    {
        match self {
            Code::NoHeader => "NoHeader",
            Code::BadHeader => "BadHeader",
            Code::BadToken => "BadToken",
            Code::LiteralRange => "LiteralRange",
            Code::TooManyClauses => "TooManyClauses",
            Code::TooFewClauses => "TooFewClauses",
            Code::OpenClause => "OpenClause",
            Code::Limit => "Limit",
        }
    }
}

/// Its name.
impl fmt::Display for Code {
    ghost output = { λ code. Some (name_of code) };

    fn fmt<W: fmt::Write>(&self, f: &mut fmt::Formatter<W>) -> fmt::Result {
        f.write_str(self.name())
    }
}

/// Why no formula was read. The source is then of no more use.
#[derive(Clone, Copy, Debug, PartialEq, Eq, Error)]
pub enum ReadStop {
    /// The first bad place of the input, by its line. Lines are counted from 1.
    #[error("input line {line}: {code}")]
    Bad {
        /// What is wrong there.
        code: Code,
        /// Where it is.
        line: u64,
    },
    /// The source failed; its fault count rose.
    #[error("read fault")]
    ReadFault,
    /// Memory ran out.
    #[error("out of memory")]
    Memory,
}

/// Why a reader takes no further byte.
#[derive(Clone, Copy)]
pub(crate) enum Halt {
    Bad(Code),
    /// The formula has ended.
    Done,
    Memory,
}

impl From<AllocError> for Halt {
    ghost use Rattle.dimacs_read.specs.declared.stop.Halt.TheVariants.{Memory};

    ghost from_gives = { λ _ stop. stop ≡ Memory };

    fn from(_: AllocError) -> Self {
        Halt::Memory
    }
}

impl<T: Drop> From<AllocFailed<T>> for Halt {
    ghost use Rattle.dimacs_read.specs.declared.stop.Halt.TheVariants.{Memory};

    ghost from_gives = { λ _ stop. stop ≡ Memory };

    fn from(_: AllocFailed<T>) -> Self {
        Halt::Memory
    }
}
