// Where a reader stands in a text.

/// Where a reader stands in the header line.
#[derive(Clone, Copy)]
pub(crate) enum HeaderState {
    P,
    AfterP,
    C,
    Cn,
    Cnf,
    AfterCnf,
    /// In the number of variables; `u64::MAX` also stands for more.
    Vars(u64),
    AfterVars(u64),
    /// In the number of clauses, after that of variables.
    Clauses(u64, u64),
    AfterClauses(u64, u64),
}

/// Where a reader stands in a text.
#[derive(Clone, Copy)]
pub(crate) enum State {
    /// Before the header, with no more than blanks before on the line.
    Preamble,
    /// In a comment before the header.
    PreambleComment,
    Header(HeaderState),
    /// Behind the header, with no more than blanks before on the line.
    Line,
    /// In a comment after the header.
    Comment,
    /// Behind a token, and a blank.
    Gap,
    /// Behind the minus sign of a token.
    Minus,
    /// In the digits of a token, by its sign and their value; `u64::MAX` also stands for more.
    Number(bool, u64),
}
