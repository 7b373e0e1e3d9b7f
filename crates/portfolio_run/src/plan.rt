use sat_words::ProofFormat;

/// How a formula is decided.
#[derive(Clone, Copy, PartialEq, Eq, Debug, Drop)]
pub struct Plan {
    /// How many rings search, from 1 to 16.
    pub threads: u32,
    /// How many lemmas the rings may learn together, up to 10^12.
    pub conflicts: u64,
    /// How many of these they may learn in one round, after which the ruler goes on: from 1 to 10^12; if there is no such number, there
    /// is one round.
    pub round: Option<u64>,
    /// How many words of 64 bits there are for clauses, up to 2^31.
    pub words: u64,
    /// How many slots each two rings have for each class of clauses, from 1 to 16.
    pub slots: u32,
    /// What the first phases of the variables are made of, with each ring's number.
    pub seed: u64,
    /// How many steps each ring walks after its first import in each round, up to 10^9.
    pub walk: u64,
    /// How many rounds of simplifiers there may be before each round of the rings; in none, units alone are propagated.
    pub rounds: u32,
    /// Whether each round may add variables that stand for two literals, if fewer clauses do then.
    pub additions: bool,
    /// How the lines of the log are spelled: with hints only if no round may add variables.
    pub format: ProofFormat,
    /// Whether the lines of the log are kept, for a check.
    pub keep_lines: bool,
}
