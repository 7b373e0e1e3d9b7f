// What deciding a formula comes to.
use ring_run::Counts;
use sat_words::{Assignment, Line, NoRoom};

/// The answer to a formula.
#[derive(Drop)]
pub enum Answer {
    /// This assignment makes each clause true. It has a value for each variable of the formula, and no other.
    Sat(Assignment),
    /// No assignment does, and the log shows it.
    Unsat,
    /// The rings together learned as many lemmas as they may before one knew.
    Unknown,
    /// There was too little room: for a start clause or a lemma, counted in words, or for one more entry of the log.
    NoHole(NoRoom),
    /// The proof's sink failed.
    ProofFault,
    /// Memory ran out.
    Memory,
}

/// The answer, and what is given back and told with each.
#[derive(Drop)]
pub struct Solved<S> {
    /// The answer.
    pub answer: Answer,
    /// The proof's sink. Its last call was a flush.
    pub sink: S,
    /// The lines of the log, where they were to be kept; none if the sink failed, and perhaps none if memory ran out.
    pub lines: Option<Vec<Line>>,
    /// What each ring counted, in the order of the rings: zeros if none ran, and nothing if memory ran out before.
    pub tally: Vec<Counts>,
}
