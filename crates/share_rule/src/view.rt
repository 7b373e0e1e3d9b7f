//! What a pass knows. No value of these types is made: each stands in a pass as a fact.
use crate::Layout;
use rup_model::Entry;
use sat_words::{Lit, ProofFormat};
use share_core::{ClauseAt, CoreOpening, Part, Stop};
use std::collections::LinkedList;

/// An operation on a word, with its operands.
pub enum Op {
    /// The word is read.
    Load,
    /// The word is replaced.
    Store(u64),
    /// The word is replaced, and the old one read.
    Swap(u64),
    /// The number is added.
    FetchAdd(u64),
    /// The number is subtracted.
    FetchSub(u64),
    /// If the word is the first number, it becomes the second.
    CompareExchange(u64, u64),
}

/// A step on a word, and the value that it found; at a store, the value stored.
pub struct LastStep {
    /// The word's place.
    pub word: u64,
    /// What was done.
    pub op: Op,
    /// The value found.
    pub found: u64,
}

/// The glue of the clause with this number.
pub struct GlueAt {
    /// The clause's number.
    pub number: u64,
    /// Its glue.
    pub glue: u32,
}

/// A word that was stored for a cell under construction.
pub struct StoredWord {
    /// The word's place.
    pub place: u64,
    /// The word.
    pub word: u64,
}

/// What the book held when a ring took the turn: holes and state are functions of the journal.
pub struct Taken {
    /// The journal as it then was.
    pub journal: LinkedList<Entry>,
}

/// Why a turn refused to write.
#[derive(Clone, Copy)]
pub enum Refusal {
    /// The empty clause stands in the log.
    Ended,
    /// An earlier write of the book failed.
    Broken,
    /// The output failed in this turn.
    ProofFault,
    /// No hole is long enough, or the log is full.
    NoHole {
        /// What was needed.
        need: u64,
        /// What there is at most.
        largest: u64,
    },
}

/// A look into a slot of a class that another ring has for this one.
pub struct Poll {
    /// The other ring.
    pub from: u32,
    /// The class.
    pub class: u8,
    /// The place of the slot.
    pub place: u32,
    /// How often the ring had read by then how many units are listed, if it had seen as many.
    pub caught_up: u64,
}

/// What one ring has.
pub struct RingPart {
    /// Its part of the core.
    pub core: Part,
    /// The glues of the clauses that it has known.
    pub glues: LinkedList<GlueAt>,
    /// The words that it stored in cells under construction.
    pub stored: LinkedList<StoredWord>,
    /// What it took with the turn, while it has it.
    pub turn: Option<Taken>,
    /// The greatest number of listed units that it read.
    pub listed: u64,
    /// It has the turn, and has read how many units are listed since it took it.
    pub whole: bool,
    /// The word that it stored for the next listed unit, not counted yet.
    pub unit: Option<u64>,
    /// The word that it stored for that unit's number, not counted yet.
    pub number: Option<u64>,
    /// What its turns were refused last.
    pub refused: Option<Refusal>,
    /// It was told that a write of the book has failed.
    pub failed: bool,
    /// The stop that it set.
    pub set: Option<Stop>,
    /// It wrote the empty clause, or found it written.
    pub ended: bool,
    /// The clauses that it put into slots.
    pub gave: LinkedList<ClauseAt>,
    /// The slots of other rings that it swapped out, in order, whether or not a clause lay there.
    pub polls: LinkedList<Poll>,
    /// How often it read how many units are listed, if it had seen as many.
    pub caught_up: u64,
}

/// What a book was when the table was made: how it spells its lines, what its sink told, and whether it keeps its lines.
pub struct BookOrigin {
    /// How its lines are spelled.
    pub format: ProofFormat,
    /// The sink says its bytes; there was none then.
    pub tells: bool,
    /// The path that the sink is for, if it is known.
    pub target: Option<LinkedList<u8>>,
    /// The bytes that a flush had made sure of, if they are known.
    pub flushed: Option<LinkedList<u8>>,
    /// How often the sink had failed.
    pub faults: u64,
    /// The book keeps its lines.
    pub keeps: bool,
}

/// How far a pass is.
pub enum Stage {
    /// Its table is not open yet.
    Draft,
    /// It is a pass of an open table.
    Open,
    /// It was joined to another.
    Spent,
}

/// What a pass knows.
pub struct View {
    /// How far its table and itself are.
    pub stage: Stage,
    /// Where things lie in the words.
    pub layout: Layout,
    /// What the table was opened with.
    pub opening: CoreOpening,
    /// What the book was then.
    pub origin: BookOrigin,
    /// How many steps on words the pass took.
    pub steps: u64,
    /// The last of them.
    pub last: Option<LastStep>,
    /// The stop that it has seen.
    pub stop: Option<Stop>,
    /// How often it looked for a stop and found none.
    pub looks: u64,
    /// The rings whose grants it may yet take.
    pub rights: LinkedList<u32>,
    /// The parts of its rings.
    pub parts: LinkedList<RingPart>,
}
