use crate::stored::{ClauseAt, PutNote};
use rup_model::Entry;
use sat_words::Lit;
use std::collections::LinkedList;

/// The formula, the numbers of rings and of slots, the journal before, the start clauses in their cells, the units that
/// are listed from the start with their numbers, the limit of what is learned, and whether additions have hints. No value
/// of it is made.
pub struct CoreOpening {
    /// The formula's clauses.
    pub formula: LinkedList<LinkedList<Lit>>,
    /// How many rings there are.
    pub rings: u32,
    /// How many slots there are for each two rings and class.
    pub depth: u32,
    /// What was written before, by the ruler and in earlier rounds.
    pub journal: LinkedList<Entry>,
    /// The start clauses, with their addresses.
    pub starts: LinkedList<ClauseAt>,
    /// The units that are listed from the start.
    pub units: LinkedList<Lit>,
    /// Their numbers, in the same order: each is that of a clause that is the unit.
    pub numbers: LinkedList<u64>,
    /// How many clauses the rings may learn together.
    pub limit: u64,
    /// Whether each addition of the rings has hints.
    pub hinted: bool,
}

/// An entry with its place in the journal. No value of it is made.
pub struct Placed {
    /// How many entries stand before it.
    pub place: u64,
    /// The entry.
    pub entry: Entry,
}

/// What one ring has. No value of it is made.
pub struct Part {
    /// Its number.
    pub ring: u32,
    /// The cells that it holds, each as often as it does.
    pub held: LinkedList<ClauseAt>,
    /// The cells that it builds.
    pub making: LinkedList<ClauseAt>,
    /// The cells that it is to delete.
    pub waiting: LinkedList<ClauseAt>,
    /// The units that it has seen.
    pub seen: LinkedList<Lit>,
    /// Their numbers, in the same order.
    pub numbers: LinkedList<u64>,
    /// How often it has shared.
    pub shared: u64,
    /// What it wrote, in order.
    pub wrote: LinkedList<Placed>,
    /// What it put, in order.
    pub puts: LinkedList<PutNote>,
    /// Whether it has a ticket in hand.
    pub ticket: bool,
    /// One more than the number drawn before its last draw, 0 before its first.
    pub found: u64,
}
