use rup_model::{ClauseNumbers, Kind};
use sat_words::{Lit, Lits};

/// No ring shares its clauses more often than this, so that no count overflows a word.
pub const MAX_SHARES: u64 = 1 << 56;

/// There are no more slots than this for each two rings and class.
pub const MAX_DEPTH: u32 = 16;

/// Why the rings stop, and who said so. The kinds are 1 for a model, 2 for a refutation, 3 for want of room, 4 for a
/// fault of the proof's output and 5 for want of memory.
#[derive(Clone, Copy, PartialEq, Eq, Debug)]
pub struct Stop {
    /// 1 to 5.
    pub kind: u8,
    /// The ring that set it.
    pub ring: u32,
}

/// One step of one ring. Addresses are plain names of cells, never 0. Rings are numbered from 0, and classes, by which
/// pools order clauses, are 0 to 3. The slots for two rings and a class have their places, from 0.
#[derive(Drop)]
pub enum Event {
    /// Takes the ring's grant: from then on the ring itself holds each start clause.
    Grant {
        /// Whose step it is.
        ring: u32,
    },
    /// Takes the turn to write into the log.
    TakeTurn {
        /// Whose step it is.
        ring: u32,
    },
    /// Gives the turn back.
    GiveTurn {
        /// Whose step it is.
        ring: u32,
    },
    /// Adds a clause of two literals or more to the log, and begins a cell for it.
    AddClause {
        /// Whose step it is.
        ring: u32,
        /// Learned or derived.
        kind: Kind,
        /// The literals, in the order of the line.
        lits: Lits,
        /// In a log with hints, the numbers of clauses that show one after another that it follows; in other logs none.
        hints: ClauseNumbers,
        /// Where the cell is to stand.
        address: u64,
    },
    /// Adds a unit to the log.
    AddUnit {
        /// Whose step it is.
        ring: u32,
        /// Learned, or made true by propagation.
        kind: Kind,
        /// The unit.
        lit: Lit,
        /// Hints as for a clause.
        hints: ClauseNumbers,
    },
    /// Adds the empty clause, which ends the log.
    AddEmpty {
        /// Whose step it is.
        ring: u32,
        /// Hints as for a clause.
        hints: ClauseNumbers,
    },
    /// Notes that the ring reduces what it has learned.
    Reduce {
        /// Whose step it is.
        ring: u32,
    },
    /// Opens a cell that the ring has built. The ring then holds it once.
    OpenCell {
        /// Whose step it is.
        ring: u32,
        /// Where the cell stands.
        address: u64,
    },
    /// Reads a cell that the ring holds.
    Read {
        /// Whose step it is.
        ring: u32,
        /// Where the cell stands.
        address: u64,
    },
    /// Holds a cell once more, so that it may be handed on.
    Share {
        /// Whose step it is.
        ring: u32,
        /// Where the cell stands.
        address: u64,
    },
    /// Holds a cell once less. A cell that nobody holds any more waits at the ring for its deletion.
    DropCount {
        /// Whose step it is.
        ring: u32,
        /// Where the cell stands.
        address: u64,
    },
    /// Deletes the clause of a cell that waits from the log, and with it the cell.
    Bury {
        /// Whose step it is.
        ring: u32,
        /// Where the cell stands.
        address: u64,
    },
    /// Puts a cell that the ring holds into a slot of its own for another ring, and takes back what was there.
    Put {
        /// Whose step it is.
        ring: u32,
        /// For whom.
        to: u32,
        /// The class of the slot.
        class: u8,
        /// The place of the slot.
        place: u32,
        /// Where the cell stands.
        address: u64,
    },
    /// Takes what is in a slot that another ring has for this one.
    Get {
        /// Whose step it is.
        ring: u32,
        /// From whom.
        from: u32,
        /// The class of the slot.
        class: u8,
        /// The place of the slot.
        place: u32,
    },
    /// Lists a unit.
    Publish {
        /// Whose step it is.
        ring: u32,
        /// The unit.
        lit: Lit,
        /// The number of a clause that is this unit.
        number: u64,
    },
    /// Sees the next listed unit.
    See {
        /// Whose step it is.
        ring: u32,
    },
    /// Tells all rings to stop, if none has said so before.
    Stop {
        /// Whose step it is.
        ring: u32,
        /// Why, by number as in `Stop`.
        kind: u8,
    },
    /// Draws a ticket, with which the ring may learn one clause; it gets none if all have been drawn.
    Draw {
        /// Whose step it is.
        ring: u32,
    },
}
