/// The address of a clause that is kept in one place for whoever uses it: the index of its first word in a table, or a
/// place in a store of one ring's own. A table's addresses are never 0.
#[derive(Clone, Copy, PartialEq, Eq, Debug)]
pub struct Cref {
    /// The index.
    pub address: u64,
}

/// What stands before the literals of a kept clause.
#[derive(Clone, Copy, PartialEq, Eq, Debug)]
pub struct Head {
    /// How many literals it has.
    pub size: u32,
    /// Its glue (LBD; Audemard and Simon 2009), the number of distinct decision levels among its literals but the
    /// asserting one when it was learned. 0 for a clause that the search began with.
    pub glue: u32,
    /// Its number in the log: the formula's clauses have 1 to m, and each addition has the next.
    pub number: u64,
}

/// How many lines a log can have. So each number that a line is given fits into 64 bits.
pub const MAX_ENTRIES: u64 = 1 << 48;

/// The kind of a stop by which a ring has found an assignment.
pub const STOP_SAT: u8 = 1;

/// The kind of a stop by which a ring has ended the log with the empty clause.
pub const STOP_REFUTED: u8 = 2;

/// The kind of a stop by which a ring has found no room for a clause or a line.
pub const STOP_ROOM: u8 = 3;

/// The kind of a stop by which a ring has met a fault of the proof.
pub const STOP_PROOF: u8 = 4;

/// The kind of a stop by which a ring has run out of memory.
pub const STOP_MEMORY: u8 = 5;

/// Why the search is over, and whose finding that is. The first stop decides.
#[derive(Clone, Copy, PartialEq, Eq, Debug)]
pub struct Stop {
    /// One of the five kinds from `STOP_SAT` to `STOP_MEMORY`.
    pub kind: u8,
    /// The ring, from 0.
    pub ring: u32,
}

/// Whether a ring's own stop stands from now on.
#[derive(Clone, Copy, PartialEq, Eq, Debug, Drop)]
pub enum Set {
    /// It does; none stood before.
    Won,
    /// This one stands already.
    Lost(Stop),
}

/// There was too little room: for a clause in a table, counted in words, or for one more entry of a log, counted in entries.
#[derive(Clone, Copy, PartialEq, Eq, Debug)]
pub struct NoRoom {
    /// How much is needed.
    pub need: u64,
    /// How much there is in one piece at most, which is less.
    pub largest: u64,
}
