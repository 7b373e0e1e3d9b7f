//! What a ring writes while it has the turn.
use rup_model::{ClauseNumbers, Kind};
use sat_words::{Lit, Lits};

/// One entry that a ring writes. Its number, if it has one, is the next of the log.
#[derive(Drop)]
pub enum Note {
    /// A clause of two literals or more, for a cell at this address.
    Clause {
        /// Whether it is learned or derived.
        kind: Kind,
        /// Its literals, in the cell's order.
        lits: Lits,
        /// In a log with hints, the numbers of clauses that show one after another that it follows; in other logs none.
        hints: ClauseNumbers,
        /// Its glue.
        glue: u32,
        /// The first word of its cell.
        address: u64,
    },
    /// A unit clause.
    Unit {
        /// Whether it is learned or propagated.
        kind: Kind,
        /// Its literal.
        lit: Lit,
        /// Hints as for a clause.
        hints: ClauseNumbers,
    },
    /// The empty clause, with which the log ends.
    Empty {
        /// Hints as for a clause.
        hints: ClauseNumbers,
    },
    /// The ring reduces its clauses.
    Reduce,
    /// The clause of a cell that waits is deleted, and its words are free again.
    Bury {
        /// The first word of its cell.
        address: u64,
    },
}
