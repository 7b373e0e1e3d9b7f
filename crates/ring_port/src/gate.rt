//! Places if a test may hold a ring.

/// What a ring has just done when it calls its gate.
#[derive(Clone, Copy, PartialEq, Eq, Debug, Drop)]
pub enum Point {
    /// It has learned a clause.
    Learned,
    /// It gave the last count of a clause up, and has not yet asked for the turn in which that is deleted.
    Dropped,
    /// It has put a clause if another ring may get it.
    Put,
}

/// What a ring passes now and then, outside of the log's turn. A gate may report and hold up a ring; it changes nothing that
/// contracts see. Rings on several threads share one, so whoever runs them asks that it is `Sync`.
pub trait Gate {
    /// The ring is at this point, and has learned this many clauses.
    fn at(&self, ring: u32, point: Point, learned: u64);
}

/// A gate that every ring passes at once.
#[derive(Clone, Copy, PartialEq, Eq, Debug, Drop)]
pub struct OpenGate;

impl Gate for OpenGate {
    fn at(&self, _ring: u32, _point: Point, _learned: u64) {}
}
