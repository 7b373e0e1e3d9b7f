use sat_words::{Cref, Lit};

/// A clause with the two literals that watch it, and whether it has no others.
#[derive(Clone, Copy)]
pub struct Watch {
    pub clause: Cref,
    pub first: Lit,
    pub second: Lit,
    pub binary: bool,
}

/// What the list of a literal has of a watch: its slot, and a literal of its clause that spares a look at it while it is
/// true (the blocking literal of Glucose and MiniSat 2.2).
#[derive(Clone, Copy)]
pub struct Watcher {
    pub slot: u32,
    pub blocker: Lit,
}

/// A watch as one of its literals sees it: its slot, its clause, its other literal, and whether the clause has no others.
#[derive(Clone, Copy)]
pub(crate) struct ListEntry {
    pub(crate) index: u32,
    pub(crate) clause: Cref,
    pub(crate) other: Lit,
    pub(crate) binary: bool,
}

/// What a watcher in the list of a false literal asks for.
#[derive(Clone, Copy)]
pub(crate) enum ClauseState {
    /// To be dropped: the literal doesn't watch this clause any more.
    Stale,
    /// Nothing: a literal of the clause is true.
    Settled,
    /// This literal of its clause, which is true, as its blocker.
    Blocked(Lit),
    /// To be moved to this literal, which isn't false.
    Moves(ListEntry, Lit),
    /// That this literal becomes true, for this clause.
    Forced(Lit, Cref),
    /// A conflict: every literal of this clause is false.
    False(Cref),
}

/// What the look at one clause came to.
#[derive(Clone, Copy)]
pub(crate) enum Visit {
    /// It is watched well.
    Done,
    /// Every literal of this clause is false.
    Falsified(Cref),
}
