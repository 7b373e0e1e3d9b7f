ghost use Rattle.std.specs.Prelude.{◌≡◌, [], IfOk};

use sat_words::Lits;
use std::alloc::{AllocError, Global};
use std::marker::Model;

/// The ring under which the ruler writes; the rings that search are below it.
pub const RULER_RING: u32 = 16;

/// A ring learns at least as many clauses before it reduces, and again before it next does.
pub const LEARNED_PER_REDUCTION: u64 = 2000;

/// Why a clause was added.
#[derive(Clone, Copy, PartialEq, Eq, Debug)]
pub enum Kind {
    /// The ruler simplified the formula, before a round of the rings.
    Ruler,
    /// A ring learned it from a conflict.
    Learn,
    /// A ring made a clause shorter, or ended the log with the empty clause.
    Derive,
    /// A ring's propagation made a literal true for good.
    UnitLine,
}

/// Numbers of clauses, in the order given.
#[derive(Drop)]
pub struct ClauseNumbers {
    items: Vec<u64>,
}

impl Model for ClauseNumbers {
    ghost use Rattle.std.specs.Prelude.{ℕ, List};

    ghost Value = { List ℕ };

    ghost view = { λ numbers. numbers.items.items };
}

impl ClauseNumbers {
    /// No numbers. It takes no memory.
    pub fn none(alloc: Global) -> ClauseNumbers
        ensures { result ≡ [] }
    {
        ClauseNumbers {
            items: Vec::new(alloc),
        }
    }

    /// A copy of the numbers.
    pub fn from_slice(alloc: Global, numbers: &[u64]) -> Result<ClauseNumbers, AllocError>
        ensures { IfOk result (λ copy. copy ≡ numbers.now) }
    {
        Ok(ClauseNumbers {
            items: Vec::from_slice(alloc, numbers)?,
        })
    }

    /// The numbers, in their order.
    pub fn as_slice(&self) -> &[u64]
        ensures { result.now ≡ self.now }
    {
        self.items.as_slice()
    }
}

/// A clause added to the log.
#[derive(Drop)]
pub struct Addition {
    /// Who added it.
    pub ring: u32,
    /// The clause's number: the formula's clauses have 1 to m, and each addition has the next.
    pub number: u64,
    /// The literals, in the order of the line.
    pub lits: Lits,
    /// Why it was added.
    pub kind: Kind,
    /// In a log with hints, the numbers of clauses that show one after another that it follows; in other logs none.
    pub hints: ClauseNumbers,
}

/// What a round of the rings begins with.
#[derive(Drop)]
pub struct Round {
    /// The numbers of the start clauses, in order.
    pub starts: ClauseNumbers,
    /// The units that are listed from the start.
    pub units: Lits,
}

/// An entry of the journal: what one ring, or the ruler, wrote into the log, or that a round of the rings begins.
#[derive(Drop)]
pub enum Entry {
    /// Adds a clause.
    Add(Addition),
    /// Deletes the clause with this number.
    Del {
        /// Who deleted it.
        ring: u32,
        /// The clause's number.
        number: u64,
    },
    /// Notes that the ring reduces its learned clauses; the log has no line for it.
    Reduce {
        /// Whose clauses are reduced.
        ring: u32,
    },
    /// Begins a round of the rings; the log has no line for it.
    Round(Round),
}
