// The executable core, which the program never runs: it makes the definitions of specs/ run, for tests.
ghost use Rattle.std.specs.Prelude.{◌≡◌, ◌<◌, ◌&&◌, nat_lt, length, IfOk};
ghost use Rattle.share_core.specs.declared.progress.Origin.{Origin};
ghost use Rattle.rup_model.specs.Journal.{is_ring};
ghost use Rattle.share_core.specs.State.{later};
ghost use Rattle.share_core.specs.Machine.{has_at, ring_in, data_of, state_of};

use crate::event::Stop;
use crate::items::{Items, copies};
use crate::ring::{RingState, has_at};
use crate::stored::{ClauseAt, StoredCell};
use rup_model::Entry;
use sat_words::{Formula, Line, Lit};
use std::alloc::{AllocError, Global};

/// What a core was opened with.
#[derive(Drop)]
pub(crate) struct Origin {
    pub(crate) formula: Formula,
    /// The journal before the opening.
    pub(crate) journal: Items<Entry>,
    pub(crate) starts: Items<ClauseAt>,
    pub(crate) units: Items<Lit>,
    pub(crate) numbers: Items<u64>,
    pub(crate) depth: u32,
    pub(crate) limit: u64,
    pub(crate) hinted: bool,
}

/// What the events have changed so far.
#[derive(Drop)]
pub(crate) struct Progress {
    /// The whole journal, with the entries before the opening.
    pub(crate) journal: Items<Entry>,
    /// Its lines.
    pub(crate) lines: Items<Line>,
    pub(crate) cells: Vec<StoredCell>,
    pub(crate) rings: Vec<RingState>,
    pub(crate) slots: Vec<u64>,
    pub(crate) units: Items<Lit>,
    pub(crate) numbers: Items<u64>,
    pub(crate) turn: Option<u32>,
    pub(crate) stop: Option<Stop>,
    pub(crate) drawn: u64,
}

impl Progress {
    /// An equal one.
    pub(crate) fn copied(&self, alloc: Global) -> Result<Progress, AllocError>
        ensures same { (o : Origin) → IfOk result (λ copy. data_of o copy ≡ data_of o self.now) }
    {
        Ok(Progress {
            journal: self.journal.copied(alloc)?,
            lines: self.lines.copied(alloc)?,
            cells: copies(alloc, self.cells.as_slice())?,
            rings: copies(alloc, self.rings.as_slice())?,
            slots: Vec::from_slice(alloc, self.slots.as_slice())?,
            units: self.units.copied(alloc)?,
            numbers: self.numbers.copied(alloc)?,
            turn: self.turn,
            stop: self.stop,
            drawn: self.drawn,
        })
    }

    /// The entries after those of the opening.
    pub(crate) fn later(&self, origin: &Origin) -> &[Entry]
        ensures { let c = state_of (data_of origin.now self.now) in result.now ≡ later c.opening c.journal }
    {
        let before = origin.journal.len();
        if before > self.journal.len() {
            return &[];
        }
        &self.journal.as_slice()[before..]
    }

    /// Whether it is a ring's number.
    pub(crate) fn is_ring(&self, ring: u32) -> bool
        ensures { result ≡ nat_lt ring (length self.now.rings.items) }
    {
        (ring as usize) < self.rings.len()
    }

    /// The ring with this number.
    pub(crate) fn ring(&self, ring: u32) -> &RingState
        requires { ring < length self.now.rings.items }
        ensures { result.now ≡ ring_in self.now.rings.items ring }
    {
        &self.rings[ring as usize]
    }

    /// Whether the turn is the ring's.
    pub(crate) fn has_turn(&self, ring: u32) -> bool
        ensures { result ≡ is_ring ring self.now.turn }
    {
        match self.turn {
            Some(other) => other == ring,
            None => false,
        }
    }

    /// Whether it is a ring, and holds the cell.
    pub(crate) fn holds(&self, ring: u32, address: u64) -> bool
        ensures { result ≡ (nat_lt ring (length self.now.rings.items) && has_at address (ring_in self.now.rings.items ring).held) }
    {
        self.is_ring(ring) && has_at(&self.ring(ring).held, address)
    }
}
