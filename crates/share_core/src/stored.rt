ghost use Rattle.std.specs.Prelude.{◌≡◌, IfOk};

use crate::items::Copied;
use sat_words::{Lit, Lits};
use std::alloc::{AllocError, Global};

/// A clause that stands in a cell, as the rings know it.
#[derive(Drop)]
pub struct ClauseAt {
    /// Where the cell stands.
    pub address: u64,
    /// The clause's number in the log.
    pub number: u64,
    /// The literals, in the order in which a deletion spells them.
    pub lits: Lits,
}

/// What stands at an address.
#[derive(Drop)]
pub struct Cell {
    /// The literals, in the order in which a deletion spells them.
    pub lits: Lits,
    /// The clause's number in the log.
    pub number: u64,
    /// How many hold it.
    pub count: u64,
    /// The ring that builds it, until it is open.
    pub maker: Option<u32>,
}

/// A put: for which ring, of which class, at which place, which address.
#[derive(Clone, Copy)]
pub struct PutNote {
    /// For which ring.
    pub to: u32,
    /// Of which class.
    pub class: u8,
    /// At which place.
    pub place: u32,
    /// Where the cell stands.
    pub address: u64,
}

/// A cell with its address.
#[derive(Drop)]
pub(crate) struct StoredCell {
    pub(crate) address: u64,
    pub(crate) cell: Cell,
}

impl Copied for ClauseAt {
    fn copied(&self, alloc: Global) -> Result<ClauseAt, AllocError> {
        Ok(ClauseAt {
            address: self.address,
            number: self.number,
            lits: Lits::from_slice(alloc, self.lits.as_slice())?,
        })
    }
}

impl Copied for StoredCell {
    fn copied(&self, alloc: Global) -> Result<StoredCell, AllocError> {
        let cell = &self.cell;
        Ok(StoredCell {
            address: self.address,
            cell: Cell {
                lits: Lits::from_slice(alloc, cell.lits.as_slice())?,
                number: cell.number,
                count: cell.count,
                maker: cell.maker,
            },
        })
    }
}

impl Copied for PutNote {
    fn copied(&self, _alloc: Global) -> Result<PutNote, AllocError> {
        Ok(*self)
    }
}

impl Copied for u64 {
    fn copied(&self, _alloc: Global) -> Result<u64, AllocError> {
        Ok(*self)
    }
}

impl Copied for Lit {
    fn copied(&self, _alloc: Global) -> Result<Lit, AllocError> {
        Ok(*self)
    }
}
