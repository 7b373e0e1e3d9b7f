//! Cells by their addresses, in a list.
//! The executable core, which the program never runs: it makes the definitions of specs/ run, for tests.
ghost use Rattle.std.specs.Prelude.{◌≡◌, ◌==◌, IfOk, OnOk, position, None, ◌++◌, ◌∷◌, [], not};
ghost use Rattle.std.specs.List.{filter};
ghost use Rattle.std.specs.Option.{is_none};
ghost use Rattle.share_core.specs.State.{count_at, number_at, lits_at};
ghost use Rattle.share_core.specs.Machine.{cell_in, recounted};

use crate::stored::{ClauseAt, StoredCell};
use sat_words::Lits;
use std::alloc::{AllocError, Global};

fn place_of(cells: &[StoredCell], address: u64) -> Option<usize>
    ensures { result ≡ position (λ x. x.address == address) cells.now }
{
    cells.iter().position(|x| x.address == address)
}

/// Whether there is no cell at the address.
pub(crate) fn is_free(cells: &[StoredCell], address: u64) -> bool
    ensures { result ≡ is_none (cell_in address cells.now) }
{
    match place_of(cells, address) {
        Some(_) => false,
        None => true,
    }
}

/// The count of the cell, 0 if there is none.
pub(crate) fn count_of(cells: &[StoredCell], address: u64) -> u64
    ensures { result ≡ count_at (cell_in address cells.now) }
{
    match place_of(cells, address) {
        Some(i) => cells[i].cell.count,
        None => 0,
    }
}

/// The number of the cell's clause, 0 if there is none.
pub(crate) fn number_of(cells: &[StoredCell], address: u64) -> u64
    ensures { result ≡ number_at (cell_in address cells.now) }
{
    match place_of(cells, address) {
        Some(i) => cells[i].cell.number,
        None => 0,
    }
}

/// A copy of the cell's literals, none if there is no cell.
pub(crate) fn lits_of(alloc: Global, cells: &[StoredCell], address: u64) -> Result<Lits, AllocError>
    ensures { IfOk result (λ lits. lits ≡ lits_at (cell_in address cells.now)) }
{
    match place_of(cells, address) {
        Some(i) => Lits::from_slice(alloc, cells[i].cell.lits.as_slice()),
        None => Lits::from_slice(alloc, &[]),
    }
}

/// The clause at the address, as the rings know it.
pub(crate) fn clause_of(
    alloc: Global,
    cells: &[StoredCell],
    address: u64,
) -> Result<ClauseAt, AllocError>
    ensures { IfOk result (λ h. h ≡ record { address = address; number = number_at (cell_in address cells.now); lits = lits_at (cell_in address cells.now) }) }
{
    Ok(ClauseAt {
        address,
        number: number_of(cells, address),
        lits: lits_of(alloc, cells, address)?,
    })
}

/// Gives the cell at the address another count, and opens it.
pub(crate) fn set_count(cells: &mut Vec<StoredCell>, address: u64, count: u64)
    ensures { cells.new.items ≡ recounted address count cells.old.items }
{
    if let Some(i) = place_of(cells.as_slice(), address) {
        let stored = &mut cells[i];
        stored.cell.count = count;
        stored.cell.maker = None;
    }
}

/// Takes the cells at the address out.
pub(crate) fn remove_cell(cells: &mut Vec<StoredCell>, address: u64)
    ensures { cells.new.items ≡ filter (λ x. not (x.address == address)) cells.old.items }
{
    cells.retain(|x| x.address != address);
}
