//! The core before its first event.
//! The executable core, which the program never runs: it makes the definitions of specs/ run, for tests.
ghost use Rattle.std.specs.Prelude.{◌≡◌, ◌*◌, [], map, replicate, IfOk};
ghost use Rattle.std.specs.Option.{unwrap_or};
ghost use Rattle.rup_model.specs.Journal.{formula_clause, lines as lines_of};
ghost use Rattle.share_core.specs.State.{IsCoreOpening, opened, unit_lits, unit_numbers};
ghost use Rattle.share_core.specs.Machine.{state_of, no_ring, start_at, start_stored};

use crate::items::Items;
use crate::progress::{Origin, Progress};
use crate::ring::RingState;
use crate::running::Core;
use crate::stored::{Cell, ClauseAt, StoredCell};
use rup_model::Entry;
use sat_words::{Clause, Formula, Line, Lit, Lits};
use std::alloc::{AllocError, Global};

/// The literals of the formula's clause with this number, none if there is no such clause.
fn lits_under(alloc: Global, clauses: &[Clause], number: u64) -> Result<Lits, AllocError>
    ensures { IfOk result (λ lits. lits ≡ unwrap_or (formula_clause clauses.now number) []) }
{
    if number == 0 || number > clauses.len() as u64 {
        return Lits::from_slice(alloc, &[]);
    }
    let index = (number - 1) as usize;
    Lits::from_slice(alloc, clauses[index].lits())
}

/// The clause with this number, at an address.
fn start_clause(
    alloc: Global,
    clauses: &[Clause],
    address: u64,
    number: u64,
) -> Result<ClauseAt, AllocError>
    ensures { IfOk result (λ h. h ≡ record { address = address; number = number; lits = unwrap_or (formula_clause clauses.now number) [] }) }
{
    Ok(ClauseAt {
        address,
        number,
        lits: lits_under(alloc, clauses, number)?,
    })
}

pub(crate) fn start_clauses(
    alloc: Global,
    clauses: &[Clause],
    start: &[(u64, u64)],
) -> Result<Items<ClauseAt>, AllocError>
    ensures { IfOk result (λ hs. hs ≡ map (start_at clauses.now) start.now) }
{
    let mut starts = Items::new(alloc);
    for pair in start {
        starts.push(start_clause(alloc, clauses, pair.0, pair.1)?)?;
    }
    Ok(starts)
}

fn start_cells(
    alloc: Global,
    starts: &[ClauseAt],
    rings: u32,
) -> Result<Vec<StoredCell>, AllocError>
    ensures { IfOk result (λ cells. cells.items ≡ map (start_stored rings) starts.now) }
{
    let mut cells = Vec::new(alloc);
    for s in starts {
        cells.push(StoredCell {
            address: s.address,
            cell: Cell {
                lits: Lits::from_slice(alloc, s.lits.as_slice())?,
                number: s.number,
                count: rings as u64,
                maker: None,
            },
        })?;
    }
    Ok(cells)
}

fn blank_rings(alloc: Global, rings: u32) -> Result<Vec<RingState>, AllocError>
    ensures { IfOk result (λ all. all.items ≡ replicate rings no_ring) }
{
    let mut all = Vec::new(alloc);
    for _ in 0..rings {
        all.push(RingState::new(alloc))?;
    }
    Ok(all)
}

fn empty_slots(alloc: Global, count: usize) -> Result<Vec<u64>, AllocError>
    ensures { IfOk result (λ all. all.items ≡ replicate count 0) }
{
    let mut all = Vec::new(alloc);
    all.resize(count, 0)?;
    Ok(all)
}

/// The literals of units that are given with their numbers.
pub(crate) fn unit_lits(alloc: Global, units: &[(Lit, u64)]) -> Result<Items<Lit>, AllocError>
    ensures { IfOk result (λ lits. lits ≡ unit_lits units.now) }
{
    let mut lits = Items::new(alloc);
    for unit in units {
        lits.push(unit.0)?;
    }
    Ok(lits)
}

/// The numbers alone.
fn unit_numbers(alloc: Global, units: &[(Lit, u64)]) -> Result<Items<u64>, AllocError>
    ensures { IfOk result (λ numbers. numbers ≡ unit_numbers units.now) }
{
    let mut numbers = Items::new(alloc);
    for unit in units {
        numbers.push(unit.1)?;
    }
    Ok(numbers)
}

/// The machine before the first event after the journal, whose lines are these.
pub(crate) fn opened(
    alloc: Global,
    formula: Formula,
    journal: Items<Entry>,
    lines: Items<Line>,
    starts: Items<ClauseAt>,
    units: &[(Lit, u64)],
    rings: u32,
    depth: u32,
    limit: u64,
    hinted: bool,
) -> Result<Core, AllocError>
    requires opens { IsCoreOpening (record { formula = formula.clauses; rings = rings; depth = depth; journal = journal; starts = starts; units = unit_lits units.now; numbers = unit_numbers units.now; limit = limit; hinted = hinted }) }
    requires told { lines ≡ lines_of formula.clauses journal }
    ensures { IfOk result (λ core. state_of core ≡ opened (record { formula = formula.clauses; rings = rings; depth = depth; journal = journal; starts = starts; units = unit_lits units.now; numbers = unit_numbers units.now; limit = limit; hinted = hinted })) }
{
    let cells = start_cells(alloc, starts.as_slice(), rings)?;
    let progress = Progress {
        journal: journal.copied(alloc)?,
        lines,
        cells,
        rings: blank_rings(alloc, rings)?,
        slots: empty_slots(
            alloc,
            4 * (rings as usize * rings as usize) * depth as usize,
        )?,
        units: unit_lits(alloc, units)?,
        numbers: unit_numbers(alloc, units)?,
        turn: None,
        stop: None,
        drawn: 0,
    };
    Ok(Core {
        origin: Origin {
            formula,
            journal,
            starts,
            units: unit_lits(alloc, units)?,
            numbers: unit_numbers(alloc, units)?,
            depth,
            limit,
            hinted,
        },
        progress,
    })
}
