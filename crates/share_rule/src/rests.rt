//! What a table that was taken apart held at its end.
ghost use Rattle.std.specs.Prelude.{◌≡◌, ◌≤◌, ◌<◌, ◌^◌, ◌/◌, ℕ, List, length, slice_index, IfOk, OnOk, Some, false};
ghost use Rattle.std.specs.Mem.Slots.{slots_items, IsFull};
ghost use Rattle.sat_words.specs.Literal.{Literal, literal_of};
ghost use Rattle.share_core.specs.declared.stored.Cell.{Cell};
ghost use Rattle.share_core.specs.State.{State};
ghost use Rattle.share_rule.specs.Layout.{cells_end};
ghost use Rattle.share_rule.specs.Rests.{rest_of, IsAtEnd, HasHoles, HasLits, AreRestsBefore, AreRests, AreListed, TellsRests};

use crate::{Layout, Ledger};
use atomic_table::Closed;
use clause_cell::{glue_of, half, size_of, words_for};
use sat_words::{Clause, Lit};
use std::alloc::{AllocError, Global};

/// A clause that a table held at its end.
#[derive(Drop)]
pub struct Rest {
    /// Its number in the log.
    pub number: u64,
    /// The clause.
    pub clause: Clause,
    /// Its glue.
    pub glue: u32,
}

/// The word at a place.
fn word<S>(table: &Closed<S, Global>, place: u64) -> u64
    requires full { IsFull table.now.words }
    requires inside { place < length (slots_items table.now.words) }
    ensures { result ≡ slice_index (slots_items table.now.words) place }
{
    table.word(place as usize)
}

/// The literal of a code.
fn lit_of(code: u32) -> Lit
    requires low { 1 ≤ code / 2 }
    requires high { code / 2 ≤ 2 ^ 30 }
    ensures { result ≡ literal_of code }
{
    Lit::new(code / 2, code % 2 == 1)
}

/// Reads the literals of a cell, as many as there are.
fn read_lits<S>(
    table: &Closed<S, Global>,
    cell: u64,
    size: u32,
    lits: &mut Vec<Lit>,
) -> Result<(), AllocError>
    requires full { IsFull table.now.words }
    requires lits { (spelled : List Literal) × HasLits (slots_items table.now.words) cell size spelled }
    ensures { OnOk result ((spelled : List Literal) → HasLits (slots_items table.now.words) cell size spelled → lits.new.items ≡ spelled) }
{
    lits.clear();
    for place in 0..size {
        let word = word(table, cell + 3 + (place / 2) as u64);
        lits.push(lit_of(half(word, place)))?;
    }
    Ok(())
}

/// Reads the clause of a cell. Its literals come in the cell's order too.
fn read_cell<S>(
    table: &Closed<S, Global>,
    layout: Layout,
    cell: u64,
    lits: &mut Vec<Lit>,
) -> Result<Rest, AllocError>
    requires full { IsFull table.now.words }
    requires cell { (c : State) × (glue : ℕ → ℕ) × IsAtEnd layout c glue (slots_items table.now.words) × ((x : Cell) × (c.cell cell ≡ Some x)) }
    ensures { IfOk result (λ r. (c : State) (glue : ℕ → ℕ) (x : Cell) → IsAtEnd layout c glue (slots_items table.now.words) → c.cell cell ≡ Some x → (r ≡ rest_of glue x) × (length lits.new.items ≡ length x.lits)) }
{
    let number = word(table, cell + 1);
    let head = word(table, cell + 2);
    read_lits(table, cell, size_of(head), lits)?;
    let alloc = *lits.allocator();
    Ok(Rest {
        number,
        clause: Clause::from_lits(alloc, lits.as_slice())?,
        glue: glue_of(head),
    })
}

/// Reads all cells, in the order of their words: a run of free words is passed over, and elsewhere a cell begins.
fn read_cells<B: Ledger>(
    alloc: Global,
    table: &Closed<Option<B>, Global>,
    layout: Layout,
    book: &B,
) -> Result<Vec<Rest>, AllocError>
    requires layout { (layout.rings ≤ 16) × (layout.vars ≤ 2 ^ 30) × (layout.words ≤ 2 ^ 31) × (layout.depth ≤ 16) }
    requires full { IsFull table.now.words }
    requires end { (c : State) × (glue : ℕ → ℕ) × IsAtEnd layout c glue (slots_items table.now.words) × HasHoles layout c (B.account book.now).holes }
    ensures { IfOk result (λ rs. (c : State) (glue : ℕ → ℕ) → IsAtEnd layout c glue (slots_items table.now.words) → HasHoles layout c (B.account book.now).holes → AreRestsBefore (cells_end layout) c glue rs.items) }
{
    let mut rests = Vec::new(alloc);
    let mut lits = Vec::new(alloc);
    let end = layout.first_cell() + layout.words;
    let mut at = layout.first_cell();
    while at < end {
        match book.hole_from(at) {
            Some(len) => at += len,
            None => {
                rests.push(read_cell(table, layout, at, &mut lits)?)?;
                at += words_for(lits.len() as u32);
            }
        }
    }
    Ok(rests)
}

/// The clauses of all cells, in order of number.
fn read_rests<B: Ledger>(
    alloc: Global,
    table: &Closed<Option<B>, Global>,
    layout: Layout,
    book: &B,
) -> Result<Vec<Rest>, AllocError>
    requires layout { (layout.rings ≤ 16) × (layout.vars ≤ 2 ^ 30) × (layout.words ≤ 2 ^ 31) × (layout.depth ≤ 16) }
    requires full { IsFull table.now.words }
    requires end { (c : State) × (glue : ℕ → ℕ) × IsAtEnd layout c glue (slots_items table.now.words) × HasHoles layout c (B.account book.now).holes }
    ensures { IfOk result (λ rs. (c : State) (glue : ℕ → ℕ) → IsAtEnd layout c glue (slots_items table.now.words) → HasHoles layout c (B.account book.now).holes → AreRests c glue rs.items) }
{
    let mut rests = read_cells(alloc, table, layout, book)?;
    rests.sort_unstable_by_key(|rest| rest.number);
    Ok(rests)
}

/// The listed units with their numbers, in the order in which they were listed.
fn read_units<S>(
    alloc: Global,
    table: &Closed<S, Global>,
    layout: Layout,
) -> Result<Vec<(Lit, u64)>, AllocError>
    requires layout { (layout.rings ≤ 16) × (layout.vars ≤ 2 ^ 30) × (layout.words ≤ 2 ^ 31) × (layout.depth ≤ 16) }
    requires full { IsFull table.now.words }
    requires end { (c : State) × (glue : ℕ → ℕ) × IsAtEnd layout c glue (slots_items table.now.words) }
    ensures { IfOk result (λ us. (c : State) (glue : ℕ → ℕ) → IsAtEnd layout c glue (slots_items table.now.words) → AreListed c us.items) }
{
    let mut units = Vec::new(alloc);
    for place in 0..word(table, 2) {
        let code = word(table, layout.unit(place) as u64);
        let number = word(table, layout.number(place) as u64);
        units.push((lit_of(code as u32), number))?;
    }
    Ok(units)
}

/// What the table held: the clauses of its cells and the listed units. Nothing is told if a write of its book has failed, since
/// its holes are not known then.
pub(crate) fn read<B: Ledger>(
    alloc: Global,
    table: &Closed<Option<B>, Global>,
    layout: Layout,
    book: &B,
) -> Result<(Vec<Rest>, Vec<(Lit, u64)>), AllocError>
    requires layout { (layout.rings ≤ 16) × (layout.vars ≤ 2 ^ 30) × (layout.words ≤ 2 ^ 31) × (layout.depth ≤ 16) }
    requires full { IsFull table.now.words }
    requires end { (c : State) × (glue : ℕ → ℕ) × IsAtEnd layout c glue (slots_items table.now.words) × ((B.account book.now).broken ≡ false → HasHoles layout c (B.account book.now).holes) }
    ensures { IfOk result (λ t. (c : State) (glue : ℕ → ℕ) → IsAtEnd layout c glue (slots_items table.now.words) → ((B.account book.now).broken ≡ false → HasHoles layout c (B.account book.now).holes) → TellsRests c glue (B.account book.now).broken t.0.items t.1.items) }
{
    if book.is_broken() {
        return Ok((Vec::new(alloc), Vec::new(alloc)));
    }
    let rests = read_rests(alloc, table, layout, book)?;
    let units = read_units(alloc, table, layout)?;
    Ok((rests, units))
}
