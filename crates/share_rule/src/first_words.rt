//! The words that a table begins with: below the cells what the opening says, then the cells of the start
//! clauses, at the end the number of tickets drawn and the numbers of the units.
ghost use Rattle.std.specs.Prelude.{◌≡◌, ◌≤◌, ◌<◌, ◌^◌, ◌*◌, ◌/◌, ◌+◌, ◌-◌, ◌++◌, ◌∷◌, [], map, length, replicate, IfOk, IfErr, OnOk, ℕ, Some, All};
ghost use Rattle.sat_words.specs.Literal.{Literal, code_of};
ghost use Rattle.sat_words.specs.declared.shared.Cref.{Cref};
ghost use Rattle.clause_cell.specs.declared.holes.HoleStop.TheVariants.{NoHole, Memory};
ghost use Rattle.clause_cell.specs.Free.{first_fit, without_fit, largest};
ghost use Rattle.clause_cell.specs.Packing.{words_for};
ghost use Rattle.share_core.specs.State.{unit_numbers};
ghost use Rattle.share_rule.specs.Layout.{first_cell, ticket_at, InVars};
ghost use Rattle.share_rule.specs.Room.{start_room};
ghost use Rattle.share_rule.specs.FirstWords.{total, starts_at, addresses, lit_words, cell_words, start_words, low_words, last_words, first_words, IsMakeStop};

use crate::Layout;
use clause_cell::{HoleStop, Holes, head_word, lit_word, words_for};
use sat_words::{Clause, Cref, Lit};
use std::alloc::{AllocError, Global};

/// Fills the words up to this place.
fn fill(words: &mut Vec<u64>, end: usize, value: u64) -> Result<(), AllocError>
    requires { length words.old.items ≤ end }
    ensures { OnOk result (words.new.items ≡ words.old.items ++ replicate (end - length words.old.items) value) }
{
    words.resize(end, value)
}

fn push_units(words: &mut Vec<u64>, units: &[(Lit, u64)]) -> Result<(), AllocError>
    ensures { OnOk result (words.new.items ≡ words.old.items ++ map (λ u. code_of u.0) units.now) }
{
    for unit in units {
        words.push(unit.0.code() as u64)?;
    }
    Ok(())
}

fn push_numbers(words: &mut Vec<u64>, units: &[(Lit, u64)]) -> Result<(), AllocError>
    ensures { OnOk result (words.new.items ≡ words.old.items ++ unit_numbers units.now) }
{
    for unit in units {
        words.push(unit.1)?;
    }
    Ok(())
}

/// The words behind the cells: no ticket drawn, the numbers of the listed units.
fn push_last(words: &mut Vec<u64>, layout: Layout, units: &[(Lit, u64)]) -> Result<(), AllocError>
    requires layout { (layout.rings ≤ 16) × (layout.vars ≤ 2 ^ 30) × (layout.words ≤ 2 ^ 31) × (layout.depth ≤ 16) }
    requires units { length units.now ≤ 2 * layout.vars }
    requires words { length words.old.items ≡ ticket_at layout }
    ensures { OnOk result (words.new.items ≡ words.old.items ++ last_words layout units.now) }
{
    words.push(0)?;
    push_numbers(words, units)?;
    fill(words, layout.table_words(), 0)
}

/// The words below the cells: no turn, no stop, the listed units, open grants, empty slots. There is room for all words.
fn low_words(alloc: Global, layout: Layout, units: &[(Lit, u64)]) -> Result<Vec<u64>, AllocError>
    requires layout { (layout.rings ≤ 16) × (layout.vars ≤ 2 ^ 30) × (layout.words ≤ 2 ^ 31) × (layout.depth ≤ 16) }
    requires units { length units.now ≤ 2 * layout.vars }
    ensures { IfOk result (λ v. v.items ≡ low_words layout units.now) }
{
    let first = layout.first_cell();
    let mut words = Vec::with_capacity(alloc, layout.table_words())?;
    words.push(0)?;
    words.push(0)?;
    words.push(units.len() as u64)?;
    fill(&mut words, 3 + layout.rings as usize, 1)?;
    push_units(&mut words, units)?;
    fill(&mut words, first as usize, 0)?;
    Ok(words)
}

fn push_lits(words: &mut Vec<u64>, lits: &[Lit]) -> Result<(), AllocError>
    requires { length lits.now < 2 ^ 32 }
    ensures { OnOk result (words.new.items ≡ words.old.items ++ lit_words lits.now ((length lits.now + 1) / 2)) }
{
    for place in 0..(lits.len() + 1) / 2 {
        words.push(lit_word(lits, place))?;
    }
    Ok(())
}

/// The cell of a start clause: it is counted once for each ring, and has glue 0.
fn push_cell(words: &mut Vec<u64>, rings: u32, number: u64, lits: &[Lit]) -> Result<(), AllocError>
    requires { length lits.now < 2 ^ 32 }
    ensures { OnOk result (words.new.items ≡ words.old.items ++ cell_words rings (number, lits.now)) }
{
    words.push(rings as u64)?;
    words.push(number)?;
    words.push(head_word(lits.len() as u32, 0))?;
    push_lits(words, lits)
}

/// Places one start clause.
fn place_one(
    holes: &mut Holes,
    cells: &mut Vec<Cref>,
    words: &mut Vec<u64>,
    rings: u32,
    start: &(u64, Clause),
) -> Result<(), HoleStop>
    requires { length start.now.1 < 2 ^ 32 }
    ensures found { OnOk result ((a : ℕ) × (first_fit (words_for (length start.now.1)) holes.old ≡ Some a) × (cells.new.items ≡ cells.old.items ++ record { address = a } ∷ [])) }
    ensures holes { OnOk result (holes.new ≡ without_fit (words_for (length start.now.1)) holes.old) }
    ensures words { OnOk result (words.new.items ≡ words.old.items ++ cell_words rings start.now) }
    ensures none { IfErr result (λ e. (need most : ℕ) → e ≡ NoHole need most → (need ≡ words_for (length start.now.1)) × (most ≡ largest holes.old) × (most < need)) }
{
    let (number, clause) = start;
    let lits = clause.lits();
    let address = holes.take(words_for(lits.len() as u32))?;
    match push_cell(words, rings, *number, lits) {
        Ok(()) => {}
        Err(_) => return Err(HoleStop::Memory),
    }
    match cells.push(Cref { address }) {
        Ok(()) => Ok(()),
        Err(_) => Err(HoleStop::Memory),
    }
}

/// Places the start clauses in the order given.
fn place_starts(
    alloc: Global,
    layout: Layout,
    words: &mut Vec<u64>,
    start: &[(u64, Clause)],
) -> Result<(Holes, Vec<Cref>), HoleStop>
    requires layout { (layout.rings ≤ 16) × (layout.vars ≤ 2 ^ 30) × (layout.words ≤ 2 ^ 31) × (layout.depth ≤ 16) }
    requires short { All (λ s. length s.1 < 2 ^ 32) start.now }
    ensures words { OnOk result (words.new.items ≡ words.old.items ++ start_words layout.rings start.now) }
    ensures holes { IfOk result (λ p. p.0 ≡ (start_room layout (starts_at (first_cell layout) start.now)).holes) }
    ensures cells { IfOk result (λ p. p.1.items ≡ addresses (starts_at (first_cell layout) start.now)) }
    ensures fits { OnOk result (total start.now ≤ layout.words) }
    ensures stopped { IfErr result (λ e. IsMakeStop layout start.now e) }
{
    let mut holes = Holes::new(alloc, layout.first_cell(), layout.words)?;
    let mut cells = Vec::new(alloc);
    for clause in start {
        match place_one(&mut holes, &mut cells, words, layout.rings, clause) {
            Ok(()) => {}
            Err(stop) => return Err(stop),
        }
    }
    Ok((holes, cells))
}

/// All words, with the holes that the start clauses leave and their addresses.
pub(crate) fn lay_out(
    alloc: Global,
    layout: Layout,
    start: &[(u64, Clause)],
    units: &[(Lit, u64)],
) -> Result<(Vec<u64>, Holes, Vec<Cref>), HoleStop>
    requires layout { (layout.rings ≤ 16) × (layout.vars ≤ 2 ^ 30) × (layout.words ≤ 2 ^ 31) × (layout.depth ≤ 16) }
    requires short { All (λ s. length s.1 < 2 ^ 32) start.now }
    requires units { length units.now ≤ 2 * layout.vars }
    ensures words { IfOk result (λ p. p.0.items ≡ first_words layout start.now units.now) }
    ensures holes { IfOk result (λ p. p.1 ≡ (start_room layout (starts_at (first_cell layout) start.now)).holes) }
    ensures cells { IfOk result (λ p. p.2.items ≡ addresses (starts_at (first_cell layout) start.now)) }
    ensures fits { OnOk result (total start.now ≤ layout.words) }
    ensures stopped { IfErr result (λ e. IsMakeStop layout start.now e) }
{
    let mut words = match low_words(alloc, layout, units) {
        Ok(words) => words,
        Err(_) => return Err(HoleStop::Memory),
    };
    let (holes, cells) = place_starts(alloc, layout, &mut words, start)?;
    if fill(&mut words, layout.ticket(), 0).is_err() {
        return Err(HoleStop::Memory);
    }
    match push_last(&mut words, layout, units) {
        Ok(()) => Ok((words, holes, cells)),
        Err(_) => Err(HoleStop::Memory),
    }
}
