//! Tables that are made for a problem.
ghost use Rattle.std.specs.Prelude.{◌≡◌, false, [], length, map, IfOk};
ghost use Rattle.sat_words.specs.Formats.{has_hints};
ghost use Rattle.share_rule.specs.Books.{HasLog};
ghost use Rattle.share_rule.specs.FirstWords.{MayBegin, begun_with, starts_at, addresses};
ghost use Rattle.share_rule.specs.declared.Layout.{Layout};
ghost use Rattle.share_rule.specs.Layout.{first_cell};
ghost use Rattle.share_rule.specs.Passes.{IsPassOf};
ghost use Rattle.share_rule.specs.Views.{first_view};
ghost use Rattle.test_formulas.specs.Problems.{IsProblem};
ghost use Rattle.test_tables.specs.Samples.{IsFirst};

use crate::book::SampleBook;
use clause_cell::{HoleStop, Holes};
use sat_words::{Clause, Cref, Formula, Lit};
use share_rule::{Layout, Ledger, MakeStop, Pass, Shared, make};
use std::alloc::Global;
use std::test::Fail;
use test_formulas::Problem;

/// A table with its first pass and the addresses of the start cells, or why there is none.
type Made<B> = Result<(Shared<B>, Pass<B>, Vec<Cref>), MakeStop<B>>;

/// A table over a formula, after which no line stands.
fn make_over<B: Ledger>(
    alloc: Global,
    formula: &Formula,
    layout: Layout,
    start: &[(u64, Clause)],
    units: &[(Lit, u64)],
    book: B,
) -> Made<B>
    requires begins { MayBegin formula.now.clauses layout [] start.now units.now }
    requires book { HasLog B.account B.stands book (B.origin book) layout formula.now.clauses [] }
    requires whole { (B.account book).broken ≡ false }
    ensures made { IfOk result (λ m. (m.0.layout ≡ layout) × IsPassOf m.0 m.1 × (m.1.me ≡ (first_view layout (begun_with formula.now.clauses layout (has_hints (B.origin book).format) [] start.now units.now) (B.origin book), []))) }
    ensures cells { IfOk result (λ m. m.2.items ≡ addresses (starts_at (first_cell layout) start.now)) }
{
    make(alloc, formula, layout, start, units, book)
}

/// A table for this many rings over a formula, with its first pass, or why there is none. The book has no line yet.
fn try_over<B: Ledger + Drop>(
    alloc: Global,
    formula: &Formula,
    start: &[(u64, Clause)],
    units: &[(Lit, u64)],
    rings: u32,
    words: u64,
    depth: u32,
    conflicts: u64,
    book: B,
) -> Result<Made<B>, Fail>
    requires problem { IsProblem formula.now start.now (map (λ u. u.0) units.now) units.now }
    requires book { (l : Layout) → HasLog B.account B.stands book (B.origin book) l formula.now.clauses [] }
    requires whole { (B.account book).broken ≡ false }
    ensures first { IfOk result (λ m. IfOk m (λ m. IsFirst m.0 m.1 0 × (m.1.me.0.parts ≡ []))) }
    ensures layout { IfOk result (λ m. IfOk m (λ m. m.0.layout ≡ record { rings = rings; vars = formula.now.vars; words = words; depth = depth; conflicts = conflicts })) }
    ensures opening { IfOk result (λ m. IfOk m (λ m. m.1.me.0.opening ≡ begun_with formula.now.clauses m.0.layout (has_hints (B.origin book).format) [] start.now units.now)) }
    ensures cells { IfOk result (λ m. IfOk m (λ m. m.2.items ≡ addresses m.1.me.0.opening.starts)) }
{
    let vars = formula.vars();
    if rings == 0 || rings > 16 || vars > 1 << 30 || words > 1 << 31 {
        return Err(Fail::from("no layout"));
    }
    if depth == 0 || depth > 16 {
        return Err(Fail::from("no slots"));
    }
    if conflicts > 1 << 63 {
        return Err(Fail::from("too many tickets"));
    }
    let layout = Layout {
        rings,
        vars,
        words,
        depth,
        conflicts,
    };
    match make_over(alloc, formula, layout, start, units, book) {
        Ok(made) => Ok(Ok(made)),
        Err(stop) => Ok(Err(stop)),
    }
}

/// A table for this many rings over such a book, with its first pass. The depth is how many slots there are for each two
/// rings and class; the conflicts are how many clauses the rings may learn together. No line stands in the book yet.
pub fn open_with<B: Ledger + Drop>(
    alloc: Global,
    problem: &Problem,
    rings: u32,
    words: u64,
    depth: u32,
    conflicts: u64,
    book: B,
) -> Result<(Shared<B>, Pass<B>, Vec<Cref>), Fail>
    requires book { (l : Layout) → HasLog B.account B.stands book (B.origin book) l problem.now.formula.clauses [] }
    requires whole { (B.account book).broken ≡ false }
    ensures first { IfOk result (λ m. IsFirst m.0 m.1 0 × (m.1.me.0.parts ≡ [])) }
    ensures layout { IfOk result (λ m. m.0.layout ≡ record { rings = rings; vars = problem.now.formula.vars; words = words; depth = depth; conflicts = conflicts }) }
    ensures opening { IfOk result (λ m. m.1.me.0.opening ≡ begun_with problem.now.formula.clauses m.0.layout (has_hints (B.origin book).format) [] problem.now.start.items problem.now.listed.items) }
    ensures cells { IfOk result (λ m. m.2.items ≡ addresses m.1.me.0.opening.starts) }
{
    let start = problem.start.as_slice();
    let units = problem.listed.as_slice();
    match try_over(
        alloc,
        &problem.formula,
        start,
        units,
        rings,
        words,
        depth,
        conflicts,
        book,
    )? {
        Ok(made) => Ok(made),
        Err(_) => Err(Fail::from("no table")),
    }
}

/// A book for a formula, with no line.
fn new_book(alloc: Global, formula: &Formula) -> Result<SampleBook, Fail>
    ensures { IfOk result (λ b. (b.entries ≡ 0) × (b.last ≡ length formula.now.clauses)) }
{
    Ok(SampleBook {
        entries: 0,
        last: formula.clauses().len() as u64,
        holes: Holes::new(alloc, 0, 0)?,
    })
}

/// A table for this many rings, with its first pass, at which nothing can be learned.
pub fn open(
    alloc: Global,
    problem: &Problem,
    rings: u32,
    words: u64,
    depth: u32,
) -> Result<(Shared<SampleBook>, Pass<SampleBook>, Vec<Cref>), Fail>
    ensures first { IfOk result (λ m. IsFirst m.0 m.1 0 × (m.1.me.0.parts ≡ []) × (m.1.me.0.opening.rings ≡ rings)) }
    ensures depth { IfOk result (λ m. m.0.layout.depth ≡ depth) }
    ensures cells { IfOk result (λ m. m.2.items ≡ addresses m.1.me.0.opening.starts) }
{
    open_with_tickets(alloc, problem, rings, words, depth, 0)
}

/// A table for this many rings, with its first pass, and with so many tickets.
pub fn open_with_tickets(
    alloc: Global,
    problem: &Problem,
    rings: u32,
    words: u64,
    depth: u32,
    conflicts: u64,
) -> Result<(Shared<SampleBook>, Pass<SampleBook>, Vec<Cref>), Fail>
    ensures first { IfOk result (λ m. IsFirst m.0 m.1 0 × (m.1.me.0.parts ≡ []) × (m.1.me.0.opening.rings ≡ rings)) }
    ensures depth { IfOk result (λ m. m.0.layout.depth ≡ depth) }
    ensures cells { IfOk result (λ m. m.2.items ≡ addresses m.1.me.0.opening.starts) }
{
    let book = new_book(alloc, &problem.formula)?;
    open_with(alloc, problem, rings, words, depth, conflicts, book)
}

/// Why no table is made with one slot for each two rings and class, and the last number of the book that comes back.
pub fn refusal(
    alloc: Global,
    problem: &Problem,
    rings: u32,
    words: u64,
) -> Result<(HoleStop, u64), Fail> {
    let start = problem.start.as_slice();
    let units = problem.listed.as_slice();
    let book = new_book(alloc, &problem.formula)?;
    match try_over(
        alloc,
        &problem.formula,
        start,
        units,
        rings,
        words,
        1,
        0,
        book,
    )? {
        Ok(_) => Err(Fail::from("a table was made")),
        Err(stop) => Ok((stop.why, stop.book.last)),
    }
}
