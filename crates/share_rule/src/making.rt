//! How a table begins.
ghost use Rattle.std.specs.Prelude.{◌≡◌, [], false, List, IfOk, IfErr};
ghost use Rattle.sat_words.specs.Formats.{has_hints};
ghost use Rattle.rup_model.specs.declared.journal.Entry.{Entry};
ghost use Rattle.share_rule.specs.Layout.{first_cell};
ghost use Rattle.share_rule.specs.Books.{HasLog, StandsFor};
ghost use Rattle.share_rule.specs.Views.{first_view, closed_view};
ghost use Rattle.share_rule.specs.FirstWords.{starts_at, addresses, begun_with, MayBegin, IsMakeStop};
ghost use Rattle.share_rule.specs.Openings.{Opens};
ghost use Rattle.share_rule.specs.Passes.{IsPassOf};

use crate::first_words::lay_out;
use crate::plays::{Begins, Begun, OpenedWith};
use crate::rule::Key;
use crate::{Layout, Ledger, Pass, Shared};
use atomic_table::Table;
use clause_cell::HoleStop;
use sat_words::{Clause, Cref, Formula, Lit};
use std::alloc::Global;
use std::marker::Brand;

/// No table was made. The book comes back as it was.
#[derive(Debug, Drop)]
pub struct MakeStop<B> {
    /// A start clause finds no hole, or there is no memory.
    pub why: HoleStop,
    /// The book.
    pub book: B,
}

/// Brings the book home, and frees the turn. What the table is opened with is told by the last three.
fn open_table<O: OpenedWith, B: Ledger>(
    table: &Shared<B>,
    pass: &mut Pass<B>,
    book: B,
    entries: u64,
    _formula: &Formula,
    _start: &[(u64, Clause)],
    _units: &[(Lit, u64)],
)
    requires pass { (pass.old.table_id ≡ table.now.table.shared.table_id) × (pass.old.me ≡ (closed_view table.now.layout, [])) }
    requires opens { Opens (StandsFor B.account B.stands) table.now.table.shared.key O.opening O.origin book entries }
    ensures { IsPassOf table.now pass.new × (pass.new.me ≡ (first_view table.now.layout O.opening O.origin, [])) }
{
    let words = &table.table.shared;
    words.load::<Begins>(pass, 0);
    match words.exchange(pass, 0, Some(book)) {
        None => {}
        // `pass`: no book is in the slot of a table whose turn was never free
        Some(_) => unreachable!(),
    }
    words.store::<Begun<O>>(pass, 0, 256 * entries);
}

/// A table for this formula, with its first pass and the addresses of the start clauses. The start clauses, each with its
/// number in the log, come in order of number and are placed in it. Each unit comes with the number of a clause that is this
/// unit. The book has the log that the rings go on with, `journal`; it gets its holes here. What it is now stays known as its
/// origin, and the rings give hints if its lines have them.
pub fn make<B: Ledger>(
    alloc: Global,
    _formula: &Formula,
    layout: Layout,
    start: &[(u64, Clause)],
    units: &[(Lit, u64)],
    book: B,
) -> Result<(Shared<B>, Pass<B>, Vec<Cref>), MakeStop<B>>
    ghost journal: { List Entry }
    requires begins { MayBegin _formula.now.clauses layout journal start.now units.now }
    requires book { HasLog B.account B.stands book (B.origin book) layout _formula.now.clauses journal }
    requires whole { (B.account book).broken ≡ false }
    ensures made { IfOk result (λ m. (m.0.layout ≡ layout) × IsPassOf m.0 m.1 × (m.1.me ≡ (first_view layout (begun_with _formula.now.clauses layout (has_hints (B.origin book).format) journal start.now units.now) (B.origin book), []))) }
    ensures cells { IfOk result (λ m. m.2.items ≡ addresses (starts_at (first_cell layout) start.now)) }
    ensures stopped { IfErr result (λ e. IsMakeStop layout start.now e.why) }
    ensures back { IfErr result (λ e. e.book ≡ book) }
{
    let (words, holes, cells) = match lay_out(alloc, layout, start, units) {
        Ok(laid) => laid,
        Err(why) => return Err(MakeStop { why, book }),
    };
    let key = Key { layout, words };
    let Ok((words, mut pass)) = Table::vacant(alloc, key.words.as_slice(), 1, &key) else {
        return Err(MakeStop {
            why: HoleStop::Memory,
            book,
        });
    };
    let table = Shared {
        table: words,
        layout,
    };
    let entries = book.entries();
    let book = book.with_holes(holes);
    open_table::<Brand, B>(&table, &mut pass, book, entries, _formula, start, units);
    Ok((table, pass, cells))
}
