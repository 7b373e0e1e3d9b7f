// Cells of the clauses that the ring adds.
ghost use Rattle.std.specs.Prelude.{◌≡◌, ◌<◌, ◌^◌, length};
ghost use Rattle.clause_cell.specs.Packing.{words_for, cell_word};
ghost use Rattle.share_rule.specs.Passes.{IsPassOf, IsSamePass};
ghost use Rattle.share_rule.specs.Views.{IsBuilding, IsBuilt, making_of, glue_in, only};
ghost use Rattle.ring_pass.specs.Cells.{Stored};

use clause_cell::{head_word, lit_word, words_for};
use ref_count::store_word;
use sat_words::{Cref, Lit};
use share_rule::{Ledger, Pass, Shared};

/// Word `i`, from 1 on, of the cell of a clause.
fn word_of(number: u64, glue: u32, lits: &[Lit], i: u64) -> u64
    requires low { 0 < i }
    requires place { i < words_for (length lits.now) }
    requires few { length lits.now < 2 ^ 32 }
    ensures { result ≡ cell_word number glue lits.now i }
{
    if i == 1 {
        return number;
    }
    if i == 2 {
        return head_word(lits.len() as u32, glue);
    }
    lit_word(lits, (i - 3) as usize)
}

/// Stores all words of a cell that the ring builds, except for its count.
pub(crate) fn store_cell<B: Ledger>(
    table: &Shared<B>,
    pass: &mut Pass<B>,
    cell: Cref,
    number: u64,
    glue: u32,
    lits: &[Lit],
)
    requires pass { IsPassOf table.now pass.old }
    requires building { IsBuilding cell.address pass.old.me.0 }
    requires clause { ((making_of cell.address pass.old.me.0).number ≡ number) × ((making_of cell.address pass.old.me.0).lits ≡ lits.now) }
    requires glue { glue_in number (only pass.old.me.0).glues ≡ glue }
    requires few { length lits.now < 2 ^ 32 }
    ensures pass { IsPassOf table.now pass.new × IsSamePass pass.old pass.new }
    ensures stored { Stored pass.old.me.0 pass.new.me.0 }
    ensures built { IsBuilt cell.address pass.new.me.0 }
{
    for i in 1..words_for(lits.len() as u32) {
        let word = word_of(number, glue, lits, i);
        store_word(table, pass, cell, i, word);
    }
}
