//! Cells under construction.
ghost use Rattle.std.specs.Prelude.{◌≡◌, ◌<◌, ◌+◌, length};
ghost use Rattle.clause_cell.specs.Packing.{words_for};
ghost use Rattle.share_rule.specs.Passes.{IsPassOf, IsSamePass};
ghost use Rattle.share_rule.specs.Views.{IsBuilding, IsBuilt, making_of};
ghost use Rattle.share_rule.specs.Steps.{after_store, after_open};

use sat_words::Cref;
use share_rule::{Ledger, Opens, Pass, Shared, Stores};

/// Stores word `i`, from 1 on, of a cell that the pass's ring builds.
pub fn store_word<B: Ledger>(table: &Shared<B>, pass: &mut Pass<B>, cell: Cref, i: u64, word: u64)
    requires pass { IsPassOf table.now pass.old }
    requires building { IsBuilding cell.address pass.old.me.0 }
    requires place { (0 < i) × (i < words_for (length (making_of cell.address pass.old.me.0).lits)) }
    ensures pass { IsPassOf table.now pass.new × IsSamePass pass.old pass.new }
    ensures part { pass.new.me.0 ≡ after_store (cell.address + i) word pass.old.me.0 }
{
    table
        .table
        .shared
        .store::<Stores>(pass, (cell.address + i) as usize, word);
}

/// Opens a cell, whose words after the count are all stored: the pass's ring holds it once, with count 1.
pub fn open_cell<B: Ledger>(table: &Shared<B>, pass: &mut Pass<B>, cell: Cref)
    requires pass { IsPassOf table.now pass.old }
    requires building { IsBuilding cell.address pass.old.me.0 }
    requires built { IsBuilt cell.address pass.old.me.0 }
    ensures pass { IsPassOf table.now pass.new × IsSamePass pass.old pass.new }
    ensures part { pass.new.me.0 ≡ after_open cell.address pass.old.me.0 }
{
    table
        .table
        .shared
        .store::<Opens>(pass, cell.address as usize, 1);
}
