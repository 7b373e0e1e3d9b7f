//! Reading a cell that is held.
ghost use Rattle.std.specs.Prelude.{◌≡◌, ℕ, ◌<◌, ◌+◌, ◌/◌, length};
ghost use Rattle.share_rule.specs.Passes.{IsPassOf, IsSamePass};
ghost use Rattle.share_rule.specs.Views.{IsHolding, clause_of, lit_in, glue_in, only};
ghost use Rattle.share_rule.specs.Steps.{after_load};

use clause_cell::{glue_of, half, size_of};
use sat_words::{Cref, Head, Lit};
use share_rule::{Ledger, Loads, Pass, Shared};

/// The literal at place `i`, from 0, of a cell that the pass's ring holds.
pub fn read_lit<B: Ledger>(table: &Shared<B>, pass: &mut Pass<B>, cell: Cref, i: u32) -> Lit
    requires pass { IsPassOf table.now pass.old }
    requires held { IsHolding cell.address pass.old.me.0 }
    requires place { i < length (clause_of cell.address pass.old.me.0).lits }
    ensures pass { IsPassOf table.now pass.new × IsSamePass pass.old pass.new }
    ensures part { (found : ℕ) × (pass.new.me.0 ≡ after_load (cell.address + 3 + i / 2) found pass.old.me.0) }
    ensures literal { result ≡ lit_in (clause_of cell.address pass.old.me.0).lits i }
{
    let word = table
        .table
        .shared
        .load::<Loads>(pass, cell.address as usize + 3 + (i / 2) as usize);
    let code = half(word, i);
    Lit::new(code / 2, code % 2 == 1)
}

/// What stands before the literals of a cell that the pass's ring holds.
pub fn read_head<B: Ledger>(table: &Shared<B>, pass: &mut Pass<B>, cell: Cref) -> Head
    requires pass { IsPassOf table.now pass.old }
    requires held { IsHolding cell.address pass.old.me.0 }
    ensures pass { IsPassOf table.now pass.new × IsSamePass pass.old pass.new }
    ensures part { (found other : ℕ) × (pass.new.me.0 ≡ after_load (cell.address + 2) other (after_load (cell.address + 1) found pass.old.me.0)) }
    ensures size { result.size ≡ length (clause_of cell.address pass.old.me.0).lits }
    ensures number { result.number ≡ (clause_of cell.address pass.old.me.0).number }
    ensures glue { result.glue ≡ glue_in (clause_of cell.address pass.old.me.0).number (only pass.old.me.0).glues }
{
    let words = &table.table.shared;
    let number = words.load::<Loads>(pass, cell.address as usize + 1);
    let head = words.load::<Loads>(pass, cell.address as usize + 2);
    Head {
        size: size_of(head),
        glue: glue_of(head),
        number,
    }
}
