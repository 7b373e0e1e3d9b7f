//! Looking through a cell that is held for a literal that is not false, word by word. Propagation spends most of its time here.
ghost use Rattle.std.specs.Prelude.{◌≡◌, ℕ, ◌<◌, ◌≤◌, ◌+◌, ◌/◌, ◌^◌, length};
ghost use Rattle.sat_words.specs.Literal.{literal_of};
ghost use Rattle.sat_words.specs.Values.{first_open};
ghost use Rattle.clause_cell.specs.Packing.{half, lit_word};
ghost use Rattle.share_rule.specs.Passes.{IsPassOf, IsSamePass};
ghost use Rattle.share_rule.specs.Views.{IsHolding, clause_of, glue_in, only};
ghost use Rattle.share_rule.specs.Steps.{after_load};
ghost use Rattle.ref_count.specs.Scans.{OnlyLoaded};

use crate::reads::read_lit;
use clause_cell::{glue_of, half, size_of};
use sat_words::{Cref, Lit, Values};
use share_rule::{Ledger, Loads, Pass, Shared};

/// The size and the glue of a cell that the pass's ring holds, by one step.
pub fn read_shape<B: Ledger>(table: &Shared<B>, pass: &mut Pass<B>, cell: Cref) -> (u32, u32)
    requires pass { IsPassOf table.now pass.old }
    requires held { IsHolding cell.address pass.old.me.0 }
    ensures pass { IsPassOf table.now pass.new × IsSamePass pass.old pass.new }
    ensures part { (found : ℕ) × (pass.new.me.0 ≡ after_load (cell.address + 2) found pass.old.me.0) }
    ensures size { result.0 ≡ length (clause_of cell.address pass.old.me.0).lits }
    ensures glue { result.1 ≡ glue_in (clause_of cell.address pass.old.me.0).number (only pass.old.me.0).glues }
{
    let head = table
        .table
        .shared
        .load::<Loads>(pass, cell.address as usize + 2);
    (size_of(head), glue_of(head))
}

/// The word with the literals at twice the place and after it.
fn load_pair<B: Ledger>(table: &Shared<B>, pass: &mut Pass<B>, cell: Cref, place: u32) -> u64
    requires pass { IsPassOf table.now pass.old }
    requires held { IsHolding cell.address pass.old.me.0 }
    requires place { place < (length (clause_of cell.address pass.old.me.0).lits + 1) / 2 }
    ensures pass { IsPassOf table.now pass.new × IsSamePass pass.old pass.new }
    ensures part { (found : ℕ) × (pass.new.me.0 ≡ after_load (cell.address + 3 + place) found pass.old.me.0) }
    ensures word { result ≡ lit_word (clause_of cell.address pass.old.me.0).lits place }
{
    table
        .table
        .shared
        .load::<Loads>(pass, cell.address as usize + 3 + place as usize)
}

/// The literal in the half of a word for a place.
fn lit_of(word: u64, place: u32) -> Lit
    requires low { 1 ≤ half word place / 2 }
    requires high { half word place / 2 ≤ 2 ^ 30 }
    ensures { result ≡ literal_of (half word place) }
{
    let code = half(word, place);
    Lit::new(code / 2, code % 2 == 1)
}

/// The first literal of a cell that the pass's ring holds which is not false under these values and isn't the other one. Each
/// word is loaded once, and none after that literal's.
pub fn find_open<B: Ledger>(
    table: &Shared<B>,
    pass: &mut Pass<B>,
    cell: Cref,
    values: &Values,
    other: Lit,
) -> Option<Lit>
    requires pass { IsPassOf table.now pass.old }
    requires held { IsHolding cell.address pass.old.me.0 }
    ensures pass { IsPassOf table.now pass.new × IsSamePass pass.old pass.new }
    ensures loaded { OnlyLoaded pass.old.me.0 pass.new.me.0 }
    ensures first { result ≡ first_open values.now other (clause_of cell.address pass.old.me.0).lits }
{
    let size = read_shape(table, pass, cell).0;
    for place in 0..size / 2 {
        let word = load_pair(table, pass, cell, place);
        let first = lit_of(word, 2 * place);
        if values.is_open(other, first) {
            return Some(first);
        }
        let second = lit_of(word, 2 * place + 1);
        if values.is_open(other, second) {
            return Some(second);
        }
    }
    if size % 2 == 0 {
        return None;
    }
    let last = read_lit(table, pass, cell, size - 1);
    if values.is_open(other, last) {
        return Some(last);
    }
    None
}
