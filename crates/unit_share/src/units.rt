// The listed units.
ghost use Rattle.std.specs.Prelude.{◌≡◌, ℕ, ◌<◌, List, ◌∷◌, ◌++◌, [], length, MatchOption};
ghost use Rattle.sat_words.specs.Literal.{Literal, code_of};
ghost use Rattle.share_rule.specs.Passes.{IsPassOf, IsSamePass};
ghost use Rattle.share_rule.specs.Layout.{number_at};
ghost use Rattle.share_rule.specs.Steps.{after_load};
ghost use Rattle.share_rule.specs.Views.{only};
ghost use Rattle.share_rule.specs.Units.{MayPublish, after_unit, after_number, after_list, after_count, after_see};

use sat_words::Lit;
use share_rule::{
    CountsUnits, Ledger, ListsUnit, LoadsNumber, Pass, SeesUnit, Shared, StoresNumber, StoresUnit,
    Unit,
};
use std::marker::Brand;

/// The next listed unit that the pass's ring has not seen, with its number; it has seen this many. None exactly if the word that
/// counts the listed units is this number; then it has seen the units that were listed from the start, which come first.
pub fn next_unit<B: Ledger>(table: &Shared<B>, pass: &mut Pass<B>, seen: u64) -> Option<(Lit, u64)>
    requires pass { IsPassOf table.now pass.old }
    requires ring { (pass.old.me.0.parts ≡ only pass.old.me.0 ∷ []) × (seen ≡ length (only pass.old.me.0).core.seen) }
    ensures pass { IsPassOf table.now pass.new × IsSamePass pass.old pass.new }
    ensures unit { MatchOption result ((pass.new.me.0 ≡ after_count seen pass.old.me.0) × ((later : List Literal) × ((only pass.old.me.0).core.seen ≡ pass.old.me.0.opening.units ++ later))) (λ u. (n : ℕ) × (seen < n) × (pass.new.me.0 ≡ after_load (number_at pass.old.me.0.layout seen) u.1 (after_see u.0 u.1 (after_count n pass.old.me.0)))) }
{
    let words = &table.table.shared;
    let listed = words.load::<CountsUnits>(pass, 2);
    if listed == seen {
        return None;
    }
    let word = table.layout.unit(seen);
    let code = words.load::<SeesUnit>(pass, word);
    let number = words.load::<LoadsNumber>(pass, table.layout.number(seen));
    Some((Lit::new((code / 2) as u32, code % 2 == 1), number))
}

fn publish_as<U: Unit, B: Ledger>(
    table: &Shared<B>,
    pass: &mut Pass<B>,
    lit: Lit,
    number: u64,
    seen: u64,
)
    requires pass { IsPassOf table.now pass.old }
    requires unit { (U.lit ≡ lit) × (U.number ≡ number) × MayPublish lit number pass.old.me.0 × (seen ≡ length (only pass.old.me.0).core.seen) }
    ensures pass { IsPassOf table.now pass.new × IsSamePass pass.old pass.new }
    ensures part { pass.new.me.0 ≡ after_list lit number (after_number number (after_unit (code_of lit) pass.old.me.0)) }
{
    let words = &table.table.shared;
    let word = table.layout.unit(seen);
    words.store::<StoresUnit>(pass, word, lit.code() as u64);
    words.store::<StoresNumber>(pass, table.layout.number(seen), number);
    words.store::<ListsUnit<U>>(pass, 2, seen + 1);
}

/// Lists a unit with its number. The ring has the turn and has seen all listed units, and this one is none of them; a clause
/// that is this unit had the number before the turn was taken.
pub fn publish<B: Ledger>(table: &Shared<B>, pass: &mut Pass<B>, lit: Lit, number: u64, seen: u64)
    requires pass { IsPassOf table.now pass.old }
    requires unit { MayPublish lit number pass.old.me.0 × (seen ≡ length (only pass.old.me.0).core.seen) }
    ensures pass { IsPassOf table.now pass.new × IsSamePass pass.old pass.new }
    ensures part { pass.new.me.0 ≡ after_list lit number (after_number number (after_unit (code_of lit) pass.old.me.0)) }
{
    publish_as::<Brand, B>(table, pass, lit, number, seen);
}
