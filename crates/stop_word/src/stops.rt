//! Setting the stop, and looking at it.
ghost use Rattle.std.specs.Prelude.{◌≡◌, ◌+◌, ◌*◌, ◌≤◌, ◌<◌, ◌≢◌, ◌^◌, ℕ, true, Some};
ghost use Rattle.std.specs.Option.{option_map};
ghost use Rattle.share_rule.specs.Passes.{IsPassOf, IsSamePass};
ghost use Rattle.share_rule.specs.Views.{only};
ghost use Rattle.share_rule.specs.Exchanges.{IsRing, MayFind, stop_of, after_look, after_set};
ghost use Rattle.stop_word.specs.Stops.{core_stop, Spells, IsSet, stop_after};

use sat_words::{Set, Stop};
use share_rule::{Ledger, LooksAtStop, Pass, SetsStop, Shared};

/// Where the stop stands in the table.
const STOP: usize = 1;

/// The stop that a word spells.
fn stop_in(word: u64) -> Stop
    requires { word < 8 * 2 ^ 32 }
    ensures { Spells word result }
{
    Stop {
        kind: (word % 8) as u8,
        ring: (word / 8) as u32,
    }
}

/// The stop that stands, if any. Who has seen one sees that one again, and who set one sees his own.
pub fn look<B: Ledger>(table: &Shared<B>, pass: &mut Pass<B>) -> Option<Stop>
    requires pass { IsPassOf table.now pass.old }
    ensures pass { IsPassOf table.now pass.new × IsSamePass pass.old pass.new }
    ensures part { (found : ℕ) × (pass.new.me.0 ≡ after_look found pass.old.me.0) × MayFind pass.old.me.0 (stop_of found) }
    ensures seen { pass.new.me.0.stop ≡ option_map core_stop result }
{
    let found = table.table.shared.load::<LooksAtStop>(pass, STOP);
    if found == 0 {
        None
    } else {
        Some(stop_in(found))
    }
}

/// Sets the ring's stop, in one try. It is lost exactly if a stop stands already, which then stays. A ring may say that
/// the formula is refuted only if it knows that the log is ended.
pub fn set<B: Ledger>(table: &Shared<B>, pass: &mut Pass<B>, stop: Stop) -> Set
    requires pass { IsPassOf table.now pass.old }
    requires ring { IsRing stop.ring pass.old.me.0 }
    requires kind { (1 ≤ stop.kind) × (stop.kind ≤ 5) }
    requires refuted { stop.kind ≡ 2 → (only pass.old.me.0).ended ≡ true }
    ensures pass { IsPassOf table.now pass.new × IsSamePass pass.old pass.new }
    ensures part { (found : ℕ) × (pass.new.me.0 ≡ after_set (stop.kind + 8 * stop.ring) found pass.old.me.0) × MayFind pass.old.me.0 (stop_of found) × IsSet found result }
    ensures seen { pass.new.me.0.stop ≡ Some (core_stop (stop_after stop result)) }
{
    let code = stop.kind as u64 + 8 * stop.ring as u64;
    let words = &table.table.shared;
    let found = words.compare_exchange::<SetsStop>(pass, STOP, 0, code);
    if found == 0 {
        Set::Won
    } else {
        Set::Lost(stop_in(found))
    }
}
