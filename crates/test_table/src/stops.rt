//! A ring that sets its stop.
ghost use Rattle.std.specs.Prelude.{◌≡◌, ◌≢◌, ◌≤◌, ◌+◌, ◌*◌, ℕ, Some};
ghost use Rattle.test_tables.specs.Samples.{IsRing};
ghost use Rattle.share_rule.specs.Exchanges.{MayFind, stop_of, after_set};
ghost use Rattle.share_rule.specs.Passes.{IsPassOf};
ghost use Rattle.stop_word.specs.Stops.{core_stop, IsSet, stop_after};

use sat_words::Stop;
use share_rule::{Ledger, Shared};
use stop_word::{Set, set};
use test_tables::Ring;

/// Sets a ring's stop of this kind.
pub fn stop_with<B: Ledger>(table: &Shared<B>, ring: &mut Ring<B>, kind: u8) -> Set
    requires ring { IsRing table.now ring.old.pass ring.old.ring }
    requires kind { (1 ≤ kind) × (kind ≤ 5) × (kind ≢ 2) }
    ensures pass { IsPassOf table.now ring.new.pass }
    ensures part { (found : ℕ) × (ring.new.pass.me.0 ≡ after_set (kind + 8 * ring.old.ring) found ring.old.pass.me.0) × MayFind ring.old.pass.me.0 (stop_of found) × IsSet found result }
    ensures seen { ring.new.pass.me.0.stop ≡ Some (core_stop (stop_after (record { kind = kind; ring = ring.old.ring }) result)) }
    ensures same { ring.new.ring ≡ ring.old.ring }
{
    let stop = Stop {
        kind,
        ring: ring.ring,
    };
    set(table, &mut ring.pass, stop)
}
