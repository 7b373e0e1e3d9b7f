// When a ring reduces its lemmas.
ghost use Rattle.std.specs.Prelude.{◌≤◌, ◌↔◌, IsTrue};
ghost use Rattle.reduce_db.specs.Moment.{lemmas_before};

/// How many lemmas come before the first reduction.
const FIRST: u128 = 2000;
/// How many more come before each further one than before the last.
const MORE: u128 = 300;

/// Whether the `i`-th reduction, from 1, is due if this many lemmas were learned since the last one, or since the ring
/// began.
pub fn due(learned_since: u64, i: u64) -> bool
    requires { 1 ≤ i }
    ensures { IsTrue result ↔ (lemmas_before i ≤ learned_since) }
{
    FIRST + MORE * (i as u128 - 1) <= learned_since as u128
}
