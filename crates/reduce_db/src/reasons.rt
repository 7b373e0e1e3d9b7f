// The clauses that are reasons, by their addresses.
ghost use Rattle.std.specs.Prelude.{◌≡◌, ◌==◌, IfOk};
ghost use Rattle.std.specs.List.{list_any};
ghost use Rattle.std.specs.List.Sorted.{IsNonDecreasing};
ghost use Rattle.reduce_db.specs.Ranking.{AreReasons};

use ring_trail::Trail;
use std::alloc::{AllocError, Global};

/// The addresses of all reasons on the trail, in order.
pub(crate) fn reasons_of(alloc: Global, trail: &Trail) -> Result<Vec<u64>, AllocError>
    ensures { IfOk result (λ reasons. AreReasons trail.now.steps reasons.items) }
{
    let mut reasons = Vec::new(alloc);
    for place in 0..trail.len() {
        match trail.reason_at(place) {
            Some(reason) => reasons.push(reason.address)?,
            None => {}
        }
    }
    reasons.sort_unstable();
    Ok(reasons)
}

/// Whether an address is among these, which are in order.
pub(crate) fn has_reason(reasons: &[u64], address: u64) -> bool
    requires { IsNonDecreasing reasons.now }
    ensures { result ≡ list_any (λ x. x == address) reasons.now }
{
    reasons.binary_search(&address).is_ok()
}
