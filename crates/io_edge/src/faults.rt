// How a count of faults rises.
ghost use Rattle.std.specs.Prelude.{◌≡◌, ◌≤◌};
ghost use Rattle.io_edge.specs.Causes.{one_more};

use crate::Failed;

/// Counts a fault. A count at its type's end stands still.
pub(crate) fn count_fault(faults: &mut u64) -> Failed
    ensures count { faults.new ≡ one_more faults.old }
    ensures later { faults.old ≤ faults.new }
{
    *faults = faults.saturating_add(1);
    Failed
}
