// What the rings counted: of each round, and of all together.
ghost use Rattle.std.specs.Prelude.{◌≡◌, ◌+◌, ◌<◌, ◌^◌, length, slice_index_or, ℕ, replicate, IfOk};
ghost use Rattle.ring_run.specs.declared.job.Counts.{Counts as CountsData};
ghost use Rattle.portfolio_run.specs.Held.{no_counts, add_tallies};
ghost use Rattle.portfolio_run.specs.Pauses.{CanAdd};

use ring_run::Counts;
use std::alloc::{AllocError, Global};

/// The counts of a ring that has not run.
const NOTHING: Counts = Counts {
    learned: 0,
    exported: 0,
    offered: 0,
    restarts: 0,
};

/// The counts of rings that have not run.
pub(crate) fn none_counted(alloc: Global, rings: u32) -> Result<Vec<Counts>, AllocError>
    ensures { IfOk result (λ tally. tally.items ≡ replicate rings no_counts) }
{
    vec![in alloc; NOTHING; rings as usize]
}

/// Adds what each ring counted in a round to what it counted before, and leaves room for the next round.
pub(crate) fn add_counts(tally: &mut Vec<Counts>, counts: &mut Vec<Counts>)
    requires many { length tally.old.items ≡ length counts.old.items }
    requires small { (ring : ℕ) (d : CountsData) → ring < length counts.old.items → CanAdd (slice_index_or counts.old.items ring d) (slice_index_or tally.old.items ring d) }
    ensures added { tally.new.items ≡ add_tallies counts.old.items tally.old.items }
    ensures none { counts.new.items ≡ replicate (length counts.old.items) no_counts }
{
    for ring in 0..counts.len() {
        let one = counts[ring];
        let sum = tally[ring];
        tally[ring] = Counts {
            learned: sum.learned + one.learned,
            exported: sum.exported + one.exported,
            offered: sum.offered + one.offered,
            restarts: sum.restarts + one.restarts,
        };
        counts[ring] = NOTHING;
    }
}
