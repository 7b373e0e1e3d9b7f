// The rings taken apart, once they have run.
ghost use Rattle.std.specs.Prelude.{◌≡◌, ◌≤◌, ◌<◌, ℕ, [], length, map, slice_index_or, IsSome, vec_capacity};
ghost use Rattle.share_rule.specs.Passes.{IsPassOf};
ghost use Rattle.ring_port.specs.PortState.{PortState};
ghost use Rattle.ring_pass.specs.RingState.{home_of};
ghost use Rattle.portfolio_run.specs.Jobs.{HasRun};
ghost use Rattle.portfolio_run.specs.Ports.{begun_at, job_at};
ghost use Rattle.portfolio_run.specs.Reached.{HaveRun as AllHaveRun};
ghost use Rattle.portfolio_run.specs.Runs.{Shows, AreRun};
ghost use Rattle.portfolio_run.specs.Seats.{IsAtRest};

use crate::jobs::RingJob;
use crate::plan::Plan;
use crate::seats::gather;
use io_edge::Sink;
use log_book::Book;
use ring_pass::RingPass;
use ring_port::Gate;
use ring_run::{Counts, End};
use share_rule::{Pass, Shared};

/// The ring's pass, and its end with what it counted.
fn open_ring<S: Sink, G: Gate, H>(
    table: &Shared<Book<S>>,
    first: &Pass<Book<S>>,
    ring: RingJob<RingPass<'_, S, G, H>>,
) -> (Pass<Book<S>>, (End, Counts))
    requires first { IsPassOf table.now first.now }
    requires home { ring.port.home ≡ home_of first.now }
    requires ended { IsSome ring.end }
    ensures { Shows table.now ring.entry.port ring.entry.end result.0 result.1 }
{
    let RingJob { port, end, .. } = ring;
    (port.into_pass(table, first), end.unwrap())
}

/// Takes all rings apart: their passes, and their ends with what they counted, both in order. All that is known of a port is
/// then known of what its pass has of the ring. `first` is another pass of the table, and names it.
fn split_rings<S: Sink, G: Gate, H>(
    table: &Shared<Book<S>>,
    first: &Pass<Book<S>>,
    _plan: &Plan,
    rings: Vec<RingJob<RingPass<'_, S, G, H>>>,
    passes: &mut Vec<Pass<Book<S>>>,
    ends: &mut Vec<(End, Counts)>,
)
    requires first { IsPassOf table.now first.now }
    requires run { (i : ℕ) (d : RingJob PortState) → i < length rings.items → HasRun (begun_at first.now.me.0 (home_of first.now) i) (job_at first.now.me.0 _plan.now i) (slice_index_or rings.items i d).port (slice_index_or rings.items i d).end }
    requires none { (passes.old.items ≡ []) × (ends.old.items ≡ []) }
    requires room { (length rings.items ≤ vec_capacity passes.old) × (length rings.items ≤ vec_capacity ends.old) }
    ensures many { (length passes.new.items ≡ length rings.entry.items) × (length ends.new.items ≡ length rings.entry.items) }
    ensures run { AreRun table.now first.now.me.0 (home_of first.now) _plan.now passes.new.items ends.new.items }
{
    for ring in rings {
        let (pass, end) = open_ring(table, first, ring);
        passes.push_reserved(pass);
        ends.push_reserved(end);
    }
}

/// Takes all rings in, once they have run: their passes into the first one, and their ends with what they counted in order.
/// `back` has room for the passes.
pub(crate) fn join_rings<S: Sink, G: Gate, H>(
    table: &Shared<Book<S>>,
    first: &mut Pass<Book<S>>,
    plan: &Plan,
    rings: Vec<RingJob<RingPass<'_, S, G, H>>>,
    back: Vec<Pass<Book<S>>>,
    ends: &mut Vec<(End, Counts)>,
)
    requires first { IsAtRest table.now first.old × (first.old.me.0.parts ≡ []) }
    requires many { length rings.items ≡ first.old.me.0.opening.rings }
    requires run { (i : ℕ) (d : RingJob PortState) → i < length rings.items → HasRun (begun_at first.old.me.0 (home_of first.old) i) (job_at first.old.me.0 plan.now i) (slice_index_or rings.items i d).port (slice_index_or rings.items i d).end }
    requires none { (back.items ≡ []) × (ends.old.items ≡ []) }
    requires room { (length rings.items ≤ vec_capacity back) × (length rings.items ≤ vec_capacity ends.old) }
    ensures { AllHaveRun table.now first.old.me.0 (home_of first.old) plan.now first.new ends.new.items }
{
    let mut back = back;
    split_rings(table, first, plan, rings, &mut back, ends);
    gather(table, first, back);
}

/// Notes what each ring counted.
pub(crate) fn note_counts(ends: &[(End, Counts)], tally: &mut Vec<Counts>)
    requires { length tally.old.items ≡ length ends.now }
    ensures { tally.new.items ≡ map (λ e. e.1) ends.now }
{
    for ring in 0..ends.len() {
        tally[ring] = ends[ring].1;
    }
}
