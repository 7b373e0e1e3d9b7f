// Rings that run beside each other.
ghost use Rattle.std.specs.Prelude.{◌≡◌, ℕ, ◌<◌, All, length, slice_index_or};
ghost use Rattle.ring_port.specs.PortState.{PortState};
ghost use Rattle.portfolio_run.specs.Jobs.{IsReady, HasRun};

use ring_port::Port;
use ring_run::{Counts, End, Job, run_ring};
use std::alloc::Global;
use std::thread;
use std::thread::Threads;

/// A ring: its port, what it is told to do, and what its run came to.
#[derive(Drop)]
pub(crate) struct RingJob<P> {
    /// What it holds and writes.
    pub(crate) port: P,
    /// What it is told to do.
    pub(crate) job: Job,
    /// How it ended and what it counted, once it has run.
    pub(crate) end: Option<(End, Counts)>,
}

/// Runs the ring.
fn run_one<P: Port>(alloc: Global, ring: &mut RingJob<P>)
    requires ready { IsReady (P.state ring.old.port) ring.old.job }
    ensures run { HasRun (P.state ring.old.port) ring.old.job (P.state ring.new.port) ring.new.end }
{
    ring.end = Some(run_ring(alloc, &mut ring.port, &ring.job));
}

/// Runs all rings at once, each in a thread of its own if threads can be made; if none can they run one after another.
pub(crate) fn run_all<P: Port + Send, H: Threads + Sync>(
    rt: &H,
    alloc: Global,
    rings: &mut [RingJob<P>],
)
    requires ready { All (λ r. IsReady (P.state r.port) r.job) rings.old }
    ensures many { length rings.new ≡ length rings.old }
    ensures run { (i : ℕ) (d : RingJob P) → i < length rings.old → HasRun (P.state (slice_index_or rings.old i d).port) (slice_index_or rings.old i d).job (P.state (slice_index_or rings.new i d).port) (slice_index_or rings.new i d).end }
{
    if rings.is_empty() {
        return;
    }
    let threads = rings.len();
    thread::for_each_mut(rt, rings, threads, &|_, ring| run_one(alloc, ring));
}
