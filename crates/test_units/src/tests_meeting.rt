// Two rings that meet at the turn in each round. Before the next round each waits for the other. So a ring that nobody wakes, or
// that sleeps beside a free turn, sleeps for ever.
ghost use Rattle.std.specs.Prelude.{◌≡◌};
ghost use Rattle.test_tables.specs.Samples.{IsRing as IsAlone};

use io_edge::Sink;
use log_book::{Book, give_turn, take_turn};
use share_rule::Shared;
use std::alloc::Global;
use std::hint::spin_loop;
use std::sync::Wait;
use std::sync::atomic::{AtomicU64, Ordering};
use std::thread::{Threads, join, yield_now};
use std::time::Clock;
use test_tables::Ring;

/// How often the rings meet, if that takes a few seconds at most.
const ROUNDS: u64 = 50_000;

/// After so many seconds, and one more at most, they meet no more.
const SECONDS: u64 = 2;

/// The number of rounds of a ring that goes through no more.
const ALL: u64 = u64::MAX;

/// The lengths for which the turn is kept, one after another: shorter than a ring tries to take it before it sleeps, just as
/// long, and longer.
const LENGTHS: u64 = 256;

/// When the rings are to end, in seconds of the clock.
fn end_of<H: Clock>(rt: &H) -> u64 {
    match rt.monotonic() {
        Ok(now) => now.as_secs().saturating_add(SECONDS),
        Err(_) => 0,
    }
}

/// Whether it is later than that.
fn is_past<H: Clock>(rt: &H, end: u64) -> bool {
    match rt.monotonic() {
        Ok(now) => now.as_secs() > end,
        Err(_) => true,
    }
}

/// Looks a few times whether a ring is through with this many rounds.
fn is_through(through: &AtomicU64, rounds: u64) -> bool {
    for _ in 0..200 {
        if through.load(Ordering::SeqCst) >= rounds {
            return true;
        }
    }
    false
}

/// Waits until a ring is through with this many rounds.
fn wait_for<H: Wait>(rt: &H, through: &AtomicU64, rounds: u64) {
    for _ in rt.forever() {
        if is_through(through, rounds) {
            return;
        }
        yield_now();
    }
    // a loop over `forever` has no end
    unreachable!()
}

/// Pauses this often, as a ring does after each try to take the turn.
fn pause(times: u64) {
    for _ in 0..times {
        spin_loop();
    }
}

/// Takes the turn, keeps it for this many pauses, and gives it back with nothing written.
fn take_and_give<H: Wait, S: Sink>(
    rt: &H,
    alloc: Global,
    table: &Shared<Book<S>>,
    ring: &mut Ring<Book<S>>,
    pauses: u64,
)
    requires { IsAlone table.now ring.old.pass ring.old.ring }
    ensures ring { IsAlone table.now ring.new.pass ring.new.ring }
    ensures same { ring.new.ring ≡ ring.old.ring }
{
    let turn = take_turn(rt, alloc, table, &mut ring.pass, ring.ring);
    pause(pauses);
    give_turn(table, &mut ring.pass, turn);
}

/// Takes the turn once in each round, after the other ring is through with the last one.
fn go_through<H: Wait + Clock, S: Sink>(
    rt: &H,
    alloc: Global,
    table: &Shared<Book<S>>,
    ring: Ring<Book<S>>,
    own: &AtomicU64,
    other: &AtomicU64,
) -> Ring<Book<S>>
    requires { IsAlone table.now ring.pass ring.ring }
    ensures ring { IsAlone table.now result.pass ring.ring }
    ensures same { result.ring ≡ ring.ring }
{
    let mut ring = ring;
    let end = end_of(rt);
    for round in 0..ROUNDS {
        if round % LENGTHS == 0 && is_past(rt, end) {
            break;
        }
        wait_for(rt, other, round);
        take_and_give(rt, alloc, table, &mut ring, round % LENGTHS);
        own.store(round + 1, Ordering::SeqCst);
    }
    own.store(ALL, Ordering::SeqCst);
    ring
}

/// Both rings, each in a thread of its own if threads can be made.
pub(crate) fn meet<S: Sink + Send, R: Threads + Wait + Clock + Sync>(
    rt: &R,
    alloc: Global,
    table: &Shared<Book<S>>,
    zero: Ring<Book<S>>,
    one: Ring<Book<S>>,
) -> (Ring<Book<S>>, Ring<Book<S>>)
    requires zero { IsAlone table.now zero.pass zero.ring }
    requires one { IsAlone table.now one.pass one.ring }
    ensures zero { IsAlone table.now result.0.pass zero.ring × (result.0.ring ≡ zero.ring) }
    ensures one { IsAlone table.now result.1.pass one.ring × (result.1.ring ≡ one.ring) }
{
    let zero_through = AtomicU64::new(0);
    let one_through = AtomicU64::new(0);
    join(
        rt,
        || go_through(rt, alloc, table, zero, &zero_through, &one_through),
        || go_through(rt, alloc, table, one, &one_through, &zero_through),
    )
}
