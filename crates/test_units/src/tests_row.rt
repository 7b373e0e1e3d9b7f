// The row of `unit_share`: two rings that hand over to each other, step by step.
ghost use Rattle.std.specs.Prelude.{◌≡◌};
ghost use Rattle.test_tables.specs.Samples.{IsRing as IsAlone};
ghost use Rattle.test_units.specs.Samples.{IsBeginner};

use crate::learners::{draw_ticket, give_up_and_bury, learn_pair, learn_unit, list_first};
use io_edge::Sink;
use log_book::Book;
use sat_words::Lit;
use share_rule::Shared;
use std::alloc::Global;
use std::sync::Wait;
use std::sync::atomic::{AtomicU64, Ordering};
use std::thread::{Threads, join};
use test_tables::Ring;
use unit_share::next_unit;

/// Waits until the hand is at this step. It is past all steps if the other ring gave the row up.
fn wait_for<H: Wait>(rt: &H, hand: &AtomicU64, step: u64) -> bool {
    for _ in rt.forever() {
        let now = hand.load(Ordering::SeqCst);
        if now >= step {
            return now == step;
        }
    }
    // a loop over `forever` has no end
    unreachable!()
}

/// Learns a clause, gives its copy up and deletes it, and in the end reads two listed units. Tells how many steps were done,
/// and what was read.
#[tactic(auto, using(crate::proofs::Playing::holds_pair))]
fn play_zero<H: Wait, S: Sink>(
    rt: &H,
    alloc: Global,
    table: &Shared<Book<S>>,
    ring: &mut Ring<Book<S>>,
    hand: &AtomicU64,
) -> (u32, Option<(Lit, u64)>, Option<(Lit, u64)>)
    requires { IsBeginner table.now ring.old.pass ring.old.ring }
    ensures ring { IsAlone table.now ring.new.pass ring.new.ring }
    ensures same { ring.new.ring ≡ ring.old.ring }
{
    let Some(cell) = learn_pair(rt, alloc, table, ring) else {
        return (0, None, None);
    };
    hand.store(1, Ordering::SeqCst);
    if !wait_for(rt, hand, 2) {
        return (1, None, None);
    }
    if !give_up_and_bury(rt, alloc, table, ring, cell) {
        return (2, None, None);
    }
    hand.store(3, Ordering::SeqCst);
    if !wait_for(rt, hand, 4) {
        return (3, None, None);
    }
    let Some(unit) = next_unit(table, &mut ring.pass, 0) else {
        return (4, None, None);
    };
    let none = next_unit(table, &mut ring.pass, 1);
    (4, Some(unit), none)
}

/// Learns the same clause, later the unit 2, and lists it in its next turn. Tells how many steps were done.
#[tactic(auto, using(crate::proofs::Playing::holder_draws, crate::proofs::Playing::holder_drew, crate::proofs::Playing::may_learn_unit, crate::proofs::Playing::holds_pair, crate::proofs::Playing::unit_told, crate::proofs::Playing::two_on))]
fn play_one<H: Wait, S: Sink>(
    rt: &H,
    alloc: Global,
    table: &Shared<Book<S>>,
    ring: &mut Ring<Book<S>>,
    hand: &AtomicU64,
) -> u32
    requires { IsBeginner table.now ring.old.pass ring.old.ring }
    ensures ring { IsAlone table.now ring.new.pass ring.new.ring }
    ensures same { ring.new.ring ≡ ring.old.ring }
{
    let two = Lit::new(2, false);
    if !wait_for(rt, hand, 1) {
        return 0;
    }
    let Some(_) = learn_pair(rt, alloc, table, ring) else {
        return 1;
    };
    hand.store(2, Ordering::SeqCst);
    if !wait_for(rt, hand, 3) {
        return 2;
    }
    if !draw_ticket(table, ring) {
        return 3;
    }
    let Some(number) = learn_unit(rt, alloc, table, ring, two) else {
        return 3;
    };
    if !list_first(rt, alloc, table, ring, two, number) {
        return 4;
    }
    5
}

/// A ring that took part in the row, how many of its steps were done, and what it read of the listed units.
pub(crate) type Played<S> = (Ring<Book<S>>, u32, Option<(Lit, u64)>, Option<(Lit, u64)>);

fn run_zero<H: Wait, S: Sink>(
    rt: &H,
    alloc: Global,
    table: &Shared<Book<S>>,
    ring: Ring<Book<S>>,
    hand: &AtomicU64,
) -> Played<S>
    requires { IsBeginner table.now ring.pass ring.ring }
    ensures ring { IsAlone table.now result.0.pass ring.ring × (result.0.ring ≡ ring.ring) }
{
    let mut ring = ring;
    let (steps, unit, none) = play_zero(rt, alloc, table, &mut ring, hand);
    if steps < 4 {
        hand.store(9, Ordering::SeqCst);
    }
    (ring, steps, unit, none)
}

fn run_one<H: Wait, S: Sink>(
    rt: &H,
    alloc: Global,
    table: &Shared<Book<S>>,
    ring: Ring<Book<S>>,
    hand: &AtomicU64,
) -> Played<S>
    requires { IsBeginner table.now ring.pass ring.ring }
    ensures ring { IsAlone table.now result.0.pass ring.ring × (result.0.ring ≡ ring.ring) }
{
    let mut ring = ring;
    let steps = play_one(rt, alloc, table, &mut ring, hand);
    hand.store(if steps < 5 { 9 } else { 4 }, Ordering::SeqCst);
    (ring, steps, None, None)
}

/// Both rings of the row, each in a thread of its own if threads can be made. They hand over to each other.
pub(crate) fn play<S: Sink + Send, R: Threads + Wait + Sync>(
    rt: &R,
    alloc: Global,
    table: &Shared<Book<S>>,
    zero: Ring<Book<S>>,
    one: Ring<Book<S>>,
) -> (Played<S>, Played<S>)
    requires zero { IsBeginner table.now zero.pass zero.ring }
    requires one { IsBeginner table.now one.pass one.ring }
    ensures zero { IsAlone table.now result.0.0.pass zero.ring × (result.0.0.ring ≡ zero.ring) }
    ensures one { IsAlone table.now result.1.0.pass one.ring × (result.1.0.ring ≡ one.ring) }
{
    let hand = AtomicU64::new(0);
    join(
        rt,
        || run_zero(rt, alloc, table, zero, &hand),
        || run_one(rt, alloc, table, one, &hand),
    )
}
