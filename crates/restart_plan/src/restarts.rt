// When a ring restarts. Rings of odd number do so by Luby's sequence, each step of it 64 lemmas long; the others if the
// mean glue of the last 50 lemmas since the last restart is greater than 10/8 of the mean of all (the fast and the slow
// average of Glucose: Audemard and Simon 2012). Means are compared as products of whole numbers, in 128 bits.
ghost use Rattle.std.specs.Prelude.{◌≡◌, ◌≤◌, ◌<◌, ◌^◌, ◌%◌, ◌-◌, ◌*◌, ◌==◌, IfOk, length, slice_index};
ghost use Rattle.std.specs.List.{sum};
ghost use Rattle.restart_plan.specs.Plan.{Restarting, IsRestarting, begun, noted, asked, is_due};

use crate::sequence::luby;
use circular_buffer::HeapCircularBuffer;
use std::alloc::{AllocError, Global};
use std::marker::Model;

/// How many of the last glues are compared with all.
const WINDOW: usize = 50;
/// How many lemmas one step of Luby's sequence is.
const UNIT: u64 = 64;

/// What a ring counts to know when to restart: of odd number, the lemmas since the last restart; of even number, the glues
/// of the last 50 lemmas since then, and of all.
#[derive(Drop)]
pub struct Restarts {
    odd: bool,
    made: u64,
    since: u64,
    window: HeapCircularBuffer<u32>,
    sum: u128,
    count: u64,
}

impl Model for Restarts {
    ghost use Rattle.restart_plan.specs.Plan.{Restarting, IsRestarting};

    ghost Value = { Restarting };

    ghost use Rattle.std.specs.Prelude.{◌≡◌};

    ghost view = { λ r. record { odd = r.odd; made = r.made; since = r.since; window = r.window.items; sum = r.sum; count = r.count } };

    ghost invariant = { λ r. (r.window.capacity ≡ 50) × IsRestarting (record { odd = r.odd; made = r.made; since = r.since; window = r.window.items; sum = r.sum; count = r.count }) };
}

impl Restarts {
    /// Nothing has come yet. Rings of odd number restart by Luby's sequence, the others by the glues.
    pub fn new(alloc: Global, ring: u32) -> Result<Restarts, AllocError>
        ensures { IfOk result (λ r. r ≡ begun (ring % 2 == 1)) }
    {
        Ok(Restarts {
            odd: ring % 2 == 1,
            made: 0,
            since: 0,
            window: HeapCircularBuffer::with_capacity(alloc, WINDOW)?,
            sum: 0,
            count: 0,
        })
    }

    /// A lemma of this glue came. It takes no memory.
    pub fn note(&mut self, glue: u32)
        requires { self.old.count < 2 ^ 64 - 1 }
        ensures { self.new ≡ noted self.old glue }
    {
        let _oldest = self.window.push_back(glue);
        self.since += 1;
        self.sum += glue as u128;
        self.count += 1;
    }

    /// Whether a restart is due. If it is, it counts as made: nothing has come since then. It takes no memory.
    pub fn due(&mut self) -> bool
        ensures due { result ≡ is_due self.old }
        ensures asked { self.new ≡ asked self.old }
        ensures count { self.new.count ≡ self.old.count }
    {
        let due = self.is_due();
        if due {
            self.made += 1;
            self.since = 0;
            self.window.clear();
        }
        due
    }

    /// The restarts made.
    pub fn made(&self) -> u64
        ensures made { result ≡ self.now.made }
        ensures counted { IsRestarting self.now }
    {
        self.made
    }

    /// Whether a restart is due, with nothing changed.
    fn is_due(&self) -> bool
        ensures { result ≡ is_due self.now }
    {
        if self.odd {
            return UNIT as u128 * luby(self.made + 1) as u128 <= self.since as u128;
        }
        if !self.window.is_full() {
            return false;
        }
        let recent = sum_of(&self.window) as u128;
        10 * WINDOW as u128 * self.sum < 8 * recent * self.count as u128
    }
}

/// The sum of the numbers of a window.
fn sum_of(window: &HeapCircularBuffer<u32>) -> u64
    requires { length window.now.items ≤ 50 }
    ensures sum { result ≡ sum window.now.items }
    ensures small { result ≤ 50 * 2 ^ 32 }
{
    let mut total: u64 = 0;
    for i in 0..window.len() {
        total += glue_at(window, i) as u64;
    }
    total
}

/// The number at this place of a window.
fn glue_at(window: &HeapCircularBuffer<u32>, i: usize) -> u32
    requires { i < length window.now.items }
    ensures { result ≡ slice_index window.now.items i }
{
    match window.get(i) {
        Some(glue) => *glue,
        None => 0,
    }
}
