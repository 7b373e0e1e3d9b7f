// The active variables in the order in which they were bumped: the one bumped last of those without a value is decided
// (variable move to front, as in Siege, and with stamps as in CaDiCaL: Biere and Fröhlich 2015). It follows the latest
// conflicts closely, and costs a few steps for each bump. No answer rests on the links: what they lead to is tested.
ghost use Rattle.std.specs.Prelude.{◌≡◌, ◌≢◌, ◌≤◌, ◌<◌, ◌+◌, ◌^◌, ℕ, length, slice_index, slice_set, IfOk, IfSome, None};
ghost use Rattle.ring_trail.specs.TrailData.{value_of};
ghost use Rattle.ring_decide.specs.Tables.{AreOfMarked, AreUpTo, IsMarked};

use ring_trail::Trail;
use std::alloc::{AllocError, Global};
use std::marker::Model;

/// A queue of the active variables, the one bumped last at its end.
///
/// `before` and `after` link the variables of the queue, and 0 is none; `search` is where the look for a variable without a
/// value begins: none after it is without one, as long as each variable that loses its value is freed.
/// `stamps` says when a variable was bumped last: greater is later.
#[derive(Drop)]
pub(crate) struct Queue {
    before: Vec<u32>,
    after: Vec<u32>,
    stamps: Vec<u64>,
    last: u32,
    search: u32,
    clock: u64,
}

impl Model for Queue {
    ghost use Rattle.ring_decide.specs.QueueData.{QueueData};

    ghost Value = { QueueData };

    ghost use Rattle.ring_decide.specs.QueueInside.{vars_of, IsQueue};

    ghost view = { λ q. record { vars = vars_of q; last = q.last; stamps = q.stamps.items } };

    ghost invariant = { IsQueue };
}

impl Queue {
    /// The variables that are marked, variable 1 first.
    pub fn new(alloc: Global, active: &[bool]) -> Result<Queue, AllocError>
        requires { length active.now ≤ 2 ^ 30 }
        ensures vars { IfOk result (λ q. q.vars ≡ length active.now) }
        ensures stamped { IfOk result (λ q. AreOfMarked active.now q.stamps) }
    {
        let mut queue = Queue {
            before: zeros(alloc, active.len() + 1)?,
            after: zeros(alloc, active.len() + 1)?,
            stamps: no_stamps(alloc, active.len() + 1)?,
            last: 0,
            search: 0,
            clock: 0,
        };
        for i in 0..active.len() {
            if active[i] {
                queue.bump(i as u32 + 1);
            }
        }
        queue.search = queue.last;
        Ok(queue)
    }

    /// The active variable without a value that was bumped last. The next look begins at it.
    pub fn next(&mut self, trail: &Trail, active: &[bool]) -> Option<u32>
        requires vars { trail.now.vars ≡ self.old.vars }
        requires marks { length active.now ≡ self.old.vars }
        ensures active { IfSome result (IsMarked active.now) }
        ensures free { IfSome result (λ v. value_of trail.now.steps v ≡ None) }
        ensures same { self.new ≡ self.old }
    {
        let var = self.found(trail, active)?;
        self.search = var;
        Some(var)
    }

    /// The first active variable without a value from `search` on towards the front of the queue.
    fn found(&self, trail: &Trail, active: &[bool]) -> Option<u32>
        requires vars { trail.now.vars ≡ self.now.vars }
        requires marks { length active.now ≡ self.now.vars }
        ensures active { IfSome result (IsMarked active.now) }
        ensures free { IfSome result (λ v. value_of trail.now.steps v ≡ None) }
    {
        let mut at = self.search;
        for _step in 0..active.len() {
            if at == 0 {
                return None;
            }
            if trail.value(at).is_none() && active[at as usize - 1] {
                return Some(at);
            }
            at = linked(&self.before, at);
        }
        None
    }

    /// The variable goes to the end of the queue.
    pub fn bump(&mut self, var: u32)
        requires low { 1 ≤ var }
        requires high { var ≤ self.old.vars }
        ensures vars { self.new.vars ≡ self.old.vars }
        ensures last { self.new.last ≡ var }
        ensures latest { AreUpTo (slice_index self.new.stamps var) self.new.stamps }
        ensures others { (v : ℕ) → v ≢ var → slice_index self.new.stamps v ≡ slice_index self.old.stamps v }
    {
        if self.last == var {
            return;
        }
        let before = linked(&self.before, var);
        let after = linked(&self.after, var);
        self.search = moved_off(self.search, var, before);
        link(&mut self.after, before, after);
        link(&mut self.before, after, before);
        link(&mut self.before, var, self.last);
        link(&mut self.after, var, 0);
        link(&mut self.after, self.last, var);
        self.last = var;
        self.clock = self.clock.saturating_add(1);
        self.stamps[var as usize] = self.clock;
    }

    /// When the variable was bumped last: the greater, the later.
    pub fn stamp(&self, var: u32) -> u64
        requires { var ≤ self.now.vars }
        ensures { result ≡ slice_index self.now.stamps var }
    {
        self.stamps[var as usize]
    }

    /// The variable loses its value: it is looked at again.
    pub fn free(&mut self, var: u32)
        requires { var ≤ self.old.vars }
        ensures { self.new ≡ self.old }
    {
        if self.stamps[var as usize] > self.stamps[self.search as usize] {
            self.search = var;
        }
    }
}

/// The variable that a link leads to.
fn linked(links: &Vec<u32>, at: u32) -> u32
    requires { at < length links.now.items }
    ensures { (n : ℕ) → AreUpTo n links.now.items → result ≤ n }
{
    links[at as usize]
}

/// Makes a link lead to this variable.
fn link(links: &mut Vec<u32>, at: u32, to: u32)
    requires { at < length links.old.items }
    ensures len { length links.new.items ≡ length links.old.items }
    ensures vars { (n : ℕ) → AreUpTo n links.old.items → to ≤ n → AreUpTo n links.new.items }
    ensures set { links.new.items ≡ slice_set links.old.items at to }
{
    links[at as usize] = to;
}

/// Where the look begins once the variable leaves its place: at the one before it, if it began there.
fn moved_off(search: u32, var: u32, before: u32) -> u32
    ensures { (n : ℕ) → search ≤ n → before ≤ n → result ≤ n }
{
    if search == var && before != 0 {
        before
    } else {
        search
    }
}

/// Links that lead nowhere.
fn zeros(alloc: Global, count: usize) -> Result<Vec<u32>, AllocError>
    ensures len { IfOk result (λ v. length v.items ≡ count) }
    ensures vars { IfOk result (λ v. AreUpTo 0 v.items) }
{
    let mut links = Vec::new(alloc);
    links.resize(count, 0)?;
    Ok(links)
}

/// Stamps of variables that were never bumped.
fn no_stamps(alloc: Global, count: usize) -> Result<Vec<u64>, AllocError>
    ensures len { IfOk result (λ v. length v.items ≡ count) }
    ensures zero { IfOk result (λ v. AreUpTo 0 v.items) }
{
    let mut stamps = Vec::new(alloc);
    stamps.resize(count, 0)?;
    Ok(stamps)
}
