//! The watches of the attached clauses: two literals of each (MiniSat, Eén and Sörensson 2003), and for each literal
//! the list of the watches to look at when it becomes false. Each call must leave `Watched` of specs/ between watches,
//! clauses and trail.
ghost use Rattle.std.specs.Prelude.{◌≡◌, ◌≤◌, ◌<◌, ◌+◌, ◌*◌, ◌^◌, ◌++◌, ◌∷◌, [], IfOk, OnOk, OnErr, IfSome, IfNone, IsSome, Some, Contains, length, sum, slice_index};
ghost use Rattle.ring_port.specs.PortState.{held_at, lits_at};
ghost use Rattle.ring_trail.specs.TrailData.{TrailData, HasGrown};
ghost use Rattle.watch_prop.specs.WatchData.{WatchData, Lits, attached, watchers_at, list_at};
ghost use Rattle.watch_prop.specs.Watched.{Watched, IsFresh, IsPair};
ghost use Rattle.watch_prop.specs.Detaching.{Compacted};
ghost use Rattle.watch_prop.specs.Propagation.{HasReasons, IsClosedBelow, IsQuiet, NoneWaits, IsPropagated};
ghost use Rattle.watch_prop.specs.Layout.{HaveGrown};
ghost use Rattle.watch_prop.specs.Aside.{but, only};
ghost use Rattle.watch_prop.specs.Visiting.{IsEntry, IsStale};

use crate::lists::Lists;
use crate::propagated::Propagated;
use crate::slots::Slots;
use crate::watch::{ListEntry, Watch, Watcher};
use ring_port::Port;
use ring_trail::Trail;
use sat_words::{Cref, Lit};
use std::alloc::{AllocError, Global};
use std::marker::Model;

/// How many slots there may be: each has a number of 32 bits.
const MOST_SLOTS: usize = 1 << 32;

mod detaching;
mod settling;
mod walking;

/// The attached clauses, each with two of its literals, and for each literal the watches that are to be looked at when it
/// becomes false. Variables are 1 to `vars`.
///
/// A clause that is attached waits for the next `propagate`, which chooses the literals that watch it: those not false
/// first, then those false at the highest levels.
///
/// A clause that is detached leaves its slot free. What lists still have of it drops out when it is met, and `propagate`
/// takes the free slots out once they outnumber the others and the lists.
#[derive(Drop)]
pub struct Watches {
    slots: Slots,
    lists: Lists,
    settled: usize,
    free_slots: usize,
    vars: u32,
}

impl Model for Watches {
    ghost use Rattle.std.specs.Prelude.{◌≡◌, ◌≤◌, ◌+◌, ◌*◌, ◌^◌, length};
    ghost use Rattle.std.specs.List.{filter_map};
    ghost use Rattle.watch_prop.specs.WatchData.{WatchData, clause_in};

    ghost Value = { WatchData };

    ghost view = { λ w. record { vars = w.vars; slots = w.slots; lists = w.lists.rows; rooms = w.lists.rooms; size = w.lists.size; settled = w.settled } };

    ghost invariant = { λ w. (w.vars ≤ 2 ^ 30) × (length w.lists.rows ≡ 2 * w.vars + 2) × (length (filter_map clause_in w.slots) + w.free_slots ≡ length w.slots) × (length w.slots ≤ 2 ^ 32) };
}

/// A watch of a clause by its first two literals.
fn first_watch<P: Port>(port: &mut P, c: Cref) -> Watch
    requires { IsSome (held_at (P.state port.old) c.address) }
    ensures same { P.state port.new ≡ P.state port.old }
    ensures clause { result.clause ≡ c }
    ensures pair { IsPair (lits_at (P.state port.old) c.address) result }
{
    let _vars = port.vars();
    let size = port.shape(c).size;
    let first = port.read_lit(c, 0);
    let second = port.read_lit(c, 1);
    Watch {
        clause: c,
        first,
        second,
        binary: size == 2,
    }
}

impl Watches {
    /// No clause is attached.
    pub fn new(alloc: Global, vars: u32) -> Result<Watches, AllocError>
        requires { vars ≤ 2 ^ 30 }
        ensures none { IfOk result (λ w. attached w ≡ []) }
        ensures vars { IfOk result (λ w. w.vars ≡ vars) }
        ensures watched { IfOk result (λ w. (lits : Lits) (t : TrailData) → t.vars ≡ vars → IsFresh t → Watched w lits t) }
    {
        Ok(Watches {
            slots: Slots::new(alloc),
            lists: Lists::new(alloc, 2 * vars as usize + 2)?,
            settled: 0,
            free_slots: 0,
            vars,
        })
    }

    /// Attaches a clause that is held, whatever its literals are on the trail. One that is unit or false is looked at by the
    /// next `propagate`.
    ///
    /// Of a clause of two literals the port isn't asked again. If each of the 2^32 slots is taken, or the clause's address is
    /// 2^62 or more, there is no memory.
    pub fn attach<P: Port>(
        &mut self,
        port: &mut P,
        _trail: &Trail,
        c: Cref,
    ) -> Result<(), AllocError>
        requires held { IsSome (held_at (P.state port.old) c.address) }
        requires vars { (P.state port.old).vars ≡ self.old.vars }
        ensures same { P.state port.new ≡ P.state port.old }
        ensures attached { OnOk result (attached self.new ≡ attached self.old ++ c ∷ []) }
        ensures err { OnErr result (self.new ≡ self.old) }
        ensures vars { self.new.vars ≡ self.old.vars }
        ensures watched { (t : TrailData) → Watched self.old (lits_at (P.state port.old)) t → Watched self.new (lits_at (P.state port.old)) t }
    {
        let _vars = port.vars();
        if self.slots.len() >= MOST_SLOTS {
            return Err(AllocError);
        }
        let watch = first_watch(port, c);
        self.slots.push(watch)?;
        Ok(())
    }

    /// Makes true at the present level what the attached clauses force, until nothing more is forced or one of them is
    /// false. Each literal made true has its clause as its reason. Where nothing was left to propagate, the trail stays as it
    /// is, and no clause waits afterwards.
    ///
    /// Where memory runs out the watches are as good as before: some literals may have become true already. A list that needs
    /// more room gets twice as much, and at least four.
    pub fn propagate<P: Port>(
        &mut self,
        port: &mut P,
        trail: &mut Trail,
    ) -> Result<Propagated, AllocError>
        requires watched { Watched self.old (lits_at (P.state port.old)) trail.old }
        requires below { IsClosedBelow self.old (lits_at (P.state port.old)) trail.old }
        requires reasons { HasReasons (attached self.old) (P.state port.old) trail.old.steps }
        ensures same { P.state port.new ≡ P.state port.old }
        ensures attached { attached self.new ≡ attached self.old }
        ensures vars { self.new.vars ≡ self.old.vars }
        ensures grown { HasGrown trail.old trail.new }
        ensures reasons { HasReasons (attached self.old) (P.state port.old) trail.new.steps }
        ensures watched { Watched self.new (lits_at (P.state port.old)) trail.new }
        ensures propagated { IfOk result (IsPropagated self.new (lits_at (P.state port.old)) trail.new) }
        ensures still { IsQuiet self.old (lits_at (P.state port.old)) trail.old → trail.new ≡ trail.old }
        ensures rooms { 0 < self.old.size → length self.old.slots ≤ 2 * length (attached self.old) + length self.old.lists → HaveGrown self.old.rooms self.new.rooms }
        ensures settled { IfOk result (λ _came_to. IsQuiet self.old (lits_at (P.state port.old)) trail.old → NoneWaits self.new) }
    {
        let _lawful = trail.decision_level();
        self.tidy();
        match self.watch_waiting(port, trail)? {
            Propagated::Conflict(clause) => Ok(Propagated::Conflict(clause)),
            Propagated::Quiet => Ok(self.run(port, trail, None)?),
        }
    }

    /// Propagates as `propagate` does, with this clause set aside: over the others that are attached. It stays attached, and
    /// is as well watched as before on any trail on which it was well watched; so once the trail is as it was, it is one of
    /// the clauses again. No clause may wait.
    ///
    /// It takes no slot out.
    pub fn propagate_without<P: Port>(
        &mut self,
        port: &mut P,
        trail: &mut Trail,
        c: Cref,
    ) -> Result<Propagated, AllocError>
        requires watched { Watched (but (Some c) self.old) (lits_at (P.state port.old)) trail.old }
        requires settled { NoneWaits self.old }
        requires reasons { HasReasons (attached (but (Some c) self.old)) (P.state port.old) trail.old.steps }
        ensures same { P.state port.new ≡ P.state port.old }
        ensures attached { attached self.new ≡ attached self.old }
        ensures vars { self.new.vars ≡ self.old.vars }
        ensures grown { HasGrown trail.old trail.new }
        ensures reasons { HasReasons (attached (but (Some c) self.old)) (P.state port.old) trail.new.steps }
        ensures watched { Watched (but (Some c) self.new) (lits_at (P.state port.old)) trail.new }
        ensures aside { (t : TrailData) → Watched (only c self.old) (lits_at (P.state port.old)) t → Watched (only c self.new) (lits_at (P.state port.old)) t }
        ensures settled { NoneWaits self.new }
        ensures rooms { HaveGrown self.old.rooms self.new.rooms }
        ensures propagated { IfOk result (IsPropagated (but (Some c) self.new) (lits_at (P.state port.old)) trail.new) }
    {
        self.run(port, trail, Some(c))
    }

    /// Takes the free slots out, and closes up the vector in which the lists stand. All clauses wait then, and the next
    /// `propagate` chooses the literals that watch them. It takes no memory.
    pub fn compact(&mut self)
        ensures attached { attached self.new ≡ attached self.old }
        ensures vars { self.new.vars ≡ self.old.vars }
        ensures watched { (lits : Lits) (t : TrailData) → Watched self.old lits t → Watched self.new lits t }
        ensures closed { self.new.size ≡ sum self.new.rooms }
    {
        self.take_free_out();
    }

    /// Takes the free slots out if they are many, and gives the lists room where they have none yet.
    fn tidy(&mut self)
        ensures attached { attached self.new ≡ attached self.old }
        ensures vars { self.new.vars ≡ self.old.vars }
        ensures watched { (lits : Lits) (t : TrailData) → Watched self.old lits t → Watched self.new lits t }
        ensures few { length self.new.slots ≤ 2 * length (attached self.new) + length self.new.lists }
        ensures rooms { 0 < self.old.size → length self.old.slots ≤ 2 * length (attached self.old) + length self.old.lists → self.new.rooms ≡ self.old.rooms }
    {
        self.thin_out();
        self.make_ready();
    }

    /// Gives the lists room for all clauses, if none was ever listed.
    fn make_ready(&mut self)
        ensures slots { self.new.slots ≡ self.old.slots }
        ensures vars { self.new.vars ≡ self.old.vars }
        ensures lists { length self.new.lists ≡ length self.old.lists }
        ensures rooms { 0 < self.old.size → self.new.rooms ≡ self.old.rooms }
        ensures watched { (lits : Lits) (t : TrailData) → Watched self.old lits t → Watched self.new lits t }
    {
        if self.settled == 0 && self.lists.is_empty() {
            self.lists.make_ready(&self.slots);
        }
    }

    /// Takes the free slots out if they outnumber the others and the lists. All clauses wait then.
    ///
    /// So the clauses and the lists that are gone through again are fewer than the clauses detached since the last time.
    fn thin_out(&mut self)
        ensures attached { attached self.new ≡ attached self.old }
        ensures vars { self.new.vars ≡ self.old.vars }
        ensures watched { (lits : Lits) (t : TrailData) → Watched self.old lits t → Watched self.new lits t }
        ensures few { length self.new.slots ≤ 2 * length (attached self.new) + length self.new.lists }
        ensures kept { length self.old.slots ≤ 2 * length (attached self.old) + length self.old.lists → self.new ≡ self.old }
    {
        let used = self.slots.len() - self.free_slots;
        if self.free_slots.saturating_sub(used) > self.lists.count() {
            self.take_free_out();
        }
    }

    /// Takes the free slots out and empties the lists, so that all clauses wait.
    fn take_free_out(&mut self)
        ensures { Compacted self.old self.new }
    {
        self.slots.keep_used();
        self.lists.close_up();
        self.settled = 0;
        self.free_slots = 0;
    }

    /// The watch at an index, if the literal is one of its two.
    fn entry(&self, index: u32, lit: Lit) -> Option<ListEntry>
        requires { index < length self.now.slots }
        ensures found { IfSome result (IsEntry self.now index lit) }
        ensures stale { IfNone result (IsStale self.now index lit) }
    {
        let watch = match self.slots.get(index as usize) {
            None => return None,
            Some(watch) => watch,
        };
        if watch.first == lit {
            return Some(ListEntry {
                index,
                clause: watch.clause,
                other: watch.second,
                binary: watch.binary,
            });
        }
        if watch.second == lit {
            return Some(ListEntry {
                index,
                clause: watch.clause,
                other: watch.first,
                binary: watch.binary,
            });
        }
        None
    }

    fn list_len(&self, lit: Lit) -> usize
        requires { lit.var ≤ self.now.vars }
        ensures { result ≡ length (list_at self.now.lists lit) }
    {
        self.lists.len(lit)
    }

    fn watcher_at(&self, lit: Lit, place: usize) -> Watcher
        requires in_range { lit.var ≤ self.now.vars }
        requires there { place < length (list_at self.now.lists lit) }
        ensures slot { result.slot ≡ slice_index (list_at self.now.lists lit) place }
        ensures listed { Contains (watchers_at self.now.lists lit) result }
    {
        self.lists.at(lit, place)
    }
}
