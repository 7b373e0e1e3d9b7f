//! Detaching clauses: their slots become free. The watchers of free slots stay in the lists, and drop out when they are met.
//! It may leave no watch of these clauses, and takes none away from another.
ghost use Rattle.std.specs.Prelude.{◌≡◌, ◌≢◌, ◌≤◌, ◌<◌, IsSome, length, slice_index, ℕ, Some, true, false, take};
ghost use Rattle.std.specs.List.Sorted.{IsNonDecreasingBy};
ghost use Rattle.sat_words.specs.Literal.{Literal};
ghost use Rattle.sat_words.specs.Clause.{has};
ghost use Rattle.ring_port.specs.PortState.{held_at, lits_at};
ghost use Rattle.ring_trail.specs.TrailData.{TrailData};
ghost use Rattle.watch_prop.specs.declared.watch.Watch.{Watch};
ghost use Rattle.watch_prop.specs.WatchData.{Lits, attached, list_at, without, is_among, without_all};
ghost use Rattle.watch_prop.specs.Watched.{At, Watched};
ghost use Rattle.watch_prop.specs.Detaching.{Freed, FreedAll, IsGoneFrom};

use crate::watches::Watches;
use ring_port::Port;
use sat_words::{Cref, Lit};

impl Watches {
    /// Detaches a clause that is held: it is watched no more, however often it was attached. One that isn't attached
    /// leaves what is attached as it was.
    ///
    /// The clause is looked for among those that wait and in the lists of its own literals. It takes no memory.
    pub fn detach<P: Port>(&mut self, port: &mut P, c: Cref)
        requires held { IsSome (held_at (P.state port.old) c.address) }
        requires vars { (P.state port.old).vars ≡ self.old.vars }
        ensures same { P.state port.new ≡ P.state port.old }
        ensures attached { (t : TrailData) → Watched self.old (lits_at (P.state port.old)) t → attached self.new ≡ without (attached self.old) c.address }
        ensures vars { self.new.vars ≡ self.old.vars }
        ensures watched { (t : TrailData) → Watched self.old (lits_at (P.state port.old)) t → Watched self.new (lits_at (P.state port.old)) t }
    {
        self.free_waiting(c);
        self.free_listed(port, c);
    }

    /// Detaches all of these clauses, which are in the order of their addresses: none of them is watched any more, however often
    /// it was attached. One that isn't attached leaves what is attached as it was.
    ///
    /// Each slot is looked at once, and neither lists nor literals. It takes no memory.
    pub fn detach_all(&mut self, gone: &[Cref])
        requires { IsNonDecreasingBy (λ (c : Cref). c.address) gone.now }
        ensures attached { attached self.new ≡ without_all (attached self.old) gone.now }
        ensures vars { self.new.vars ≡ self.old.vars }
        ensures watched { (lits : Lits) (t : TrailData) → Watched self.old lits t → Watched self.new lits t }
    {
        for index in 0..self.slots.len() {
            self.free_among(index, gone);
        }
    }

    /// Frees the slot at an index if it is of one of these clauses.
    fn free_among(&mut self, index: usize, gone: &[Cref])
        requires order { IsNonDecreasingBy (λ (c : Cref). c.address) gone.now }
        requires there { index < length self.old.slots }
        ensures freed { FreedAll self.old self.new gone.now }
        ensures gone { (s : Watch) → At self.new.slots index (Some s) → is_among gone.now s.clause.address ≡ false }
    {
        match self.slots.get(index) {
            None => {}
            Some(watch) => {
                if is_among(gone, watch.clause) {
                    self.free(index, watch.clause);
                }
            }
        }
    }

    /// Frees the slots of a clause that wait.
    fn free_waiting(&mut self, c: Cref)
        ensures freed { Freed self.old self.new c.address }
        ensures gone { (i : ℕ) (s : Watch) → self.old.settled ≤ i → At self.new.slots i (Some s) → s.clause.address ≢ c.address }
    {
        for index in self.settled..self.slots.len() {
            self.free(index, c);
        }
    }

    /// Frees the slots of a clause that are listed at one of its literals.
    fn free_listed<P: Port>(&mut self, port: &mut P, c: Cref)
        requires held { IsSome (held_at (P.state port.old) c.address) }
        requires vars { (P.state port.old).vars ≡ self.old.vars }
        ensures same { P.state port.new ≡ P.state port.old }
        ensures freed { Freed self.old self.new c.address }
        ensures gone { (l : Literal) → has (lits_at (P.state port.old) c.address) l ≡ true → IsGoneFrom self.old self.new c.address l }
    {
        let _vars = port.vars();
        let size = port.shape(c).size;
        for i in 0..size {
            let lit = port.read_lit(c, i);
            self.free_at(lit, c);
        }
    }

    /// Frees the slots of a clause that are listed at a literal.
    fn free_at(&mut self, lit: Lit, c: Cref)
        requires in_range { lit.var ≤ self.old.vars }
        ensures freed { Freed self.old self.new c.address }
        ensures gone { IsGoneFrom self.old self.new c.address lit }
    {
        let mut left = self.list_len(lit);
        while left > 0 {
            left -= 1;
            let watcher = self.watcher_at(lit, left);
            self.free(watcher.slot as usize, c);
        }
    }

    /// Frees the slot at an index if it is this clause's.
    fn free(&mut self, index: usize, c: Cref)
        ensures freed { Freed self.old self.new c.address }
        ensures lists { self.new.lists ≡ self.old.lists }
        ensures gone { (s : Watch) → At self.new.slots index (Some s) → s.clause.address ≢ c.address }
    {
        if index >= self.slots.len() {
            return;
        }
        match self.slots.get(index) {
            None => {}
            Some(watch) => {
                if watch.clause.address == c.address {
                    self.slots.free(index);
                    self.free_slots += 1;
                }
            }
        }
    }
}

/// Whether one of these clauses, which are in the order of their addresses, is at the address of this one.
fn is_among(gone: &[Cref], c: Cref) -> bool
    requires { IsNonDecreasingBy (λ (c : Cref). c.address) gone.now }
    ensures { result ≡ is_among gone.now c.address }
{
    gone.binary_search_by_key(&c.address, |other| other.address)
        .is_ok()
}
