//! The lists of watchers, one for each literal at its code, in one vector, as Kissat keeps its watches (Biere and others 2020).
//! A list has a stretch of the vector with room for more; one without room moves to the end of the vector, if it gets twice
//! the room, and at least four. No change of one list may touch another, and no watcher may be left after.
ghost use Rattle.std.specs.Prelude.{◌≡◌, ◌<◌, ◌≤◌, ◌^◌, ◌*◌, ◌++◌, ◌∷◌, ◌↔◌, [], max, IfOk, OnOk, OnErr, IsTrue, Contains, length, sum, slice_index, slice_index_or, slice_set};
ghost use Rattle.sat_words.specs.Literal.{Literal, code_of};
ghost use Rattle.watch_prop.specs.WatchData.{watchers_at, list_at};
ghost use Rattle.watch_prop.specs.Lists.{Added, Removed, Reblocked};
ghost use Rattle.watch_prop.specs.Layout.{HasRoom, grown_rooms};

use crate::slots::Slots;
use crate::stretches::{Stretch, count_watches, lay_out};
use crate::watch::Watcher;
use sat_words::Lit;
use std::alloc::{AllocError, Global};
use std::marker::Model;

/// The least room of a list that has any.
const LEAST_ROOM: usize = 4;
/// A longer vector of watchers is not kept, so that a place in it takes 32 bits: there is no memory for it.
const MOST_WATCHERS: u32 = u32::MAX;

/// The watchers of all literals.
#[derive(Drop)]
pub(crate) struct Lists {
    watchers: Vec<Watcher>,
    stretches: Vec<Stretch>,
}

impl Model for Lists {
    ghost use Rattle.std.specs.Prelude.{length, map};
    ghost use Rattle.watch_prop.specs.Layout.{ListData, row_of, AreLaid};

    ghost Value = { ListData };

    ghost view = { λ x. record { rows = map (row_of x.watchers.items) x.stretches.items; rooms = map (λ s. s.room) x.stretches.items; size = length x.watchers.items } };

    ghost invariant = { λ x. AreLaid x.watchers.items x.stretches.items };
}

impl Lists {
    /// So many lists without a watcher.
    pub(crate) fn new(alloc: Global, count: usize) -> Result<Lists, AllocError>
        requires { count < 2 ^ 32 }
        ensures len { IfOk result (λ x. length x.rows ≡ count) }
        ensures empty { IfOk result (λ x. (l : Literal) → watchers_at x.rows l ≡ []) }
    {
        let nowhere = Stretch {
            start: 0,
            len: 0,
            room: 0,
        };
        let mut stretches = Vec::new(alloc);
        stretches.resize(count, nowhere)?;
        Ok(Lists {
            watchers: Vec::new(alloc),
            stretches,
        })
    }

    /// How many lists there are.
    pub(crate) fn count(&self) -> usize
        ensures { result ≡ length self.now.rows }
    {
        self.stretches.len()
    }

    /// How many watchers the list of a literal has.
    pub(crate) fn len(&self, lit: Lit) -> usize
        requires { code_of lit < length self.now.rows }
        ensures { result ≡ length (list_at self.now.rows lit) }
    {
        self.stretches[lit.code() as usize].len as usize
    }

    /// The watcher at a place in the list of a literal.
    pub(crate) fn at(&self, lit: Lit, place: usize) -> Watcher
        requires in_range { code_of lit < length self.now.rows }
        requires there { place < length (list_at self.now.rows lit) }
        ensures slot { result.slot ≡ slice_index (list_at self.now.rows lit) place }
        ensures listed { Contains (watchers_at self.now.rows lit) result }
    {
        self.watchers[self.stretches[lit.code() as usize].start as usize + place]
    }

    /// Puts a watcher at the end of the list of a literal. If memory runs out, nothing changes.
    pub(crate) fn push(&mut self, lit: Lit, watcher: Watcher) -> Result<(), AllocError>
        requires { code_of lit < length self.old.rows }
        ensures ok { OnOk result (Added self.old.rows self.new.rows lit watcher) }
        ensures rooms { OnOk result (self.new.rooms ≡ grown_rooms self.old (code_of lit)) }
        ensures err { OnErr result (self.new ≡ self.old) }
    {
        let code = lit.code() as usize;
        self.make_room(code)?;
        self.put(code, watcher);
        Ok(())
    }

    /// Takes a watcher out of the list of a literal; the last one comes to its place.
    pub(crate) fn take(&mut self, lit: Lit, place: usize)
        requires in_range { code_of lit < length self.old.rows }
        requires there { place < length (list_at self.old.rows lit) }
        ensures removed { Removed self.old.rows self.new.rows lit place }
        ensures rooms { self.new.rooms ≡ self.old.rooms }
    {
        let code = lit.code() as usize;
        let stretch = self.stretches[code];
        let start = stretch.start as usize;
        let last = self.watchers[start + stretch.len as usize - 1];
        self.watchers[start + place] = last;
        self.stretches[code] = Stretch {
            start: stretch.start,
            len: stretch.len - 1,
            room: stretch.room,
        };
    }

    /// Gives a watcher in the list of a literal another blocker.
    pub(crate) fn set_blocker(&mut self, lit: Lit, place: usize, blocker: Lit)
        requires in_range { code_of lit < length self.old.rows }
        requires there { place < length (list_at self.old.rows lit) }
        ensures reblocked { Reblocked self.old.rows self.new.rows lit place blocker }
        ensures rooms { self.new.rooms ≡ self.old.rooms }
    {
        let at = self.stretches[lit.code() as usize].start as usize + place;
        let slot = self.watchers[at].slot;
        self.watchers[at] = Watcher { slot, blocker };
    }

    /// Empties all lists and closes the vector up: the lists stand one after the other, each with room for as many watchers
    /// as it had.
    pub(crate) fn close_up(&mut self)
        ensures len { length self.new.rows ≡ length self.old.rows }
        ensures empty { (l : Literal) → watchers_at self.new.rows l ≡ [] }
        ensures closed { self.new.size ≡ sum self.new.rooms }
    {
        let size = self.watchers.len().min(MOST_WATCHERS as usize);
        let end = lay_out(&mut self.stretches, size as u32);
        self.watchers.truncate(end as usize);
    }

    /// Whether the vector is empty, so that no list has a place in it.
    pub(crate) fn is_empty(&self) -> bool
        ensures { IsTrue result ↔ (self.now.size ≡ 0) }
    {
        self.watchers.is_empty()
    }

    /// Empties all lists and gives each room for the watches of these slots, if there is memory for them; a list without room
    /// gets it later.
    pub(crate) fn make_ready(&mut self, slots: &Slots)
        ensures len { length self.new.rows ≡ length self.old.rows }
        ensures empty { (l : Literal) → watchers_at self.new.rows l ≡ [] }
    {
        count_watches(&mut self.stretches, slots);
        let end = lay_out(&mut self.stretches, MOST_WATCHERS);
        if self.watchers.resize(end as usize, filler()).is_err() {
            lay_out(&mut self.stretches, 0);
        }
    }

    /// Makes room for one more watcher in a list.
    fn make_room(&mut self, code: usize) -> Result<(), AllocError>
        requires { code < length self.old.rows }
        ensures rows { self.new.rows ≡ self.old.rows }
        ensures rooms { OnOk result (self.new.rooms ≡ grown_rooms self.old code) }
        ensures ok { OnOk result (HasRoom self.new code) }
        ensures err { OnErr result (self.new ≡ self.old) }
    {
        let stretch = self.stretches[code];
        if stretch.len < stretch.room {
            return Ok(());
        }
        self.move_to_end(code)
    }

    /// Moves a list to the end of the vector, if it has twice the room.
    #[inline(never)]
    fn move_to_end(&mut self, code: usize) -> Result<(), AllocError>
        requires { code < length self.old.rows }
        ensures rows { self.new.rows ≡ self.old.rows }
        ensures rooms { OnOk result (self.new.rooms ≡ slice_set self.old.rooms code (max (2 * slice_index_or self.old.rooms code 0) 4)) }
        ensures ok { OnOk result (HasRoom self.new code) }
        ensures err { OnErr result (self.new ≡ self.old) }
    {
        let start = self.watchers.len();
        let old = self.stretches[code];
        let room = (2 * old.room as usize).max(LEAST_ROOM);
        if room > (MOST_WATCHERS as usize).saturating_sub(start) {
            return Err(AllocError);
        }
        self.watchers.resize(start + room, filler())?;
        let from = old.start as usize;
        self.watchers
            .copy_within(from..from + old.len as usize, start);
        self.stretches[code] = Stretch {
            start: start as u32,
            len: old.len,
            room: room as u32,
        };
        Ok(())
    }

    /// Puts a watcher at the end of a list that has room for it.
    fn put(&mut self, code: usize, watcher: Watcher)
        requires in_range { code < length self.old.rows }
        requires room { HasRoom self.old code }
        ensures rows { self.new.rows ≡ slice_set self.old.rows code (slice_index_or self.old.rows code [] ++ watcher ∷ []) }
        ensures rooms { self.new.rooms ≡ self.old.rooms }
    {
        let stretch = self.stretches[code];
        self.watchers[stretch.start as usize + stretch.len as usize] = watcher;
        self.stretches[code] = Stretch {
            start: stretch.start,
            len: stretch.len + 1,
            room: stretch.room,
        };
    }
}

/// What stands where no list has a watcher.
fn filler() -> Watcher {
    Watcher {
        slot: 0,
        blocker: Lit::new(1, false),
    }
}
