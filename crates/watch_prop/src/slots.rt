//! The slots, each free or with a watch, of 16 bytes: the two literals, and one word for the address of the clause and whether
//! it is binary. A watch must come out as it went in.
ghost use Rattle.std.specs.Prelude.{◌≡◌, ◌<◌, ◌^◌, ◌++◌, ◌∷◌, [], Some, None, OnOk, OnErr, is_some, length, slice_index_or, slice_set};
ghost use Rattle.std.specs.List.{filter};
ghost use Rattle.watch_prop.specs.Packed.{watch_in, with_literals};

use crate::watch::Watch;
use sat_words::{Cref, Lit};
use std::alloc::{AllocError, Global};
use std::marker::Model;

/// No watch is kept of a clause at this address or above: there is no memory for it.
const MOST_ADDRESSES: u64 = 1 << 62;

/// A slot as it lies in memory: the two literals, and a word, which is 0 if the slot is free. The word of a watch is one more
/// than twice its clause's address, and one more again if the clause is binary.
#[derive(Clone, Copy)]
pub(crate) struct Slot {
    pub(crate) first: Lit,
    pub(crate) second: Lit,
    pub(crate) word: u64,
}

impl Slot {
    /// A slot with a watch.
    fn holding(watch: Watch) -> Slot
        requires { watch.clause.address < 2 ^ 62 }
        ensures { watch_in result ≡ Some watch }
    {
        Slot {
            first: watch.first,
            second: watch.second,
            word: 2 * watch.clause.address + 1 + u64::from(watch.binary),
        }
    }

    /// The watch that it has, if it isn't free.
    fn read(self) -> Option<Watch>
        ensures { result ≡ watch_in self }
    {
        if self.word == 0 {
            return None;
        }
        Some(Watch {
            clause: Cref {
                address: (self.word - 1) / 2,
            },
            first: self.first,
            second: self.second,
            binary: self.word % 2 == 0,
        })
    }
}

/// The slots of all watches.
#[derive(Drop)]
pub(crate) struct Slots {
    items: Vec<Slot>,
}

impl Model for Slots {
    ghost use Rattle.std.specs.Prelude.{List, Option, map};
    ghost use Rattle.watch_prop.specs.declared.watch.Watch.{Watch};
    ghost use Rattle.watch_prop.specs.Packed.{watch_in};

    ghost Value = { List (Option Watch) };

    ghost view = { λ x. map watch_in x.items.items };
}

impl Slots {
    /// No slot.
    pub(crate) fn new(alloc: Global) -> Slots
        ensures { result ≡ [] }
    {
        Slots {
            items: Vec::new(alloc),
        }
    }

    /// How many slots there are.
    pub(crate) fn len(&self) -> usize
        ensures { result ≡ length self.now }
    {
        self.items.len()
    }

    /// The watch in the slot at an index, if that isn't free.
    pub(crate) fn get(&self, index: usize) -> Option<Watch>
        requires { index < length self.now }
        ensures { result ≡ slice_index_or self.now index None }
    {
        let slot = self.items[index];
        slot.read()
    }

    /// Puts a slot with a watch after the others. If memory runs out, nothing changes.
    pub(crate) fn push(&mut self, watch: Watch) -> Result<(), AllocError>
        ensures ok { OnOk result (self.new ≡ self.old ++ Some watch ∷ []) }
        ensures err { OnErr result (self.new ≡ self.old) }
    {
        if watch.clause.address >= MOST_ADDRESSES {
            return Err(AllocError);
        }
        self.items.push(Slot::holding(watch))?;
        Ok(())
    }

    /// Gives the watch at an index, if its slot isn't free, other literals.
    pub(crate) fn set_literals(&mut self, index: usize, first: Lit, second: Lit)
        requires { index < length self.old }
        ensures { self.new ≡ slice_set self.old index (with_literals (slice_index_or self.old index None) first second) }
    {
        let slot = self.items[index];
        self.items[index] = Slot {
            first,
            second,
            word: slot.word,
        };
    }

    /// Frees the slot at an index.
    pub(crate) fn free(&mut self, index: usize)
        requires { index < length self.old }
        ensures { self.new ≡ slice_set self.old index None }
    {
        let slot = self.items[index];
        self.items[index] = Slot {
            first: slot.first,
            second: slot.second,
            word: 0,
        };
    }

    /// Takes the free slots out.
    pub(crate) fn keep_used(&mut self)
        ensures { self.new ≡ filter is_some self.old }
    {
        self.items.retain(|slot| slot.word != 0);
    }
}
