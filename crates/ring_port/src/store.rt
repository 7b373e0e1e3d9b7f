// The clauses of a port in memory, in one vector of words: each lies in one stretch, its head before its literals.
// The port in memory, which the program never runs: tests search over it, with every byte known to contracts.
ghost use Rattle.std.specs.Prelude.{◌≡◌, ◌≢◌, ◌<◌, ◌≤◌, ◌+◌, ◌^◌, ◌∷◌, ◌++◌, ◌==◌, [], true, None, Some, IfOk, OnOk, OnErr, IfErr, IfSome, IsSome, All, find, length, drop, map, slice_get, position};
ghost use Rattle.ring_port.specs.PortState.{Holding, AreApart, head_of, lits_in};
ghost use Rattle.ring_port.specs.Store.{without_ref};
ghost use Rattle.ring_port.specs.Deleting.{without_one};
ghost use Rattle.clause_cell.specs.Packing.{words_for};

use crate::spare::Spare;
use crate::stops::PortStop;
use crate::words::{grow, head_at, lit_at, lits_at, take_words, write_clause};
use clause_cell::words_for;
use sat_words::{Cref, Head, Lit};
use std::alloc::{AllocError, Global};
use std::collections::VecDeque;
use std::marker::Model;

/// Clauses with their numbers and glues; the address of each is that of its first word. The words of one whose deletion
/// stands are used again, except for those of start clauses.
#[derive(Drop)]
pub(crate) struct Store {
    words: Vec<u64>,
    spare: Spare,
    start: Vec<Cref>,
    /// The start clauses stand before this word.
    front: u64,
    held: Vec<Cref>,
    waiting: VecDeque<Cref>,
    /// The stretch that was freed last. It is given back before the next line, since that may want memory.
    freed: Option<Cref>,
}

impl Model for Store {
    ghost use Rattle.std.specs.Prelude.{◌-◌, is_none, length, vec_len, vec_capacity};
    ghost use Rattle.ring_port.specs.Store.{StoreData, clauses_in, IsStore};

    ghost Value = { StoreData };

    ghost view = { λ p. record {
      start = clauses_in p.words.items p.start.items;
      held = clauses_in p.words.items p.held.items;
      waiting = clauses_in p.words.items p.waiting.items;
      end = length p.words.items;
      start_room = vec_capacity p.start - vec_len p.start;
      room = vec_capacity p.held - vec_len p.held;
      word_room = vec_capacity p.words - vec_len p.words;
      settled = is_none p.freed;
    } };

    ghost invariant = { λ p. IsStore p.words.items p.spare p.start.items p.held.items p.waiting.items p.front p.freed };
}

/// The place of an address.
fn place_of(refs: &[Cref], address: u64) -> Option<usize>
    ensures { result ≡ position (λ c. c.address == address) refs.now }
{
    refs.iter().position(|c| c.address == address)
}

/// Takes an address out.
fn take_out(refs: &mut Vec<Cref>, address: u64)
    ensures { refs.new.items ≡ without_ref refs.old.items address }
{
    if let Some(place) = place_of(refs.as_slice(), address) {
        refs.remove(place);
    }
}

impl Store {
    /// No clause.
    pub(crate) fn new(alloc: Global) -> Self
        ensures start { result.start ≡ [] }
        ensures held { result.held ≡ [] }
        ensures waiting { result.waiting ≡ [] }
        ensures end { result.end ≡ 0 }
    {
        Store {
            words: Vec::new(alloc),
            spare: Spare::new(alloc),
            start: Vec::new(alloc),
            front: 0,
            held: Vec::new(alloc),
            waiting: VecDeque::new(alloc),
            freed: None,
        }
    }

    /// Gives the stretch that was freed last to those that are free.
    pub(crate) fn free_last(&mut self) -> Result<(), PortStop>
        ensures same { self.new ≡ record self.old { settled = self.new.settled } }
        ensures settled { OnOk result (self.new.settled ≡ true) }
        ensures memory { IfErr result (λ stop. stop ≡ PortStop.Memory) }
    {
        let Some(c) = self.freed else {
            return Ok(());
        };
        let size = head_at(&self.words, c.address as usize).size;
        self.spare.give(c.address, words_for(size))?;
        self.freed = None;
        Ok(())
    }

    /// Takes room for one more clause with these literals. For 2^32 literals there is none.
    pub(crate) fn make_room(&mut self, lits: &[Lit]) -> Result<(), PortStop>
        ensures start { self.new.start ≡ self.old.start }
        ensures held { self.new.held ≡ self.old.held }
        ensures waiting { self.new.waiting ≡ self.old.waiting }
        ensures end { self.new.end ≡ self.old.end }
        ensures room { OnOk result (1 ≤ self.new.room) }
        ensures word_room { OnOk result (words_for (length lits.now) ≤ self.new.word_room) }
        ensures few { OnOk result (length lits.now < 2 ^ 32) }
        ensures memory { IfErr result (λ stop. stop ≡ PortStop.Memory) }
    {
        if lits.len() > u32::MAX as usize {
            return Err(PortStop::Memory);
        }
        self.free_last()?;
        let need = words_for(lits.len() as u32);
        if self.held.reserve(1).is_err() || self.words.reserve(need as usize).is_err() {
            return Err(PortStop::Memory);
        }
        Ok(())
    }

    /// Takes room for one more start clause.
    pub(crate) fn make_start_room(&mut self) -> Result<(), PortStop>
        ensures same { self.new ≡ record self.old { start_room = self.new.start_room } }
        ensures room { OnOk result (1 ≤ self.new.start_room) }
    {
        if self.start.reserve(1).is_err() {
            return Err(PortStop::Memory);
        }
        Ok(())
    }

    /// Keeps a start clause, for which room was made, after all others.
    pub(crate) fn push_start(&mut self, number: u64, lits: &[Lit])
        requires start_room { 1 ≤ self.old.start_room }
        requires room { 1 ≤ self.old.room }
        requires word_room { words_for (length lits.now) ≤ self.old.word_room }
        requires few { length lits.now < 2 ^ 32 }
        ensures start { self.new.start ≡ self.old.start ++ record { address = self.old.end; number = number; glue = 0; lits = lits.now } ∷ [] }
        ensures held { self.new.held ≡ self.old.held ++ record { address = self.old.end; number = number; glue = 0; lits = lits.now } ∷ [] }
        ensures waiting { self.new.waiting ≡ self.old.waiting }
        ensures end { self.new.end ≡ self.old.end + words_for (length lits.now) }
    {
        let first = self.words.len();
        grow(&mut self.words, words_for(lits.len() as u32));
        write_clause(&mut self.words, first, number, 0, lits);
        self.front = self.words.len() as u64;
        let c = Cref {
            address: first as u64,
        };
        self.start.push_reserved(c);
        self.held.push_reserved(c);
    }

    /// Keeps the clause, for which room was made, in words that are free, or else after all others.
    pub(crate) fn push(&mut self, lits: &[Lit], number: u64, glue: u32) -> Cref
        requires room { 1 ≤ self.old.room }
        requires word_room { words_for (length lits.now) ≤ self.old.word_room }
        requires few { length lits.now < 2 ^ 32 }
        ensures start { self.new.start ≡ self.old.start }
        ensures held { self.new.held ≡ self.old.held ++ record { address = result.address; number = number; glue = glue; lits = lits.now } ∷ [] }
        ensures waiting { self.new.waiting ≡ self.old.waiting }
        ensures not_held { All (λ h. h.address ≢ result.address) self.old.held }
        ensures not_waiting { All (λ h. h.address ≢ result.address) self.old.waiting }
    {
        let need = words_for(lits.len() as u32);
        let first = take_words(&mut self.words, &mut self.spare, need);
        write_clause(&mut self.words, first, number, glue, lits);
        let c = Cref {
            address: first as u64,
        };
        self.held.push_reserved(c);
        c
    }

    /// What stands before the literals.
    pub(crate) fn head(&self, c: Cref) -> Head
        requires { IsSome (find (λ h. h.address == c.address) self.now.held) }
        ensures { IfSome (find (λ h. h.address == c.address) self.now.held) (λ h. result ≡ head_of h) }
    {
        head_at(&self.words, c.address as usize)
    }

    /// The literal at a place.
    pub(crate) fn lit(&self, c: Cref, i: u32) -> Lit
        requires held { IsSome (find (λ h. h.address == c.address) self.now.held) }
        requires inside { i < length (lits_in (find (λ h. h.address == c.address) self.now.held)) }
        ensures { slice_get (lits_in (find (λ h. h.address == c.address) self.now.held)) i ≡ Some result }
    {
        lit_at(&self.words, c.address as usize, i)
    }

    /// Holds the clause no longer: it waits for its deletion, and its literals can still be read.
    pub(crate) fn drop_clause(&mut self, c: Cref) -> Result<(), PortStop>
        requires { IsSome (find (λ h. h.address == c.address) self.old.held) }
        ensures start { self.new.start ≡ self.old.start }
        ensures held { OnOk result (self.new.held ≡ without_one self.old.held c.address) }
        ensures waiting { OnOk result (IfSome (find (λ h. h.address == c.address) self.old.held) (λ h. self.new.waiting ≡ self.old.waiting ++ h ∷ [])) }
        ensures back { OnErr result (self.new ≡ self.old) }
        ensures memory { IfErr result (λ stop. stop ≡ PortStop.Memory) }
    {
        if self.waiting.push_back(c).is_err() {
            return Err(PortStop::Memory);
        }
        take_out(&mut self.held, c.address);
        Ok(())
    }

    /// How many clauses wait for their deletion.
    pub(crate) fn waits(&self) -> usize
        ensures { result ≡ length self.now.waiting }
    {
        self.waiting.len()
    }

    /// What stands before the literals of the first clause that waits.
    pub(crate) fn first_head(&self) -> Head
        requires { 1 ≤ length self.now.waiting }
        ensures { IfSome (slice_get self.now.waiting 0) (λ h. result ≡ head_of h) }
    {
        head_at(&self.words, self.waiting[0].address as usize)
    }

    /// Copies of its literals.
    pub(crate) fn first_lits(&self, alloc: Global) -> Result<Vec<Lit>, AllocError>
        requires { 1 ≤ length self.now.waiting }
        ensures { IfOk result (λ lits. IfSome (slice_get self.now.waiting 0) (λ h. lits.items ≡ h.lits)) }
    {
        lits_at(alloc, &self.words, self.waiting[0].address as usize)
    }

    /// Forgets the first clause that waits, and frees its words, unless it is a start clause.
    pub(crate) fn delete_first(&mut self)
        requires some { 1 ≤ length self.old.waiting }
        requires settled { self.old.settled ≡ true }
        requires dropped { All (λ h. find (λ k. k.address == h.address) self.old.held ≡ None) self.old.waiting }
        requires once { AreApart self.old.waiting }
        ensures start { self.new.start ≡ self.old.start }
        ensures held { self.new.held ≡ self.old.held }
        ensures waiting { self.new.waiting ≡ drop 1 self.old.waiting }
    {
        let c = self.waiting[0];
        self.waiting.pop_front();
        if self.front <= c.address {
            self.freed = Some(c);
        }
    }

    /// The addresses of the start clauses, in their order.
    pub(crate) fn start(&self, alloc: Global) -> Result<Vec<Cref>, AllocError>
        ensures { IfOk result (λ refs. refs.items ≡ map (λ (h : Holding). record { address = h.address }) self.now.start) }
    {
        Vec::from_slice(alloc, &self.start)
    }
}
