//! One block of holes.
ghost use Rattle.std.specs.Prelude.{◌≡◌, ◌<◌, ◌≤◌, ◌+◌, ◌/◌, ◌^◌, ◌==◌, true, nat_le, IfOk, OnOk, IfErr, OnErr, Some, [], ◌∷◌, length, take, drop};
ghost use Rattle.clause_cell.specs.Free.{first_fit, without_fit, with_range, largest, is_clear, len_from, hole_at, range};
ghost use Rattle.clause_cell.specs.Blocks.{end_of};
ghost use Rattle.clause_cell.specs.declared.holes.HoleStop.TheVariants.{Memory};

use crate::holes::{Hole, HoleStop};
use crate::sorted::{are_clear, cut, len_from, longest, put_back};
use std::alloc::Global;
use std::marker::Model;

/// The most holes that a block has.
const MOST: usize = 256;

/// At most 256 holes in the order of their places. No two of them touch.
#[derive(Drop)]
pub struct Block {
    holes: Vec<Hole>,
    longest: u64,
}

impl Model for Block {
    ghost use Rattle.std.specs.Prelude.{List};
    ghost use Rattle.clause_cell.specs.declared.holes.Hole.{Hole};
    ghost use Rattle.clause_cell.specs.Blocks.{IsBlock};

    ghost Value = { List Hole };

    ghost view = { λ b. b.holes.items };

    ghost invariant = { λ b. IsBlock b.holes.items b.longest };
}

impl Block {
    /// A block of one hole.
    pub fn new(alloc: Global, first: u64, len: u64) -> Result<Block, HoleStop>
        requires { (0 < len) × (first + len ≤ 2 ^ 63) }
        ensures made { IfOk result (λ b. b ≡ range first len ∷ []) }
        ensures memory { IfErr result (λ e. e ≡ Memory) }
    {
        let mut holes = Vec::new(alloc);
        if holes.push(Hole { first, len }).is_err() {
            return Err(HoleStop::Memory);
        }
        Ok(Block {
            holes,
            longest: len,
        })
    }

    /// The length of the longest hole, 0 if there is none.
    pub fn longest(&self) -> u64
        ensures { result ≡ largest self.now }
    {
        self.longest
    }

    /// Whether there is no hole.
    pub fn is_empty(&self) -> bool
        ensures { result ≡ (length self.now == 0) }
    {
        self.holes.is_empty()
    }

    /// Whether there is no room for one more hole.
    pub fn is_full(&self) -> bool
        ensures full { result ≡ nat_le 256 (length self.now) }
        ensures few { length self.now ≤ 256 }
    {
        self.holes.len() >= MOST
    }

    /// The first hole.
    pub fn first(&self) -> Hole
        requires { 0 < length self.now }
        ensures { result ≡ hole_at self.now 0 }
    {
        self.holes[0]
    }

    /// The end of the last hole.
    pub fn end(&self) -> u64
        requires { 0 < length self.now }
        ensures { result ≡ end_of self.now }
    {
        let holes = self.holes.as_slice();
        let last = holes[holes.len() - 1];
        last.first + last.len
    }

    /// Whether none of the words is free.
    pub fn is_clear(&self, first: u64, len: u64) -> bool
        requires { first + len ≤ 2 ^ 63 }
        ensures { result ≡ is_clear first len self.now }
    {
        are_clear(self.holes.as_slice(), first, len)
    }

    /// The length of the hole that begins at the word, if one does.
    pub fn len_from(&self, first: u64) -> Option<u64>
        ensures { result ≡ len_from first self.now }
    {
        len_from(self.holes.as_slice(), first)
    }

    /// Takes the front of the first hole that is long enough.
    pub fn take(&mut self, need: u64) -> u64
        requires { (0 < need) × (need ≤ largest self.old) }
        ensures found { first_fit need self.old ≡ Some result }
        ensures left { self.new ≡ without_fit need self.old }
    {
        let first = cut(&mut self.holes, need).unwrap();
        self.longest = longest(self.holes.as_slice());
        first
    }

    /// Gives words back, merged with the holes that they touch.
    pub fn give(&mut self, first: u64, len: u64) -> Result<(), HoleStop>
        requires range { (0 < len) × (first + len ≤ 2 ^ 63) }
        requires clear { is_clear first len self.old ≡ true }
        requires room { length self.old < 256 }
        ensures given { OnOk result (self.new ≡ with_range first len self.old) }
        ensures back { OnErr result (self.new ≡ self.old) }
        ensures memory { IfErr result (λ e. e ≡ Memory) }
    {
        put_back(&mut self.holes, first, len)?;
        self.longest = longest(self.holes.as_slice());
        Ok(())
    }

    /// Removes the first hole.
    pub fn remove_first(&mut self)
        requires { 0 < length self.old }
        ensures { self.new ≡ drop 1 self.old }
    {
        self.holes.remove(0);
        self.longest = longest(self.holes.as_slice());
    }

    /// A copy of the upper half.
    pub fn upper_half(&self) -> Result<Block, HoleStop>
        ensures half { IfOk result (λ b. b ≡ drop (length self.now / 2) self.now) }
        ensures memory { IfErr result (λ e. e ≡ Memory) }
    {
        let upper = &self.holes.as_slice()[self.holes.len() / 2..];
        match Vec::from_slice(*self.holes.allocator(), upper) {
            Ok(holes) => Ok(Block {
                longest: longest(holes.as_slice()),
                holes,
            }),
            Err(_) => Err(HoleStop::Memory),
        }
    }

    /// Removes the upper half.
    pub fn keep_lower_half(&mut self)
        ensures { self.new ≡ take (length self.old / 2) self.old }
    {
        self.holes.truncate(self.holes.len() / 2);
        self.longest = longest(self.holes.as_slice());
    }
}
