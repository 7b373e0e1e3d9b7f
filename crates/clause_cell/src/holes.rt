//! Which words are free.
ghost use Rattle.std.specs.Prelude.{◌≡◌, ◌<◌, ◌≤◌, ◌+◌, ◌^◌, true, false, IfOk, OnOk, IfErr, OnErr, Some, [], ◌∷◌, position, nat_le, length, ℕ, ◌≢◌};
ghost use Rattle.clause_cell.specs.Free.{first_fit, without_fit, with_range, largest, is_clear, len_from, hole_at, range, whole};
ghost use Rattle.clause_cell.specs.Blocks.{holes_of, block_at, end_of, NoneEmpty, AreBlocks, IsHome, halved};
ghost use Rattle.clause_cell.specs.declared.holes.HoleStop.TheVariants.{NoHole, Memory};

use crate::block::Block;
use std::alloc::Global;
use std::marker::Model;

/// A longest run of free words: the word before it and the word after it are not free.
#[derive(Clone, Copy, Drop)]
pub struct Hole {
    /// The first of them.
    pub first: u64,
    /// The number of them.
    pub len: u64,
}

/// Why no words are taken or given back.
#[derive(Clone, Copy, PartialEq, Eq, Debug, Drop)]
pub enum HoleStop {
    /// No hole is long enough.
    NoHole {
        /// The number of words that are needed.
        need: u64,
        /// The length of the longest hole.
        largest: u64,
    },
    /// There is no memory for one more hole.
    Memory,
}

/// The free words: holes in the order of their places. No two of them touch. They are kept in blocks, so that neither a
/// search nor an insertion goes through all of them.
#[derive(Drop)]
pub struct Holes {
    blocks: Vec<Block>,
}

impl Model for Holes {
    ghost use Rattle.std.specs.Prelude.{List};
    ghost use Rattle.clause_cell.specs.declared.holes.Hole.{Hole};
    ghost use Rattle.clause_cell.specs.Blocks.{holes_of, AreBlocks};

    ghost Value = { List Hole };

    ghost view = { λ h. holes_of h.blocks.items };

    ghost invariant = { λ h. AreBlocks h.blocks.items };
}

/// The first block with a hole that is long enough.
fn block_with(blocks: &[Block], need: u64) -> Option<usize>
    ensures { result ≡ position (λ b. nat_le need (largest b)) blocks.now }
{
    blocks.iter().position(|b| b.longest() >= need)
}

/// The length of the longest hole, 0 if there is none.
#[tactic(auto, using(crate::proofs::InBlocks::largest_next))]
fn longest_of(blocks: &[Block]) -> u64
    ensures { result ≡ largest (holes_of blocks.now) }
{
    let mut most: u64 = 0;
    for block in blocks {
        most = most.max(block.longest());
    }
    most
}

/// The index of the block for words from the first on.
fn home(blocks: &[Block], first: u64) -> usize
    requires blocks { AreBlocks blocks.now }
    requires some { 0 < length blocks.now }
    ensures { IsHome first blocks.now result }
{
    let mut low = 0;
    let mut high = blocks.len() - 1;
    while low < high {
        let middle = low + (high - low) / 2;
        if blocks[middle].end() < first {
            low = middle + 1;
        } else {
            high = middle;
        }
    }
    low
}

/// Whether there is a block at the index that begins before the word.
fn begins_before(blocks: &[Block], i: usize, word: u64) -> bool
    requires { NoneEmpty blocks.now }
    ensures yes { result ≡ true → (i < length blocks.now) × ((hole_at (block_at blocks.now i) 0).first < word) }
    ensures no { result ≡ false → i < length blocks.now → word ≤ (hole_at (block_at blocks.now i) 0).first }
{
    i < blocks.len() && blocks[i].first().first < word
}

/// Whether there is a block at the index that begins at the word.
fn begins_at(blocks: &[Block], i: usize, word: u64) -> bool
    requires { NoneEmpty blocks.now }
    ensures yes { result ≡ true → (i < length blocks.now) × ((hole_at (block_at blocks.now i) 0).first ≡ word) }
    ensures no { result ≡ false → i < length blocks.now → (hole_at (block_at blocks.now i) 0).first ≢ word }
{
    i < blocks.len() && blocks[i].first().first == word
}

/// Whether none of the words is free.
fn are_clear(blocks: &[Block], first: u64, len: u64) -> bool
    requires blocks { AreBlocks blocks.now }
    requires range { first + len ≤ 2 ^ 63 }
    ensures { result ≡ is_clear first len (holes_of blocks.now) }
{
    if blocks.is_empty() {
        return true;
    }
    let i = home(blocks, first);
    blocks[i].is_clear(first, len) && !begins_before(blocks, i + 1, first + len)
}

/// Removes the block if it is empty.
fn drop_empty(blocks: &mut Vec<Block>, i: usize)
    requires inside { i < length blocks.old.items }
    requires others { (k : ℕ) → k < length blocks.old.items → k ≢ i → 0 < length (block_at blocks.old.items k) }
    ensures same { holes_of blocks.new.items ≡ holes_of blocks.old.items }
    ensures filled { NoneEmpty blocks.new.items }
{
    if blocks[i].is_empty() {
        blocks.remove(i);
    }
}

/// Takes the front of the first hole that is long enough, in the first block with such a hole.
fn take_at(blocks: &mut Vec<Block>, i: usize, need: u64) -> u64
    requires blocks { AreBlocks blocks.old.items }
    requires need { 0 < need }
    requires place { position (λ b. nat_le need (largest b)) blocks.old.items ≡ Some i }
    ensures found { first_fit need (holes_of blocks.old.items) ≡ Some result }
    ensures left { holes_of blocks.new.items ≡ without_fit need (holes_of blocks.old.items) }
    ensures filled { NoneEmpty blocks.new.items }
{
    let first = blocks[i].take(need);
    drop_empty(blocks, i);
    first
}

/// Splits the block in half.
fn halve(blocks: &mut Vec<Block>, i: usize) -> Result<(), HoleStop>
    requires { i < length blocks.old.items }
    ensures halved { OnOk result (blocks.new.items ≡ halved blocks.old.items i) }
    ensures back { OnErr result (blocks.new.items ≡ blocks.old.items) }
    ensures memory { IfErr result (λ e. e ≡ Memory) }
{
    let upper = blocks[i].upper_half()?;
    if blocks.insert(i + 1, upper).is_err() {
        return Err(HoleStop::Memory);
    }
    blocks[i].keep_lower_half();
    Ok(())
}

/// The index of the block for words from the first on, which has room for one more hole.
fn home_with_room(blocks: &mut Vec<Block>, first: u64) -> Result<usize, HoleStop>
    requires blocks { AreBlocks blocks.old.items }
    requires some { 0 < length blocks.old.items }
    ensures same { holes_of blocks.new.items ≡ holes_of blocks.old.items }
    ensures filled { NoneEmpty blocks.new.items }
    ensures home { IfOk result (λ i. IsHome first blocks.new.items i) }
    ensures room { IfOk result (λ i. length (block_at blocks.new.items i) < 256) }
    ensures memory { IfErr result (λ e. e ≡ Memory) }
{
    let i = home(blocks.as_slice(), first);
    if !blocks[i].is_full() {
        return Ok(i);
    }
    halve(blocks, i)?;
    if blocks[i].end() < first {
        return Ok(i + 1);
    }
    Ok(i)
}

/// Gives words back that touch the next block, and takes the first hole of that block to them.
fn give_over(blocks: &mut Vec<Block>, i: usize, first: u64, len: u64) -> Result<(), HoleStop>
    requires blocks { AreBlocks blocks.old.items }
    requires range { 0 < len }
    requires clear { is_clear first len (holes_of blocks.old.items) ≡ true }
    requires home { IsHome first blocks.old.items i }
    requires room { length (block_at blocks.old.items i) < 256 }
    requires next { (i + 1 < length blocks.old.items) × ((hole_at (block_at blocks.old.items (i + 1)) 0).first ≡ first + len) }
    ensures given { OnOk result (holes_of blocks.new.items ≡ with_range first len (holes_of blocks.old.items)) }
    ensures back { OnErr result (holes_of blocks.new.items ≡ holes_of blocks.old.items) }
    ensures filled { NoneEmpty blocks.new.items }
    ensures memory { IfErr result (λ e. e ≡ Memory) }
{
    let next = blocks[i + 1].first();
    blocks[i].give(first, len + next.len)?;
    blocks[i + 1].remove_first();
    drop_empty(blocks, i + 1);
    Ok(())
}

/// Gives words back to the block at the index.
fn give_at(blocks: &mut Vec<Block>, i: usize, first: u64, len: u64) -> Result<(), HoleStop>
    requires blocks { AreBlocks blocks.old.items }
    requires range { (0 < len) × (first + len ≤ 2 ^ 63) }
    requires clear { is_clear first len (holes_of blocks.old.items) ≡ true }
    requires home { IsHome first blocks.old.items i }
    requires room { length (block_at blocks.old.items i) < 256 }
    ensures given { OnOk result (holes_of blocks.new.items ≡ with_range first len (holes_of blocks.old.items)) }
    ensures back { OnErr result (holes_of blocks.new.items ≡ holes_of blocks.old.items) }
    ensures filled { NoneEmpty blocks.new.items }
    ensures memory { IfErr result (λ e. e ≡ Memory) }
{
    if begins_at(blocks.as_slice(), i + 1, first + len) {
        return give_over(blocks, i, first, len);
    }
    blocks[i].give(first, len)
}

/// Makes a block of the words.
fn add_block(blocks: &mut Vec<Block>, first: u64, len: u64) -> Result<(), HoleStop>
    requires none { length blocks.old.items ≡ 0 }
    requires range { (0 < len) × (first + len ≤ 2 ^ 63) }
    ensures given { OnOk result (blocks.new.items ≡ (range first len ∷ []) ∷ []) }
    ensures back { OnErr result (blocks.new.items ≡ blocks.old.items) }
    ensures memory { IfErr result (λ e. e ≡ Memory) }
{
    let block = Block::new(*blocks.allocator(), first, len)?;
    if blocks.push(block).is_err() {
        return Err(HoleStop::Memory);
    }
    Ok(())
}

/// Gives words back, merged with the holes that they touch.
fn give_to(blocks: &mut Vec<Block>, first: u64, len: u64) -> Result<(), HoleStop>
    requires blocks { AreBlocks blocks.old.items }
    requires range { (0 < len) × (first + len ≤ 2 ^ 63) }
    requires clear { is_clear first len (holes_of blocks.old.items) ≡ true }
    ensures given { OnOk result (holes_of blocks.new.items ≡ with_range first len (holes_of blocks.old.items)) }
    ensures back { OnErr result (holes_of blocks.new.items ≡ holes_of blocks.old.items) }
    ensures filled { NoneEmpty blocks.new.items }
    ensures memory { IfErr result (λ e. e ≡ Memory) }
{
    if blocks.is_empty() {
        return add_block(blocks, first, len);
    }
    let i = home_with_room(blocks, first)?;
    give_at(blocks, i, first, len)
}

impl Holes {
    /// One hole, if there are any words.
    pub fn new(alloc: Global, first: u64, len: u64) -> Result<Holes, HoleStop>
        requires { first + len ≤ 2 ^ 63 }
        ensures made { IfOk result (λ h. h ≡ whole first len) }
        ensures memory { IfErr result (λ e. e ≡ Memory) }
    {
        let mut blocks = Vec::new(alloc);
        if len > 0 {
            add_block(&mut blocks, first, len)?;
        }
        Ok(Holes { blocks })
    }

    /// Takes this number of words from the front of the first hole that has them.
    pub fn take(&mut self, need: u64) -> Result<u64, HoleStop>
        requires { 0 < need }
        ensures found { IfOk result (λ a. first_fit need self.old ≡ Some a) }
        ensures left { OnOk result (self.new ≡ without_fit need self.old) }
        ensures none { IfErr result (λ e. (e ≡ NoHole need (largest self.old)) × (largest self.old < need)) }
        ensures back { OnErr result (self.new ≡ self.old) }
    {
        match block_with(self.blocks.as_slice(), need) {
            Some(i) => Ok(take_at(&mut self.blocks, i, need)),
            None => Err(HoleStop::NoHole {
                need,
                largest: longest_of(self.blocks.as_slice()),
            }),
        }
    }

    /// Gives words back.
    pub fn give(&mut self, first: u64, len: u64) -> Result<(), HoleStop>
        requires range { (0 < len) × (first + len ≤ 2 ^ 63) }
        requires clear { is_clear first len self.old ≡ true }
        ensures given { OnOk result (self.new ≡ with_range first len self.old) }
        ensures back { OnErr result (self.new ≡ self.old) }
        ensures memory { IfErr result (λ e. e ≡ Memory) }
    {
        give_to(&mut self.blocks, first, len)
    }

    /// Whether none of the words is free.
    pub fn is_clear(&self, first: u64, len: u64) -> bool
        requires { first + len ≤ 2 ^ 63 }
        ensures { result ≡ is_clear first len self.now }
    {
        are_clear(self.blocks.as_slice(), first, len)
    }

    /// The length of the hole that begins at this word, if one does.
    pub fn len_from(&self, first: u64) -> Option<u64>
        ensures { result ≡ len_from first self.now }
    {
        let blocks = self.blocks.as_slice();
        if blocks.is_empty() {
            return None;
        }
        blocks[home(blocks, first)].len_from(first)
    }

    /// The length of the longest hole, 0 if there is none.
    pub fn largest(&self) -> u64
        ensures { result ≡ largest self.now }
    {
        longest_of(self.blocks.as_slice())
    }
}
