//! Holes in one vector, in the order of their places.
ghost use Rattle.std.specs.Prelude.{◌≡◌, ◌<◌, ◌≤◌, ◌+◌, ◌^◌, ◌≢◌, true, false, OnOk, OnErr, IfErr, Some, None, position, nat_le, nat_lt, not, ◌&&◌, length, slice_set};
ghost use Rattle.clause_cell.specs.Free.{first_fit, without_fit, with_range, largest, is_apart, is_clear, len_from, end_at, hole_at, SkipTo, range};
ghost use Rattle.clause_cell.specs.Sides.{IsSide};
ghost use Rattle.std.specs.List.{remove};
ghost use Rattle.clause_cell.specs.declared.holes.HoleStop.TheVariants.{Memory};

use crate::holes::{Hole, HoleStop};

/// The index of the first hole that is long enough.
fn place_of(items: &[Hole], need: u64) -> Option<usize>
    ensures { result ≡ position (λ h. nat_le need h.len) items.now }
{
    items.iter().position(|h| h.len >= need)
}

/// The length of the longest hole, 0 if there is none.
#[tactic(auto, using(crate::proofs::Ranges::largest_next))]
pub fn longest(items: &[Hole]) -> u64
    ensures { result ≡ largest items.now }
{
    let mut most: u64 = 0;
    for h in items {
        most = most.max(h.len);
    }
    most
}

/// Whether the hole begins after the words, or ends before them.
fn is_beside(hole: Hole, first: u64, len: u64) -> bool
    requires { first + len ≤ 2 ^ 63 }
    ensures { result ≡ not (nat_lt hole.first (first + len) && nat_lt first (hole.first + hole.len)) }
{
    hole.first >= first + len || (hole.first <= first && hole.len <= first - hole.first)
}

/// Whether none of the words is free.
pub fn are_clear(items: &[Hole], first: u64, len: u64) -> bool
    requires { first + len ≤ 2 ^ 63 }
    ensures { result ≡ is_clear first len items.now }
{
    items.iter().all(|h| is_beside(*h, first, len))
}

/// The number of holes that end before the word and do not touch it.
fn before(items: &[Hole], first: u64) -> usize
    requires { is_apart 0 items.now ≡ true }
    ensures bound { result ≤ length items.now }
    ensures front { SkipTo first items.now result }
    ensures stop { result < length items.now → first ≤ end_at items.now result }
{
    let mut low = 0;
    let mut high = items.len();
    while low < high {
        let middle = low + (high - low) / 2;
        if items[middle].first + items[middle].len < first {
            low = middle + 1;
        } else {
            high = middle;
        }
    }
    low
}

/// Whether there is a hole at the index that ends at the word.
fn ends_at(items: &[Hole], i: usize, word: u64) -> bool
    requires { is_apart 0 items.now ≡ true }
    ensures yes { result ≡ true → (i < length items.now) × (end_at items.now i ≡ word) }
    ensures no { result ≡ false → i < length items.now → end_at items.now i ≢ word }
{
    i < items.len() && items[i].first + items[i].len == word
}

/// Whether there is a hole at the index that begins at the word.
fn begins_at(items: &[Hole], i: usize, word: u64) -> bool
    ensures yes { result ≡ true → (i < length items.now) × ((hole_at items.now i).first ≡ word) }
    ensures no { result ≡ false → i < length items.now → (hole_at items.now i).first ≢ word }
{
    i < items.len() && items[i].first == word
}

/// The length of the hole that begins at the word, if one does.
pub fn len_from(items: &[Hole], first: u64) -> Option<u64>
    requires { is_apart 0 items.now ≡ true }
    ensures { result ≡ len_from first items.now }
{
    let i = before(items, first);
    if begins_at(items, i, first) {
        return Some(items[i].len);
    }
    None
}

/// What a range touches: the holes on both sides, one of them, or none.
#[derive(Clone, Copy)]
enum Side {
    Both,
    Left,
    Right,
    Neither,
}

/// What the range touches, if the holes before the index end before it.
fn side_of(items: &[Hole], i: usize, first: u64, len: u64) -> Side
    requires { (is_apart 0 items.now ≡ true) × (first + len ≤ 2 ^ 63) × (i ≤ length items.now) }
    ensures { IsSide items.now i first len result }
{
    if ends_at(items, i, first) {
        if begins_at(items, i + 1, first + len) {
            return Side::Both;
        }
        return Side::Left;
    }
    if begins_at(items, i, first + len) {
        return Side::Right;
    }
    Side::Neither
}

/// Makes one hole of the hole at the index, the next one, and the words between them.
fn join_both(items: &mut Vec<Hole>, i: usize, len: u64)
    requires { (is_apart 0 items.old.items ≡ true) × (i + 1 < length items.old.items) × (end_at items.old.items i + len ≡ (hole_at items.old.items (i + 1)).first) }
    ensures { items.new.items ≡ slice_set (remove items.old.items (i + 1)) i (range (hole_at items.old.items i).first ((hole_at items.old.items i).len + (len + (hole_at items.old.items (i + 1)).len))) }
{
    let next = items[i + 1];
    let hole = items[i];
    items.remove(i + 1);
    items[i] = Hole {
        first: hole.first,
        len: hole.len + (len + next.len),
    };
}

/// Makes the hole at the index longer.
fn join_left(items: &mut Vec<Hole>, i: usize, len: u64)
    requires { (is_apart 0 items.old.items ≡ true) × (i < length items.old.items) × (end_at items.old.items i + len ≤ 2 ^ 63) }
    ensures { items.new.items ≡ slice_set items.old.items i (range (hole_at items.old.items i).first ((hole_at items.old.items i).len + len)) }
{
    let hole = items[i];
    items[i] = Hole {
        first: hole.first,
        len: hole.len + len,
    };
}

/// Makes the hole at the index begin earlier.
fn join_right(items: &mut Vec<Hole>, i: usize, first: u64, len: u64)
    requires { (is_apart 0 items.old.items ≡ true) × (i < length items.old.items) × ((hole_at items.old.items i).first ≡ first + len) }
    ensures { items.new.items ≡ slice_set items.old.items i (range first (len + (hole_at items.old.items i).len)) }
{
    let hole = items[i];
    items[i] = Hole {
        first,
        len: len + hole.len,
    };
}

/// Gives the range back, merged with the holes that it touches.
pub fn put_back(items: &mut Vec<Hole>, first: u64, len: u64) -> Result<(), HoleStop>
    requires apart { is_apart 0 items.old.items ≡ true }
    requires range { (0 < len) × (first + len ≤ 2 ^ 63) }
    requires clear { is_clear first len items.old.items ≡ true }
    ensures given { OnOk result (items.new.items ≡ with_range first len items.old.items) }
    ensures back { OnErr result (items.new.items ≡ items.old.items) }
    ensures memory { IfErr result (λ e. e ≡ Memory) }
{
    let i = before(items.as_slice(), first);
    match side_of(items.as_slice(), i, first, len) {
        Side::Both => {
            join_both(items, i, len);
            Ok(())
        }
        Side::Left => {
            join_left(items, i, len);
            Ok(())
        }
        Side::Right => {
            join_right(items, i, first, len);
            Ok(())
        }
        Side::Neither => {
            if items.insert(i, Hole { first, len }).is_err() {
                return Err(HoleStop::Memory);
            }
            Ok(())
        }
    }
}

/// Takes the front of the first hole that is long enough.
pub fn cut(items: &mut Vec<Hole>, need: u64) -> Option<u64>
    requires apart { is_apart 0 items.old.items ≡ true }
    ensures found { result ≡ first_fit need items.old.items }
    ensures left { items.new.items ≡ without_fit need items.old.items }
    ensures apart { is_apart 0 items.new.items ≡ true }
    ensures none { result ≡ None → items.new.items ≡ items.old.items }
{
    match place_of(items.as_slice(), need) {
        Some(i) => {
            let hole = items[i];
            if hole.len == need {
                items.remove(i);
            } else {
                items[i] = Hole {
                    first: hole.first + need,
                    len: hole.len - need,
                };
            }
            Some(hole.first)
        }
        None => None,
    }
}
