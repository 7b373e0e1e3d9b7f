// Numbers in a list without an order, each with its place, so that one is put in or taken out without a search.
ghost use Rattle.std.specs.Prelude.{◌≡◌, ◌<◌, ◌≤◌, ◌+◌, ◌^◌, ℕ, Bool, true, false, IfOk, length, slice_index, vec_capacity};
ghost use Rattle.ring_walk.specs.Listed.{AreListed, all_but, and_one};

use std::alloc::{AllocError, Global};

/// The numbers below this one, in order.
pub(crate) fn numbers_below(alloc: Global, count: u32) -> Result<Vec<u32>, AllocError>
    ensures len { IfOk result (λ v. length v.items ≡ count) }
    ensures each { IfOk result (λ v. (k : ℕ) → k < count → slice_index v.items k ≡ k) }
    ensures room { IfOk result (λ v. count ≤ vec_capacity v) }
{
    let mut numbers = Vec::with_capacity(alloc, count as usize)?;
    for number in 0..count {
        numbers.push_reserved(number);
    }
    Ok(numbers)
}

/// Takes a number out of the list; the last one comes to its place.
pub(crate) fn unlist(list: &mut Vec<u32>, places: &mut Vec<u32>, number: u32)
    requires listed { (P : ℕ → Bool) × (n : ℕ) × AreListed P n list.old.items places.old.items × (number < n) × (P number ≡ true) }
    ensures listed { (P : ℕ → Bool) (n : ℕ) → AreListed P n list.old.items places.old.items → number < n → P number ≡ true → AreListed (all_but number P) n list.new.items places.new.items }
    ensures fewer { length list.new.items + 1 ≡ length list.old.items }
    ensures room { vec_capacity list.new ≡ vec_capacity list.old }
{
    let place = places[number as usize];
    let last = list[list.len() - 1];
    list[place as usize] = last;
    places[last as usize] = place;
    list.pop();
}

/// Puts a number at the end of the list.
pub(crate) fn enlist(list: &mut Vec<u32>, places: &mut Vec<u32>, number: u32)
    requires low { number < length places.old.items }
    requires short { length list.old.items < 2 ^ 32 }
    requires room { length list.old.items < vec_capacity list.old }
    ensures listed { (P : ℕ → Bool) (n : ℕ) → AreListed P n list.old.items places.old.items → number < n → P number ≡ false → AreListed (and_one number P) n list.new.items places.new.items }
    ensures more { length list.new.items ≡ length list.old.items + 1 }
    ensures room { vec_capacity list.new ≡ vec_capacity list.old }
{
    places[number as usize] = list.len() as u32;
    list.push_reserved(number);
}
