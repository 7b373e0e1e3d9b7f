//! A table by place that is made blank again in time of how many of its places were marked. Conflict analysis marks few of
//! all places, and does so for each conflict. The list of marked places must name each place that isn't blank.
ghost use Rattle.std.specs.Prelude.{◌≡◌, ◌<◌, ℕ, All, IfOk, false, nat_eq, length, replicate};
ghost use Rattle.std.specs.List.{slice_index_or};
ghost use Rattle.std.specs.List.Sorted.{IsPermutation, IsNonDecreasing};
ghost use Rattle.std.specs.Set.{is_member};
ghost use Rattle.analyze.specs.MarksData.{all_blank, with_mark};

use std::alloc::{AllocError, Global};
use std::marker::Model;

/// A value for each place, and the places that were marked with one. Only `new` takes memory.
#[derive(Drop)]
pub(crate) struct Marks<T> {
    blank: T,
    values: Vec<T>,
    touched: Vec<u32>,
}

impl<T> Model for Marks<T> {
    ghost use Rattle.analyze.specs.MarksData.{MarksData};
    ghost use Rattle.analyze.specs.MarksInside.{IsInside};

    ghost Value = { MarksData T };

    ghost view = { λ m. record { blank = m.blank; values = m.values.items; touched = m.touched.items } };

    ghost invariant = { IsInside T };
}

impl<T: Copy> Marks<T> {
    /// So many places, none of them marked.
    pub(crate) fn new(alloc: Global, room: usize, blank: T) -> Result<Marks<T>, AllocError>
        ensures { IfOk result (λ m. m ≡ all_blank room blank) }
    {
        let mut values = Vec::with_capacity(alloc, room)?;
        for i in 0..room {
            values.push_reserved(blank);
        }
        Ok(Marks {
            blank,
            values,
            touched: Vec::with_capacity(alloc, room)?,
        })
    }

    /// The value at a place.
    pub(crate) fn at(&self, place: u32) -> T
        requires { place < length self.now.values }
        ensures { result ≡ slice_index_or self.now.values place self.now.blank }
    {
        self.values[place as usize]
    }

    /// The values by place.
    pub(crate) fn values(&self) -> &[T]
        ensures { result.now ≡ self.now.values }
    {
        self.values.as_slice()
    }

    /// The places that are marked, in the order in which they were.
    pub(crate) fn touched(&self) -> &[u32]
        ensures { result.now ≡ self.now.touched }
    {
        self.touched.as_slice()
    }

    /// Marks a place that isn't marked yet.
    pub(crate) fn mark(&mut self, place: u32, value: T)
        requires in_range { place < length self.old.values }
        requires yet { is_member nat_eq self.old.touched place ≡ false }
        requires room { length self.old.touched < length self.old.values }
        ensures { self.new ≡ with_mark self.old place value }
    {
        self.values[place as usize] = value;
        self.touched.push_reserved(place);
    }

    /// Puts the marked places into ascending order.
    pub(crate) fn sort(&mut self)
        ensures same { self.new ≡ record self.old { touched = self.new.touched } }
        ensures order { IsPermutation self.old.touched self.new.touched }
        ensures rising { IsNonDecreasing self.new.touched }
    {
        self.touched.sort_unstable();
    }

    /// Takes every mark away.
    pub(crate) fn reset(&mut self)
        ensures { self.new ≡ all_blank (length self.old.values) self.old.blank }
    {
        make_blank(&mut self.values, self.touched.as_slice(), self.blank);
        self.touched.clear();
    }
}

/// Makes the listed places blank. The others must be so already.
fn make_blank<T: Copy>(values: &mut Vec<T>, touched: &[u32], blank: T)
    requires in_range { All (λ p. p < length values.old.items) touched.now }
    requires others { (p : ℕ) → is_member nat_eq touched.now p ≡ false → slice_index_or values.old.items p blank ≡ blank }
    ensures { values.new.items ≡ replicate (length values.old.items) blank }
{
    for place in touched {
        values[*place as usize] = blank;
    }
}
