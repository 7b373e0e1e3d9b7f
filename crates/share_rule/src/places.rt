//! Where things lie in the words of a table.
ghost use Rattle.std.specs.Prelude.{◌≡◌, ◌<◌, ◌≤◌, ◌+◌, ◌*◌, ◌^◌};
ghost use Rattle.share_rule.specs.Layout.{grant_at, unit_at, number_at, slot_at, first_cell, ticket_at, table_words};

use crate::Layout;

impl Layout {
    /// The word of a ring's grant.
    pub fn grant(self, ring: u32) -> usize
        ensures { result ≡ grant_at ring }
    {
        3 + ring as usize
    }

    /// The word of the listed unit at a place, from 0.
    pub fn unit(self, place: u64) -> usize
        requires rings { self.rings ≤ 16 }
        requires place { place ≤ 2 ^ 31 }
        ensures { result ≡ unit_at self place }
    {
        3 + self.rings as usize + place as usize
    }

    /// Which slot is that of one ring for another and this class, if there is one for each two rings and class.
    fn pool(self, from: u32, to: u32, class: u8) -> usize
        requires rings { (from < self.rings) × (to < self.rings) × (self.rings ≤ 16) }
        requires class { class < 4 }
        ensures pool { result ≡ 4 * (from * self.rings + to) + class }
        ensures small { result < 1024 }
    {
        4 * (from as usize * self.rings as usize + to as usize) + class as usize
    }

    /// The word of a slot of one ring for another, for clauses of this class, by its place among those of the class.
    pub fn slot(self, from: u32, to: u32, class: u8, place: u32) -> usize
        requires rings { (from < self.rings) × (to < self.rings) × (self.rings ≤ 16) }
        requires vars { self.vars ≤ 2 ^ 30 }
        requires class { class < 4 }
        requires place { (place < self.depth) × (self.depth ≤ 16) }
        ensures { result ≡ slot_at self ((4 * (from * self.rings + to) + class) * self.depth + place) }
    {
        let slot = self.pool(from, to, class) * self.depth as usize + place as usize;
        3 + self.rings as usize + 2 * self.vars as usize + slot
    }

    /// The first word for cells.
    pub fn first_cell(self) -> u64
        requires { (self.rings ≤ 16) × (self.vars ≤ 2 ^ 30) × (self.depth ≤ 16) }
        ensures { result ≡ first_cell self }
    {
        let rings = self.rings as u64;
        let slots = 4 * (rings * rings) * self.depth as u64;
        3 + rings + 2 * self.vars as u64 + slots
    }

    /// The word that counts the tickets drawn.
    pub fn ticket(self) -> usize
        requires { (self.rings ≤ 16) × (self.vars ≤ 2 ^ 30) × (self.words ≤ 2 ^ 31) × (self.depth ≤ 16) }
        ensures { result ≡ ticket_at self }
    {
        (self.first_cell() + self.words) as usize
    }

    /// The word with the number of the listed unit at a place, from 0.
    pub fn number(self, place: u64) -> usize
        requires layout { (self.rings ≤ 16) × (self.vars ≤ 2 ^ 30) × (self.words ≤ 2 ^ 31) × (self.depth ≤ 16) }
        requires place { place ≤ 2 ^ 31 }
        ensures { result ≡ number_at self place }
    {
        self.ticket() + 1 + place as usize
    }

    /// How many words the table has.
    pub(crate) fn table_words(self) -> usize
        requires { (self.rings ≤ 16) × (self.vars ≤ 2 ^ 30) × (self.words ≤ 2 ^ 31) × (self.depth ≤ 16) }
        ensures { result ≡ table_words self }
    {
        self.ticket() + 1 + 2 * self.vars as usize
    }
}
