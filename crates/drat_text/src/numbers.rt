// The numbers that the lines of a log are given.
ghost use Rattle.std.specs.Prelude.{◌≡◌, ◌<◌, ◌≤◌, ◌+◌, ◌^◌, IsTrue, ◌↔◌};
ghost use Rattle.sat_words.specs.declared.shared.TheConstants.{MAX_ENTRIES};

use sat_words::MAX_ENTRIES;
use std::marker::Model;

/// How many lines stand, and the last number given.
#[derive(Drop)]
pub(crate) struct Numbers {
    entries: u64,
    last: u64,
}

impl Model for Numbers {
    ghost use Rattle.std.specs.Prelude.{◌≤◌, ◌+◌, ◌^◌};
    ghost use Rattle.sat_words.specs.declared.shared.TheConstants.{MAX_ENTRIES};
    ghost use Rattle.drat_text.specs.Count.{Count};

    ghost Value = { Count };

    ghost view = { λ n. record { entries = n.entries; last = n.last } };

    ghost invariant = { λ n. (n.entries ≤ MAX_ENTRIES) × (n.last ≤ 2 ^ 63 + n.entries) };
}

impl Numbers {
    /// No line stands behind this many clauses.
    pub(crate) fn after(clauses: u64) -> Numbers
        requires { clauses ≤ 2 ^ 63 }
        ensures { result ≡ record { entries = 0; last = clauses } }
    {
        Numbers {
            entries: 0,
            last: clauses,
        }
    }

    /// Whether no further line can stand.
    pub(crate) fn is_full(&self) -> bool
        ensures full { IsTrue result ↔ (self.now.entries ≡ MAX_ENTRIES) }
        ensures most { self.now.entries ≤ MAX_ENTRIES }
    {
        self.entries == MAX_ENTRIES
    }

    /// How many lines stand.
    pub(crate) fn entries(&self) -> u64
        ensures { result ≡ self.now.entries }
    {
        self.entries
    }

    /// The last number given.
    pub(crate) fn last(&self) -> u64
        ensures { result ≡ self.now.last }
    {
        self.last
    }

    /// The number of the next addition.
    pub(crate) fn next(&self) -> u64
        ensures { result ≡ self.now.last + 1 }
    {
        self.last + 1
    }

    /// One addition more, which takes the next number.
    pub(crate) fn count_addition(&mut self)
        requires room { self.old.entries < MAX_ENTRIES }
        ensures { self.new ≡ record { entries = self.old.entries + 1; last = self.old.last + 1 } }
    {
        self.entries += 1;
        self.last += 1;
    }

    /// One deletion more.
    pub(crate) fn count_deletion(&mut self)
        requires room { self.old.entries < MAX_ENTRIES }
        ensures { self.new ≡ record { entries = self.old.entries + 1; last = self.old.last } }
    {
        self.entries += 1;
    }
}
