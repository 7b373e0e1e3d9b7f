//! A book that counts and keeps its holes.
ghost use Rattle.std.specs.Prelude.{◌≡◌};

use clause_cell::Holes;
use share_rule::Ledger;

/// Counts entries and numbers, and writes no line.
#[derive(Drop)]
pub struct SampleBook {
    /// How many entries the log has.
    pub entries: u64,
    /// The last number that was given.
    pub last: u64,
    /// The free words.
    pub holes: Holes,
}

impl Ledger for SampleBook {
    ghost use Rattle.share_rule.specs.Views.{no_origin};
    ghost use Rattle.test_tables.specs.Books.{account_of, IsAnyLog};

    ghost account = { account_of };

    ghost origin = { λ b. no_origin };

    ghost stands = { IsAnyLog };

    fn entries(&self) -> u64 {
        self.entries
    }

    fn is_broken(&self) -> bool {
        false
    }

    fn hole_from(&self, first: u64) -> Option<u64> {
        self.holes.len_from(first)
    }

    fn with_holes(self, holes: Holes) -> SampleBook {
        let SampleBook {
            entries,
            last,
            holes: _,
        } = self;
        SampleBook {
            entries,
            last,
            holes,
        }
    }
}
