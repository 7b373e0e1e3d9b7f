// What a port in memory starts with.
// The port in memory, which the program never runs: tests search over it, with every byte known to contracts.
ghost use Rattle.std.specs.Prelude.{◌≡◌, ◌++◌, ◌∷◌, [], IfOk, OnOk};

use crate::store::Store;
use sat_words::{Clause, Lit};
use std::alloc::{AllocError, Global};
use std::marker::Model;

/// The clauses that a search starts with, in the order in which they came, each under its number in the log. A port takes
/// them over without a copy.
#[derive(Drop)]
pub struct Starts {
    pub(crate) store: Store,
}

impl Model for Starts {
    ghost use Rattle.std.specs.Prelude.{ℕ, List};
    ghost use Rattle.sat_words.specs.Literal.{Literal};
    ghost use Rattle.ring_port.specs.PlainPort.{pairs_of, AreAllHeld};

    ghost Value = { List (ℕ × List Literal) };

    ghost view = { λ p. pairs_of p.store.start };

    ghost invariant = { λ p. AreAllHeld p.store };
}

impl Starts {
    /// No clause, and no memory taken.
    pub fn new(alloc: Global) -> Starts
        ensures { result ≡ [] }
    {
        Starts {
            store: Store::new(alloc),
        }
    }

    /// Copies of these clauses, each under its number.
    pub fn of_clauses(alloc: Global, clauses: &[(u64, Clause)]) -> Result<Starts, AllocError>
        ensures { IfOk result (λ starts. starts ≡ clauses.now) }
    {
        let mut starts = Starts::new(alloc);
        for (number, clause) in clauses {
            starts.push(*number, clause.lits())?;
        }
        Ok(starts)
    }

    /// Copies the literals of one clause more. For 2^32 literals there is no room.
    pub fn push(&mut self, number: u64, lits: &[Lit]) -> Result<(), AllocError>
        ensures { OnOk result (self.new ≡ self.old ++ (number, lits.now) ∷ []) }
    {
        if self.store.make_room(lits).is_err() || self.store.make_start_room().is_err() {
            return Err(AllocError);
        }
        self.store.push_start(number, lits);
        Ok(())
    }
}
