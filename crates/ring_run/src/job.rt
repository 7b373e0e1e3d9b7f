// What a ring is told to do, and what it reports.
ghost use Rattle.std.specs.Prelude.{◌≡◌};

use sat_words::{Assignment, Cref, NoRoom, Stop};
use std::marker::Model;

/// Addresses of clauses, in order.
#[derive(Drop)]
pub struct Addresses {
    items: Vec<Cref>,
}

impl Model for Addresses {
    ghost use Rattle.std.specs.Prelude.{List};
    ghost use Rattle.sat_words.specs.declared.shared.Cref.{Cref};

    ghost Value = { List Cref };

    ghost view = { λ addresses. addresses.items.items };
}

impl Addresses {
    /// Takes the vector over, and no memory.
    pub fn from_vec(items: Vec<Cref>) -> Addresses
        ensures { result ≡ items.items }
    {
        Addresses { items }
    }

    /// The addresses, in their order.
    pub fn as_slice(&self) -> &[Cref]
        ensures { result.now ≡ self.now }
    {
        self.items.as_slice()
    }
}

/// A ring's part of the search.
#[derive(Drop)]
pub struct Job {
    /// The ring, from 0.
    pub ring: u32,
    /// How many rings search.
    pub rings: u32,
    /// The greatest variable.
    pub vars: u32,
    /// The clauses that the search starts with, if the port holds them.
    pub start: Addresses,
    /// What the first phases of the variables are made of, with the ring's number, and what a walk draws.
    pub seed: u64,
    /// How many steps the ring walks after its first import; with none it makes no walk.
    pub walk: u64,
}

/// What a ring counted.
#[derive(Clone, Copy, PartialEq, Eq, Debug)]
pub struct Counts {
    /// How many lemmas it learned, units among them.
    pub learned: u64,
    /// How many of these it offered to other rings.
    pub exported: u64,
    /// How many places of other rings it offered them in.
    pub offered: u64,
    /// How often it restarted.
    pub restarts: u64,
}

/// How a ring ended. All ends but `Spent` and `Stopped` have set the stop of all rings.
#[derive(Drop)]
pub enum End {
    /// This assignment makes each clause true.
    Sat(Assignment),
    /// The empty clause stands in the log.
    Refuted,
    /// At a conflict it asked for a ticket, to learn one lemma more, and all had been drawn.
    Spent,
    /// The stop of another ring was seen.
    Stopped(Stop),
    /// There was no room for a clause, or for one more entry of the log.
    NoHole(NoRoom),
    /// Writing the log failed, now or before; its writer's fault count rose.
    ProofFault,
    /// Memory ran out.
    Memory,
}
