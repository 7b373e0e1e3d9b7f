// Walks over pseudo-random events. After each the counts are compared with a plain recount of who holds.
ghost use Rattle.std.specs.Prelude.{◌<◌};

use crate::openings::{FOUR, THREE, open};
use rup_model::{ClauseNumbers, Kind};
use sat_words::{Lit, Lits};
use share_core::{Core, Event, Step};
use std::alloc::Global;
use std::process::Abort;
use std::test::Fail;

const RINGS: u32 = 3;

/// How many slots there are for each two rings and class.
const DEPTH: u32 = 2;

/// How many clauses the rings may learn together.
const LIMIT: u64 = 20;

/// How many events a walk tries.
const EVENTS: u32 = 700;

fn no_hints(alloc: Global) -> Result<ClauseNumbers, Fail> {
    Ok(ClauseNumbers::from_slice(alloc, &[])?)
}

/// Knuth's linear congruential generator of MMIX, of which the high bits are taken.
#[derive(Drop)]
struct Words {
    state: u64,
}

impl Words {
    /// A number below the bound.
    fn below(&mut self, bound: u32) -> u32
        requires { 0 < bound }
        ensures { result < bound }
    {
        self.state = self
            .state
            .wrapping_mul(6364136223846793005)
            .wrapping_add(1442695040888963407);
        ((self.state >> 33) as u32) % bound
    }

    fn ring(&mut self) -> u32 {
        self.below(RINGS)
    }

    fn class(&mut self) -> u8 {
        self.below(2) as u8
    }

    fn place(&mut self) -> u32 {
        self.below(DEPTH)
    }

    /// One of 20, 25, and so on to 45: start clauses stand at the first of them.
    fn address(&mut self) -> u64 {
        20 + 5 * self.below(6) as u64
    }

    fn kind(&mut self) -> Kind {
        match self.below(5) {
            0 => Kind::UnitLine,
            1 | 2 => Kind::Derive,
            _ => Kind::Learn,
        }
    }

    fn lit(&mut self) -> Lit {
        let var = 1 + self.below(3);
        Lit::new(var, self.below(3) == 0)
    }

    /// Two literals, the first of which often follows.
    fn lits(&mut self, alloc: Global) -> Result<Lits, Fail> {
        let mut all = Vec::new(alloc);
        all.push(Lit::new(2, false))?;
        all.push(self.lit())?;
        Ok(Lits::from_vec(all))
    }

    /// An event that changes the log, or lists a unit.
    fn writing(&mut self, alloc: Global) -> Result<Event, Fail> {
        let ring = self.ring();
        let address = self.address();
        Ok(match self.below(18) {
            0..=7 => Event::AddClause {
                ring,
                kind: self.kind(),
                lits: self.lits(alloc)?,
                hints: no_hints(alloc)?,
                address,
            },
            8 | 9 => Event::AddUnit {
                ring,
                kind: self.kind(),
                lit: self.lit(),
                hints: no_hints(alloc)?,
            },
            10 | 11 => Event::Publish {
                ring,
                lit: self.lit(),
                number: self.below(20) as u64,
            },
            12 => Event::AddEmpty {
                ring,
                hints: no_hints(alloc)?,
            },
            13 => Event::Reduce { ring },
            14 | 15 => Event::Draw { ring },
            _ => Event::Bury { ring, address },
        })
    }

    /// An event of a cell.
    fn holding(&mut self) -> Event {
        let ring = self.ring();
        let address = self.address();
        match self.below(10) {
            0..=3 => Event::OpenCell { ring, address },
            4 => Event::Read { ring, address },
            5..=7 => Event::Share { ring, address },
            _ => Event::DropCount { ring, address },
        }
    }

    /// An event of a slot.
    fn exchanging(&mut self) -> Event {
        let ring = self.ring();
        let other = self.ring();
        let class = self.class();
        let place = self.place();
        if self.below(2) == 0 {
            return Event::Get {
                ring,
                from: other,
                class,
                place,
            };
        }
        Event::Put {
            ring,
            to: other,
            class,
            place,
            address: self.address(),
        }
    }

    /// An event of the turn, a grant, the units or the stop.
    fn ruling(&mut self) -> Event {
        let ring = self.ring();
        match self.below(6) {
            0 => Event::Grant { ring },
            1 => Event::GiveTurn { ring },
            2 => Event::See { ring },
            3 => Event::Stop {
                ring,
                kind: self.class(),
            },
            _ => Event::TakeTurn { ring },
        }
    }

    fn event(&mut self, alloc: Global) -> Result<Event, Fail> {
        match self.below(8) {
            0..=3 => self.writing(alloc),
            4 | 5 => Ok(self.holding()),
            6 => Ok(self.exchanging()),
            _ => Ok(self.ruling()),
        }
    }
}

/// How many of the ring's slots have the address.
fn in_slots(core: &Core, from: u32, address: u64) -> u64 {
    let mut found: u64 = 0;
    for slot in 0..4 * RINGS * DEPTH {
        let pool = slot / DEPTH;
        if core.slot(from, pool / 4, (pool % 4) as u8, slot % DEPTH) == address {
            found = found.saturating_add(1);
        }
    }
    found
}

/// How often rings hold the cell and slots have it, besides the open grants.
fn recount(core: &Core, open: u64, address: u64) -> u64 {
    let mut holders = open;
    for ring in 0..RINGS {
        holders = holders
            .saturating_add(core.held(ring, address))
            .saturating_add(in_slots(core, ring, address));
    }
    holders
}

/// Recounts each cell; through open grants the start clauses are held, of which the last stands at `last`.
fn check_counts(rt: &impl Abort, core: &Core, last: u64, open: u64) {
    for place in 4..10 {
        let address: u64 = 5 * place;
        let reached = if address <= last { open } else { 0 };
        assert_eq!(rt;
            core.count(address),
            recount(core, reached, address),
            "at {address}"
        );
    }
}

/// Walks, and says how many of the events were enabled.
fn wander(
    rt: &(impl Abort + AllocGlobal),
    opening: &'static str,
    last: u64,
    seed: u64,
) -> Result<u32, Fail> {
    let mut core = open(rt, opening, RINGS, DEPTH, LIMIT)?;
    let mut words = Words { state: seed };
    let mut done: u32 = 0;
    let mut grants: u64 = RINGS as u64;
    for _ in 0..EVENTS {
        let event = words.event(rt.alloc())?;
        if core.step(rt.alloc(), &event)? == Step::Done {
            done = done.saturating_add(1);
            grants = grants.saturating_sub(grants_taken(&event));
        }
        check_counts(rt, &core, last, grants);
    }
    Ok(done)
}

fn grants_taken(event: &Event) -> u64 {
    match event {
        Event::Grant { .. } => 1,
        _ => 0,
    }
}

fn check_walks(
    rt: &(impl Abort + AllocGlobal),
    opening: &'static str,
    last: u64,
) -> Result<(), Fail> {
    for seed in 1..6 {
        let done = wander(rt, opening, last, seed)?;
        assert!(rt; done >= 50, "{done} of seed {seed}");
    }
    Ok(())
}

#[test]
fn counts_are_of_holders(rt: HostRuntime) -> Result<(), Fail> {
    check_walks(&rt, THREE, 30)?;
    check_walks(&rt, FOUR, 35)
}
