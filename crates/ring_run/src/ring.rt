// What a ring has of its own.
ghost use Rattle.std.specs.Prelude.{◌≡◌, ◌≤◌, length};
ghost use Rattle.ring_trail.specs.TrailData.{IsTrail};
ghost use Rattle.ring_run.specs.Course.{WentBack};
ghost use Rattle.ring_run.specs.Strategy.{saved_above};

use crate::variables::{Bump, save_phases};
use restart_plan::Restarts;
use ring_decide::Decider;
use ring_trail::Trail;
use sat_words::Cref;
use watch_prop::Watches;

/// Which ring it is, and how many there are.
#[derive(Clone, Copy)]
pub(crate) struct Place {
    /// The ring's number, from 0.
    pub ring: u32,
    /// How many rings search.
    pub rings: u32,
}

/// What a ring has of its own.
#[derive(Drop)]
pub(crate) struct Ring {
    /// Where it stands among the rings.
    pub place: Place,
    /// What is true.
    pub trail: Trail,
    /// The start clauses, and after them the lemmas and what other rings gave, each watched by two of its literals.
    pub watches: Watches,
    /// How many lemmas were learned.
    pub learned: u64,
    /// The lemmas of two literals or more that it learned and still holds, or what vivification left of them, in the order of
    /// their numbers. They are attached.
    pub lemmas: Vec<Cref>,
    /// What other rings gave and it still holds, as far as it may give it up. Each is attached, and may be a lemma too, as no port
    /// says that what is given is not held already. A reduction tells them apart.
    pub imports: Vec<Cref>,
    /// The greatest address of a start clause, or 0: what is beyond it is none.
    pub last_start: u64,
    /// How often it reduced lemmas and imports.
    pub reductions: u64,
    /// How many lemmas were learned when it last did.
    pub reduced_at: u64,
    /// The code of the literal with which probing goes on. If no literal on the variables has it, probing begins with the least code.
    pub next_probe: u32,
    /// How many of the first literals at level 0 have their lines.
    pub written: u32,
    /// Which variable is decided next, and how.
    pub decider: Decider,
    /// When it restarts.
    pub restarts: Restarts,
    /// Whether an import is yet to be: that at the start, or that of the last restart.
    pub import_due: bool,
    /// Room for the variables analyzed in a conflict.
    pub bumps: Vec<Bump>,
    /// How many lemmas were offered to the other rings.
    pub exported: u64,
    /// How often in all, up to the last value.
    pub offered: u64,
}

/// Goes back to a level, and notes the values that are lost.
pub(crate) fn go_back(ring: &mut Ring, level: u32)
    requires trail { IsTrail ring.old.trail }
    requires vars { length ring.old.decider.active ≡ ring.old.trail.vars }
    ensures went { level ≤ ring.old.trail.level → WentBack ring.old.trail ring.new.trail level }
    ensures phases { ring.new.decider ≡ saved_above ring.old.decider ring.old.trail.steps level }
    ensures active { ring.new.decider.active ≡ ring.old.decider.active }
    ensures same { ring.new ≡ record ring.old { trail = ring.new.trail; decider = ring.new.decider } }
{
    save_phases(&ring.trail, &mut ring.decider, level);
    ring.trail.back_to(level);
}
