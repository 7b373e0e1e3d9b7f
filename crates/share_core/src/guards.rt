//! Whether an event is enabled.
//! The executable core, which the program never runs: it makes the definitions of specs/ run, for tests.
ghost use Rattle.std.specs.Prelude.{◌≡◌, ◌<◌, ◌≤◌, ◌&&◌, ◌||◌, ◌==◌, ◌∷◌, [], nat_lt, nat_le, not, length, IfOk, OnOk};
ghost use Rattle.std.specs.List.{list_any};
ghost use Rattle.std.specs.Option.{is_none};
ghost use Rattle.sat_words.specs.Literal.{opposite};
ghost use Rattle.sat_words.specs.Clause.{has, includes, distinct_lits, has_opposites};
ghost use Rattle.rup_model.specs.Journal.{recent, fresh, is_ring};
ghost use Rattle.share_core.specs.declared.progress.Origin.{Origin};
ghost use Rattle.share_core.specs.Learning.{follows, may_learn, may_derive};
ghost use Rattle.share_core.specs.State.{opening_of, later};
ghost use Rattle.rup_model.specs.Opening.{start_clauses};
ghost use Rattle.share_core.specs.Machine.{has_at, data_of, ring_in, state_of};
ghost use Rattle.share_core.specs.Guards.{is_long, is_unit, may_add, may_tell, writes, holds, exchanges, is_enabled};

use crate::cells::is_free;
use crate::event::{Event, MAX_SHARES};
use crate::journal::{contains, count_recent, includes, is_ended, repeats_recent};
use crate::knowledge::{is_implied, is_shown};
use crate::progress::{Origin, Progress};
use crate::ring::has_at;
use crate::rounds::clause_under;
use crate::stored::ClauseAt;
use rup_model::{Kind, LEARNED_PER_REDUCTION};
use sat_words::{Lit, Lits, MAX_ENTRIES};
use std::alloc::{AllocError, Global};

pub(crate) fn are_distinct(lits: &[Lit]) -> bool
    ensures { result ≡ distinct_lits lits.now }
{
    match lits {
        [] => true,
        [first, rest @ ..] => !contains(rest, *first) && are_distinct(rest),
    }
}

fn has_opposites(lits: &[Lit]) -> bool
    ensures { result ≡ has_opposites lits.now }
{
    lits.iter().any(|lit| contains(lits, lit.not()))
}

/// Whether it has two literals or more without repeats or opposites.
pub(crate) fn is_long(lits: &[Lit]) -> bool
    ensures { result ≡ is_long lits.now }
{
    lits.len() >= 2 && are_distinct(lits) && !has_opposites(lits)
}

/// Whether it is a clause of this literal alone.
pub(crate) fn is_unit(clause: &Option<Lits>, lit: Lit) -> bool
    ensures { result ≡ is_unit lit clause.now }
{
    let Some(lits) = clause else {
        return false;
    };
    match lits.as_slice() {
        [only] => lit == *only,
        _ => false,
    }
}

/// Whether some clause of the list has all these literals.
fn some_includes(list: &[ClauseAt], lits: &[Lit]) -> bool
    ensures { result ≡ list_any (λ h. includes h.lits lits.now) list.now }
{
    list.iter().any(|h| includes(h.lits.as_slice(), lits))
}

/// Whether the literals include some clause of the list.
fn includes_some(lits: &[Lit], list: &[ClauseAt]) -> bool
    ensures { result ≡ list_any (λ h. includes lits.now h.lits) list.now }
{
    list.iter().any(|h| includes(lits, h.lits.as_slice()))
}

impl Progress {
    /// Whether the clause includes no start clause and nothing that the ring learned since it last reduced.
    fn is_fresh(&self, origin: &Origin, ring: u32, lits: &[Lit]) -> bool
        ensures { let c = state_of (data_of origin.now self.now) in result ≡ fresh (start_clauses (opening_of c.opening)) (later c.opening c.journal) ring lits.now }
    {
        !includes_some(lits, origin.starts.as_slice())
            && !repeats_recent(self.later(origin), ring, lits)
    }

    /// Whether the ring may learn the clause, but for what it knows.
    fn may_learn(&self, origin: &Origin, ring: u32, lits: &[Lit]) -> bool
        requires { ring < length self.now.rings.items }
        ensures { let c = state_of (data_of origin.now self.now) in result ≡ may_learn c.opening c.journal (c.part ring) ring lits.now }
    {
        self.ring(ring).ticket && self.is_fresh(origin, ring, lits)
    }

    /// Whether a clause of this kind may be added.
    fn may_add(&self, origin: &Origin, ring: u32, kind: Kind, lits: &[Lit]) -> bool
        requires { ring < length self.now.rings.items }
        ensures { result ≡ may_add (state_of (data_of origin.now self.now)) ring kind lits.now }
    {
        match kind {
            Kind::Learn => self.may_learn(origin, ring, lits),
            Kind::Derive => some_includes(self.ring(ring).held.as_slice(), lits),
            Kind::Ruler | Kind::UnitLine => false,
        }
    }

    /// Whether the ring may write, and a unit of this kind may be added.
    fn may_tell(&self, origin: &Origin, ring: u32, kind: Kind, lits: &[Lit]) -> bool
        ensures { result ≡ (writes (state_of (data_of origin.now self.now)) ring && may_tell (state_of (data_of origin.now self.now)) ring kind lits.now) }
    {
        self.writes(origin, ring)
            && match kind {
                Kind::Learn => self.may_learn(origin, ring, lits),
                Kind::UnitLine => true,
                Kind::Ruler | Kind::Derive => false,
            }
    }

    /// Whether it is a ring that may write an entry.
    fn writes(&self, origin: &Origin, ring: u32) -> bool
        ensures { result ≡ writes (state_of (data_of origin.now self.now)) ring }
    {
        self.is_ring(ring)
            && self.has_turn(ring)
            && !is_ended(origin.formula.clauses(), self.journal.as_slice())
            && (self.journal.len() as u64) < MAX_ENTRIES
    }

    /// Whether the literals follow from what the ring knows: in a log with hints, as the hints show.
    fn follows(
        &self,
        alloc: Global,
        origin: &Origin,
        ring: u32,
        lits: &[Lit],
        hints: &[u64],
    ) -> Result<bool, AllocError>
        requires { ring < length self.now.rings.items }
        ensures { IfOk result (λ yes. yes ≡ follows origin.now.hinted ((state_of (data_of origin.now self.now)).part ring) lits.now hints.now) }
    {
        let own = self.ring(ring);
        let held = own.held.as_slice();
        let seen = own.seen.as_slice();
        if origin.hinted {
            return is_shown(alloc, held, seen, own.numbers.as_slice(), lits, hints);
        }
        if hints.len() != 0 {
            return Ok(false);
        }
        is_implied(alloc, held, seen, lits)
    }

    /// Whether the ring may write, and may add the clause except for what it knows.
    fn may_build(&self, origin: &Origin, ring: u32, kind: Kind, lits: &[Lit], address: u64) -> bool
        ensures { let c = state_of (data_of origin.now self.now) in result ≡ (writes c ring && (may_add c ring kind lits.now && (is_long lits.now && (is_none (c.cell address) && not (address == 0))))) }
    {
        self.writes(origin, ring)
            && self.may_add(origin, ring, kind, lits)
            && is_long(lits)
            && is_free(self.cells.as_slice(), address)
            && address != 0
    }

    fn may_add_clause(
        &self,
        alloc: Global,
        origin: &Origin,
        ring: u32,
        kind: Kind,
        lits: &[Lit],
        hints: &[u64],
        address: u64,
    ) -> Result<bool, AllocError>
        ensures { IfOk result (λ yes. yes ≡ is_enabled (state_of (data_of origin.now self.now)) (Event.AddClause ring kind lits.now hints.now address)) }
    {
        if !self.may_build(origin, ring, kind, lits, address) {
            return Ok(false);
        }
        self.follows(alloc, origin, ring, lits, hints)
    }

    fn may_add_unit(
        &self,
        alloc: Global,
        origin: &Origin,
        ring: u32,
        kind: Kind,
        lit: Lit,
        hints: &[u64],
    ) -> Result<bool, AllocError>
        ensures { IfOk result (λ yes. yes ≡ is_enabled (state_of (data_of origin.now self.now)) (Event.AddUnit ring kind lit hints.now)) }
    {
        if !self.may_tell(origin, ring, kind, &[lit]) {
            return Ok(false);
        }
        self.follows(alloc, origin, ring, &[lit], hints)
    }

    fn may_add_empty(
        &self,
        alloc: Global,
        origin: &Origin,
        ring: u32,
        hints: &[u64],
    ) -> Result<bool, AllocError>
        ensures { IfOk result (λ yes. yes ≡ is_enabled (state_of (data_of origin.now self.now)) (Event.AddEmpty ring hints.now)) }
    {
        if !self.writes(origin, ring) {
            return Ok(false);
        }
        self.follows(alloc, origin, ring, &[], hints)
    }

    fn may_reduce(&self, origin: &Origin, ring: u32) -> bool
        ensures { result ≡ is_enabled (state_of (data_of origin.now self.now)) (Event.Reduce ring) }
    {
        self.writes(origin, ring)
            && count_recent(self.later(origin), ring) as u64 >= LEARNED_PER_REDUCTION
    }

    fn may_exchange(&self, origin: &Origin, ring: u32, other: u32, class: u8, place: u32) -> bool
        ensures { result ≡ exchanges (state_of (data_of origin.now self.now)) ring other class place }
    {
        self.is_ring(ring)
            && self.is_ring(other)
            && other != ring
            && class < 4
            && place < origin.depth
    }

    /// Whether the ring has the turn and has seen all units, and this is none.
    fn may_list(&self, ring: u32, lit: Lit) -> bool
        ensures { result ≡ (nat_lt ring (length self.now.rings.items) && (is_ring ring self.now.turn && ((length (ring_in self.now.rings.items ring).seen == length self.now.units) && not (has self.now.units lit)))) }
    {
        self.is_ring(ring)
            && self.has_turn(ring)
            && self.ring(ring).seen.len() == self.units.len()
            && !contains(self.units.as_slice(), lit)
    }

    fn may_publish(
        &self,
        alloc: Global,
        origin: &Origin,
        ring: u32,
        lit: Lit,
        number: u64,
    ) -> Result<bool, AllocError>
        requires { length self.now.journal ≤ MAX_ENTRIES }
        ensures { IfOk result (λ yes. yes ≡ is_enabled (state_of (data_of origin.now self.now)) (Event.Publish ring lit number)) }
    {
        if !self.may_list(ring, lit) {
            return Ok(false);
        }
        let clauses = origin.formula.clauses();
        let clause = clause_under(alloc, clauses, self.journal.as_slice(), number)?;
        Ok(is_unit(&clause, lit))
    }

    fn may_stop(&self, origin: &Origin, ring: u32, kind: u8) -> bool
        ensures { result ≡ is_enabled (state_of (data_of origin.now self.now)) (Event.Stop ring kind) }
    {
        self.is_ring(ring)
            && 1 <= kind
            && kind <= 5
            && (kind != 2 || is_ended(origin.formula.clauses(), self.journal.as_slice()))
    }

    /// Whether the event is enabled.
    pub(crate) fn is_enabled(
        &self,
        alloc: Global,
        origin: &Origin,
        event: &Event,
    ) -> Result<bool, AllocError>
        requires { length self.now.journal ≤ MAX_ENTRIES }
        ensures { IfOk result (λ yes. yes ≡ is_enabled (state_of (data_of origin.now self.now)) event.now) }
    {
        Ok(match event {
            Event::Grant { ring } => self.is_ring(*ring) && !self.ring(*ring).granted,
            Event::TakeTurn { ring } => self.is_ring(*ring) && self.turn.is_none(),
            Event::GiveTurn { ring } => self.is_ring(*ring) && self.has_turn(*ring),
            Event::AddClause {
                ring,
                kind,
                lits,
                hints,
                address,
            } => self.may_add_clause(
                alloc,
                origin,
                *ring,
                *kind,
                lits.as_slice(),
                hints.as_slice(),
                *address,
            )?,
            Event::AddUnit {
                ring,
                kind,
                lit,
                hints,
            } => self.may_add_unit(alloc, origin, *ring, *kind, *lit, hints.as_slice())?,
            Event::AddEmpty { ring, hints } => {
                self.may_add_empty(alloc, origin, *ring, hints.as_slice())?
            }
            Event::Reduce { ring } => self.may_reduce(origin, *ring),
            Event::OpenCell { ring, address } => {
                self.is_ring(*ring) && has_at(&self.ring(*ring).making, *address)
            }
            Event::Read { ring, address } | Event::DropCount { ring, address } => {
                self.holds(*ring, *address)
            }
            Event::Share { ring, address } => {
                self.holds(*ring, *address) && self.ring(*ring).shared < MAX_SHARES
            }
            Event::Bury { ring, address } => {
                self.writes(origin, *ring) && has_at(&self.ring(*ring).waiting, *address)
            }
            Event::Put {
                ring,
                to,
                class,
                place,
                address,
            } => {
                self.may_exchange(origin, *ring, *to, *class, *place)
                    && has_at(&self.ring(*ring).held, *address)
            }
            Event::Get {
                ring,
                from,
                class,
                place,
            } => self.may_exchange(origin, *ring, *from, *class, *place),
            Event::Publish { ring, lit, number } => {
                self.may_publish(alloc, origin, *ring, *lit, *number)?
            }
            Event::See { ring } => {
                self.is_ring(*ring) && self.ring(*ring).seen.len() < self.units.len()
            }
            Event::Stop { ring, kind } => self.may_stop(origin, *ring, *kind),
            Event::Draw { ring } => self.may_draw(origin, *ring),
        })
    }
}
