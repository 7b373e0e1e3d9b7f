// The executable core, which the program never runs: it makes the definitions of specs/ run, for tests.
ghost use Rattle.std.specs.Prelude.{◌≡◌, ◌⊎◌, ◌<◌, ◌≤◌, length, IfOk, OnErr, OnOk};
ghost use Rattle.rup_model.specs.Journal.{lines as lines_of};
ghost use Rattle.share_core.specs.State.{times_at, IsCoreOpening, opened, count_at, number_at, slot_of};
ghost use Rattle.share_core.specs.Events.{after};
ghost use Rattle.share_core.specs.Enabled.{IsEnabled};
ghost use Rattle.share_core.specs.Machine.{data_of, state_of, Logged, Kept, has_at, core_opening};
ghost use Rattle.share_core.specs.Steps.{Steps, and_then, Runs};

use crate::cells::{count_of, number_of};
use crate::event::{Event, Stop};
use crate::items::Items;
use crate::openings::{opened, start_clauses};
use crate::progress::{Origin, Progress};
use crate::ring::{has_at, times_of};
use rup_model::Entry;
use sat_words::{Formula, Line, Lit};
use std::alloc::{AllocError, Global};
use std::marker::Model;

/// The machine over events, by plain lists: the state that a list of events leaves.
#[derive(Drop)]
pub struct Core {
    pub(crate) origin: Origin,
    pub(crate) progress: Progress,
}

impl Model for Core {
    ghost use Rattle.share_core.specs.Machine.{CoreData, data_of, Kept};

    ghost Value = { CoreData };

    ghost view = { λ c. data_of c.origin c.progress };

    ghost invariant = { λ c. Kept (data_of c.origin c.progress) };
}

/// What became of an event.
#[derive(Clone, Copy, PartialEq, Eq, Debug)]
pub enum Step {
    /// It was enabled, and had its effect.
    Done,
    /// It was not enabled, and nothing has changed.
    Refused,
}

impl Progress {
    /// What the event does, if it is enabled.
    fn make(&mut self, alloc: Global, origin: &Origin, event: &Event) -> Result<(), AllocError>
        requires kept { Kept (data_of origin.now self.old) }
        requires enabled { IsEnabled (state_of (data_of origin.now self.old)) event.now }
        ensures after { OnOk result (state_of (data_of origin.now self.new) ≡ after (state_of (data_of origin.now self.old)) event.now) }
        ensures logged { OnOk result (Logged (data_of origin.now self.new)) }
        ensures wide { OnOk result (length self.new.slots.items ≡ length self.old.slots.items) }
    {
        match event {
            Event::Grant { ring } => self.grant(alloc, origin, *ring),
            Event::TakeTurn { ring } => {
                self.turn = Some(*ring);
                Ok(())
            }
            Event::GiveTurn { .. } => {
                self.turn = None;
                Ok(())
            }
            Event::AddClause {
                ring,
                kind,
                lits,
                hints,
                address,
            } => self.add_clause(
                alloc,
                origin,
                *ring,
                *kind,
                lits.as_slice(),
                hints.as_slice(),
                *address,
            ),
            Event::AddUnit {
                ring,
                kind,
                lit,
                hints,
            } => self.add_unit(alloc, origin, *ring, *kind, *lit, hints.as_slice()),
            Event::AddEmpty { ring, hints } => {
                self.add_empty(alloc, origin, *ring, hints.as_slice())
            }
            Event::Reduce { ring } => self.reduce(origin, *ring),
            Event::OpenCell { ring, address } => self.open_cell(alloc, origin, *ring, *address),
            Event::Read { .. } => Ok(()),
            Event::Share { ring, address } => self.share(alloc, origin, *ring, *address),
            Event::DropCount { ring, address } => self.drop_count(alloc, origin, *ring, *address),
            Event::Bury { ring, address } => self.bury(alloc, origin, *ring, *address),
            Event::Put {
                ring,
                to,
                class,
                place,
                address,
            } => self.put(alloc, origin, *ring, *to, *class, *place, *address),
            Event::Get {
                ring,
                from,
                class,
                place,
            } => self.get(alloc, origin, *ring, *from, *class, *place),
            Event::Publish { ring, lit, number } => self.publish(origin, *ring, *lit, *number),
            Event::See { ring } => self.see(origin, *ring),
            Event::Stop { ring, kind } => {
                self.set_stop(origin, *ring, *kind);
                Ok(())
            }
            Event::Draw { ring } => {
                self.draw(origin, *ring);
                Ok(())
            }
        }
    }

    /// One event, if it is enabled.
    fn step(&mut self, alloc: Global, origin: &Origin, event: &Event) -> Result<Step, AllocError>
        requires { Kept (data_of origin.now self.old) }
        ensures steps { IfOk result (λ s. Steps (state_of (data_of origin.now self.old)) event.now s (state_of (data_of origin.now self.new))) }
        ensures kept { OnOk result (Kept (data_of origin.now self.new)) }
    {
        if !self.is_enabled(alloc, origin, event)? {
            return Ok(Step::Refused);
        }
        self.make(alloc, origin, event)?;
        Ok(Step::Done)
    }

    /// The events in order, each if it is enabled.
    fn run(&mut self, alloc: Global, origin: &Origin, events: &[Event]) -> Result<Step, AllocError>
        requires { Kept (data_of origin.now self.old) }
        ensures runs { IfOk result (λ s. Runs (state_of (data_of origin.now self.old)) events.now s (state_of (data_of origin.now self.new))) }
        ensures kept { OnOk result (Kept (data_of origin.now self.new)) }
    {
        let mut all = Step::Done;
        for event in events {
            let step = self.step(alloc, origin, event)?;
            all = and_then(all, step);
        }
        Ok(all)
    }
}

/// Done if both are.
fn and_then(first: Step, second: Step) -> Step
    ensures { result ≡ and_then first second }
{
    match first {
        Step::Done => second,
        Step::Refused => Step::Refused,
    }
}

impl Core {
    /// The machine before the first event. Start clauses are given by their addresses and their numbers in the formula,
    /// from 1, and units with the numbers of their clauses. The depth is how many slots there are for each two rings and
    /// class. The limit is how many clauses the rings may learn together, each with a ticket that it draws. If the log is
    /// hinted, each addition has hints.
    pub fn new(
        alloc: Global,
        formula: Formula,
        start: &[(u64, u64)],
        units: &[(Lit, u64)],
        rings: u32,
        depth: u32,
        limit: u64,
        hinted: bool,
    ) -> Result<Core, AllocError>
        requires { IsCoreOpening (core_opening formula.clauses start.now units.now rings depth limit hinted) }
        ensures { IfOk result (λ core. state_of core ≡ opened (core_opening formula.clauses start.now units.now rings depth limit hinted)) }
    {
        let starts = start_clauses(alloc, formula.clauses(), start)?;
        opened(
            alloc,
            formula,
            Items::new(alloc),
            Items::new(alloc),
            starts,
            units,
            rings,
            depth,
            limit,
            hinted,
        )
    }

    /// How many hold the cell at the address; 0 if there is none.
    pub fn count(&self, address: u64) -> u64
        ensures { result ≡ count_at ((state_of self.now).cell address) }
    {
        count_of(self.progress.cells.as_slice(), address)
    }

    /// The number of the clause in the cell at the address; 0 if there is none.
    pub fn number(&self, address: u64) -> u64
        ensures { result ≡ number_at ((state_of self.now).cell address) }
    {
        number_of(self.progress.cells.as_slice(), address)
    }

    /// How often the ring holds the cell at the address.
    pub fn held(&self, ring: u32, address: u64) -> u64
        ensures { result ≡ times_at address ((state_of self.now).part ring).held }
    {
        if !self.progress.is_ring(ring) {
            return 0;
        }
        times_of(self.progress.ring(ring).held.as_slice(), address)
    }

    /// Whether the cell at the address waits at the ring for its deletion.
    pub fn waits(&self, ring: u32, address: u64) -> bool
        ensures { result ≡ has_at address ((state_of self.now).part ring).waiting }
    {
        self.progress.is_ring(ring) && has_at(&self.progress.ring(ring).waiting, address)
    }

    /// The address in a ring's slot for another ring; 0 if it is empty, or there is none.
    pub fn slot(&self, from: u32, to: u32, class: u8, place: u32) -> u64
        ensures there { let c = state_of self.now in from < c.opening.rings → to < c.opening.rings → class < 4 → place < c.opening.depth → result ≡ c.slot (slot_of c.opening from to class place) }
        ensures none { let c = state_of self.now in (c.opening.rings ≤ from) ⊎ (c.opening.rings ≤ to) ⊎ (4 ≤ class) ⊎ (c.opening.depth ≤ place) → result ≡ 0 }
    {
        if !self.progress.is_ring(from)
            || !self.progress.is_ring(to)
            || class >= 4
            || place >= self.origin.depth
        {
            return 0;
        }
        let slot = self.progress.slot_of(&self.origin, from, to, class, place);
        self.progress.slots[slot]
    }

    /// The listed units, in order.
    pub fn units(&self) -> &[Lit]
        ensures { result.now ≡ (state_of self.now).units }
    {
        self.progress.units.as_slice()
    }

    /// Their numbers, in the same order.
    pub fn unit_numbers(&self) -> &[u64]
        ensures { result.now ≡ (state_of self.now).numbers }
    {
        self.progress.numbers.as_slice()
    }

    /// How many of the listed units the ring has seen.
    pub fn seen(&self, ring: u32) -> usize
        ensures { result ≡ length ((state_of self.now).part ring).seen }
    {
        if !self.progress.is_ring(ring) {
            return 0;
        }
        self.progress.ring(ring).seen.len()
    }

    /// The ring that has the turn to write into the log.
    pub fn turn(&self) -> Option<u32>
        ensures { result ≡ (state_of self.now).turn }
    {
        self.progress.turn
    }

    /// The first stop that was set.
    pub fn stop(&self) -> Option<Stop>
        ensures { result ≡ (state_of self.now).stop }
    {
        self.progress.stop
    }

    /// Whether the ring has a ticket in hand.
    pub fn ticket(&self, ring: u32) -> bool
        ensures { result ≡ ((state_of self.now).part ring).ticket }
    {
        self.progress.is_ring(ring) && self.progress.ring(ring).ticket
    }

    /// How often rings drew, with those draws that found no ticket left.
    pub fn drawn(&self) -> u64
        ensures { result ≡ (state_of self.now).drawn }
    {
        self.progress.drawn
    }

    /// One event, if it is enabled. After an error nothing has changed.
    pub fn step(&mut self, alloc: Global, event: &Event) -> Result<Step, AllocError>
        ensures ok { IfOk result (λ s. Steps (state_of self.old) event.now s (state_of self.new)) }
        ensures err { OnErr result (self.new ≡ self.old) }
    {
        let mut next = self.progress.copied(alloc)?;
        let step = next.step(alloc, &self.origin, event)?;
        self.progress = next;
        Ok(step)
    }

    /// The events in order; those that are not enabled are passed over. The answer is Done exactly if each event was.
    /// After an error nothing has changed.
    pub fn run(&mut self, alloc: Global, events: &[Event]) -> Result<Step, AllocError>
        ensures ok { IfOk result (λ s. Runs (state_of self.old) events.now s (state_of self.new)) }
        ensures err { OnErr result (self.new ≡ self.old) }
    {
        let mut next = self.progress.copied(alloc)?;
        let all = next.run(alloc, &self.origin, events)?;
        self.progress = next;
        Ok(all)
    }

    /// The journal, in order.
    pub fn journal(&self) -> &[Entry]
        ensures { result.now ≡ (state_of self.now).journal }
    {
        self.progress.journal.as_slice()
    }

    /// The lines of the log, in order.
    pub fn lines(&self) -> &[Line]
        ensures { result.now ≡ lines_of self.now.formula self.now.journal }
    {
        self.progress.lines.as_slice()
    }
}
