//! What each event does. The calls ask that it is enabled; after an error the progress is of no more use.
//! The executable core, which the program never runs: it makes the definitions of specs/ run, for tests.
ghost use Rattle.std.specs.Prelude.{◌≡◌, ◌<◌, ◌≤◌, ◌+◌, ◌*◌, ◌∷◌, [], ◌++◌, length, IfOk, OnOk, Some, slice_index_or};
ghost use Rattle.sat_words.specs.declared.line.Line.TheVariants.{Add as AddLine, Del as DelLine};
ghost use Rattle.rup_model.specs.declared.journal.Entry.TheVariants.{Add as AddEntry};
ghost use Rattle.rup_model.specs.Journal.{book};
ghost use Rattle.share_core.specs.declared.event.Event.TheVariants.{Grant, TakeTurn, GiveTurn, AddClause, AddUnit, AddEmpty, Reduce as ReduceEvent, OpenCell, Share, DropCount, Bury, Put, Get, Publish, See, Stop as StopEvent};
ghost use Rattle.share_core.specs.declared.event.TheConstants.{MAX_DEPTH};
ghost use Rattle.share_core.specs.declared.progress.Origin.{Origin};
ghost use Rattle.share_core.specs.State.{clause_at};
ghost use Rattle.share_core.specs.Enabled.{IsEnabled};
ghost use Rattle.share_core.specs.Events.{after};
ghost use Rattle.share_core.specs.Machine.{data_of, state_of, Logged, Kept};

use crate::cells::{clause_of, count_of, lits_of, number_of, remove_cell, set_count};
use crate::draws::ticket_after;
use crate::event::Stop;
use crate::journal::next_number;
use crate::progress::{Origin, Progress};
use crate::ring::{add_cell, add_where, remove_at};
use crate::stored::{Cell, ClauseAt, PutNote, StoredCell};
use rup_model::{Addition, ClauseNumbers, Entry, Kind};
use sat_words::{Line, Lit, Lits, MAX_ENTRIES};
use std::alloc::{AllocError, Global};

impl Progress {
    /// Where the first of a ring's slots for another ring and a class stands, if there is one for each two rings and
    /// class.
    fn pool_of(&self, from: u32, to: u32, class: u8) -> usize
        requires few { length self.now.rings.items ≤ 16 }
        requires from { from < length self.now.rings.items }
        requires to { to < length self.now.rings.items }
        requires class { class < 4 }
        ensures pool { result ≡ 4 * (from * length self.now.rings.items + to) + class }
        ensures small { result < 1024 }
    {
        4 * (from as usize * self.rings.len() + to as usize) + class as usize
    }

    /// Where a ring's slot for another ring stands.
    pub(crate) fn slot_of(
        &self,
        origin: &Origin,
        from: u32,
        to: u32,
        class: u8,
        place: u32,
    ) -> usize
        requires few { length self.now.rings.items ≤ 16 }
        requires from { from < length self.now.rings.items }
        requires to { to < length self.now.rings.items }
        requires class { class < 4 }
        requires shallow { origin.now.depth ≤ MAX_DEPTH }
        requires place { place < origin.now.depth }
        ensures { result ≡ (4 * (from * length self.now.rings.items + to) + class) * origin.now.depth + place }
    {
        self.pool_of(from, to, class) * origin.depth as usize + place as usize
    }

    /// The clause whose address is in the slot.
    fn found_in(&self, alloc: Global, slot: usize) -> Result<ClauseAt, AllocError>
        requires { slot < length self.now.slots.items }
        ensures { (o : Origin) → IfOk result (λ h. h ≡ clause_at (state_of (data_of o self.now)) (slice_index_or self.now.slots.items slot 0)) }
    {
        let address = self.slots[slot];
        clause_of(alloc, self.cells.as_slice(), address)
    }

    /// The ring holds each start clause once.
    pub(crate) fn grant(
        &mut self,
        alloc: Global,
        origin: &Origin,
        ring: u32,
    ) -> Result<(), AllocError>
        requires kept { Kept (data_of origin.now self.old) }
        requires enabled { IsEnabled (state_of (data_of origin.now self.old)) (Grant ring) }
        ensures after { OnOk result (state_of (data_of origin.now self.new) ≡ after (state_of (data_of origin.now self.old)) (Grant ring)) }
        ensures logged { OnOk result (Logged (data_of origin.now self.new)) }
        ensures wide { OnOk result (length self.new.slots.items ≡ length self.old.slots.items) }
    {
        let own = &mut self.rings[ring as usize];
        own.held.extend(alloc, origin.starts.as_slice())?;
        own.granted = true;
        Ok(())
    }

    /// Adds a clause to the journal and to the lines, and gives its number.
    fn note_addition(
        &mut self,
        alloc: Global,
        origin: &Origin,
        ring: u32,
        kind: Kind,
        lits: &[Lit],
        hints: &[u64],
    ) -> Result<u64, AllocError>
        requires { length self.old.journal ≤ MAX_ENTRIES }
        ensures number { IfOk result (λ n. n ≡ (book origin.now.formula.clauses self.old.journal).next) }
        ensures after { IfOk result (λ n. self.new ≡ record self.old { journal = self.old.journal ++ AddEntry (record { ring = ring; number = n; lits = lits.now; kind = kind; hints = hints.now }) ∷ []; lines = self.old.lines ++ AddLine lits.now ∷ [] }) }
    {
        let number = next_number(origin.formula.clauses(), self.journal.as_slice());
        self.journal.push(Entry::Add(Addition {
            ring,
            number,
            lits: Lits::from_slice(alloc, lits)?,
            kind,
            hints: ClauseNumbers::from_slice(alloc, hints)?,
        }))?;
        self.lines.push(Line::Add(Lits::from_slice(alloc, lits)?))?;
        Ok(number)
    }

    /// The clause is added, and its cell begun.
    pub(crate) fn add_clause(
        &mut self,
        alloc: Global,
        origin: &Origin,
        ring: u32,
        kind: Kind,
        lits: &[Lit],
        hints: &[u64],
        address: u64,
    ) -> Result<(), AllocError>
        requires kept { Kept (data_of origin.now self.old) }
        requires enabled { IsEnabled (state_of (data_of origin.now self.old)) (AddClause ring kind lits.now hints.now address) }
        ensures after { OnOk result (state_of (data_of origin.now self.new) ≡ after (state_of (data_of origin.now self.old)) (AddClause ring kind lits.now hints.now address)) }
        ensures logged { OnOk result (Logged (data_of origin.now self.new)) }
        ensures wide { OnOk result (length self.new.slots.items ≡ length self.old.slots.items) }
    {
        let number = self.note_addition(alloc, origin, ring, kind, lits, hints)?;
        self.cells.push(StoredCell {
            address,
            cell: Cell {
                lits: Lits::from_slice(alloc, lits)?,
                number,
                count: 0,
                maker: Some(ring),
            },
        })?;
        let own = &mut self.rings[ring as usize];
        own.making.push(ClauseAt {
            address,
            number,
            lits: Lits::from_slice(alloc, lits)?,
        })?;
        own.ticket = ticket_after(kind, own.ticket);
        Ok(())
    }

    /// The unit is added.
    pub(crate) fn add_unit(
        &mut self,
        alloc: Global,
        origin: &Origin,
        ring: u32,
        kind: Kind,
        lit: Lit,
        hints: &[u64],
    ) -> Result<(), AllocError>
        requires kept { Kept (data_of origin.now self.old) }
        requires enabled { IsEnabled (state_of (data_of origin.now self.old)) (AddUnit ring kind lit hints.now) }
        ensures after { OnOk result (state_of (data_of origin.now self.new) ≡ after (state_of (data_of origin.now self.old)) (AddUnit ring kind lit hints.now)) }
        ensures logged { OnOk result (Logged (data_of origin.now self.new)) }
        ensures wide { OnOk result (length self.new.slots.items ≡ length self.old.slots.items) }
    {
        self.note_addition(alloc, origin, ring, kind, &[lit], hints)?;
        let own = &mut self.rings[ring as usize];
        own.ticket = ticket_after(kind, own.ticket);
        Ok(())
    }

    /// The empty clause is added.
    pub(crate) fn add_empty(
        &mut self,
        alloc: Global,
        origin: &Origin,
        ring: u32,
        hints: &[u64],
    ) -> Result<(), AllocError>
        requires kept { Kept (data_of origin.now self.old) }
        requires enabled { IsEnabled (state_of (data_of origin.now self.old)) (AddEmpty ring hints.now) }
        ensures after { OnOk result (state_of (data_of origin.now self.new) ≡ after (state_of (data_of origin.now self.old)) (AddEmpty ring hints.now)) }
        ensures logged { OnOk result (Logged (data_of origin.now self.new)) }
        ensures wide { OnOk result (length self.new.slots.items ≡ length self.old.slots.items) }
    {
        self.note_addition(alloc, origin, ring, Kind::Derive, &[], hints)?;
        Ok(())
    }

    /// It is noted that the ring reduces.
    pub(crate) fn reduce(&mut self, origin: &Origin, ring: u32) -> Result<(), AllocError>
        requires kept { Kept (data_of origin.now self.old) }
        requires enabled { IsEnabled (state_of (data_of origin.now self.old)) (ReduceEvent ring) }
        ensures after { OnOk result (state_of (data_of origin.now self.new) ≡ after (state_of (data_of origin.now self.old)) (ReduceEvent ring)) }
        ensures logged { OnOk result (Logged (data_of origin.now self.new)) }
        ensures wide { OnOk result (length self.new.slots.items ≡ length self.old.slots.items) }
    {
        self.journal.push(Entry::Reduce { ring })?;
        Ok(())
    }

    /// The cell is open, and the ring holds it.
    pub(crate) fn open_cell(
        &mut self,
        alloc: Global,
        origin: &Origin,
        ring: u32,
        address: u64,
    ) -> Result<(), AllocError>
        requires kept { Kept (data_of origin.now self.old) }
        requires enabled { IsEnabled (state_of (data_of origin.now self.old)) (OpenCell ring address) }
        ensures after { OnOk result (state_of (data_of origin.now self.new) ≡ after (state_of (data_of origin.now self.old)) (OpenCell ring address)) }
        ensures logged { OnOk result (Logged (data_of origin.now self.new)) }
        ensures wide { OnOk result (length self.new.slots.items ≡ length self.old.slots.items) }
    {
        let cell = clause_of(alloc, self.cells.as_slice(), address)?;
        let own = &mut self.rings[ring as usize];
        own.held.push(cell)?;
        remove_at(&mut own.making, address);
        set_count(&mut self.cells, address, 1);
        Ok(())
    }

    /// The ring holds the cell once more.
    pub(crate) fn share(
        &mut self,
        alloc: Global,
        origin: &Origin,
        ring: u32,
        address: u64,
    ) -> Result<(), AllocError>
        requires kept { Kept (data_of origin.now self.old) }
        requires enabled { IsEnabled (state_of (data_of origin.now self.old)) (Share ring address) }
        ensures after { OnOk result (state_of (data_of origin.now self.new) ≡ after (state_of (data_of origin.now self.old)) (Share ring address)) }
        ensures logged { OnOk result (Logged (data_of origin.now self.new)) }
        ensures wide { OnOk result (length self.new.slots.items ≡ length self.old.slots.items) }
    {
        let found = count_of(self.cells.as_slice(), address);
        let cell = clause_of(alloc, self.cells.as_slice(), address)?;
        let own = &mut self.rings[ring as usize];
        own.held.push(cell)?;
        own.shared += 1;
        set_count(&mut self.cells, address, found + 1);
        Ok(())
    }

    /// The ring holds the cell once less.
    pub(crate) fn drop_count(
        &mut self,
        alloc: Global,
        origin: &Origin,
        ring: u32,
        address: u64,
    ) -> Result<(), AllocError>
        requires kept { Kept (data_of origin.now self.old) }
        requires enabled { IsEnabled (state_of (data_of origin.now self.old)) (DropCount ring address) }
        ensures after { OnOk result (state_of (data_of origin.now self.new) ≡ after (state_of (data_of origin.now self.old)) (DropCount ring address)) }
        ensures logged { OnOk result (Logged (data_of origin.now self.new)) }
        ensures wide { OnOk result (length self.new.slots.items ≡ length self.old.slots.items) }
    {
        let found = count_of(self.cells.as_slice(), address);
        let cell = clause_of(alloc, self.cells.as_slice(), address)?;
        let own = &mut self.rings[ring as usize];
        remove_at(&mut own.held, address);
        add_where(&mut own.waiting, cell, found == 1)?;
        set_count(&mut self.cells, address, found - 1);
        Ok(())
    }

    /// The clause is deleted, and its cell gone.
    pub(crate) fn bury(
        &mut self,
        alloc: Global,
        origin: &Origin,
        ring: u32,
        address: u64,
    ) -> Result<(), AllocError>
        requires kept { Kept (data_of origin.now self.old) }
        requires enabled { IsEnabled (state_of (data_of origin.now self.old)) (Bury ring address) }
        ensures after { OnOk result (state_of (data_of origin.now self.new) ≡ after (state_of (data_of origin.now self.old)) (Bury ring address)) }
        ensures logged { OnOk result (Logged (data_of origin.now self.new)) }
        ensures wide { OnOk result (length self.new.slots.items ≡ length self.old.slots.items) }
    {
        let number = number_of(self.cells.as_slice(), address);
        let lits = lits_of(alloc, self.cells.as_slice(), address)?;
        self.journal.push(Entry::Del { ring, number })?;
        self.lines.push(Line::Del(lits))?;
        remove_cell(&mut self.cells, address);
        let own = &mut self.rings[ring as usize];
        remove_at(&mut own.waiting, address);
        Ok(())
    }

    /// The slot has the cell, and the ring what was there.
    pub(crate) fn put(
        &mut self,
        alloc: Global,
        origin: &Origin,
        ring: u32,
        to: u32,
        class: u8,
        place: u32,
        address: u64,
    ) -> Result<(), AllocError>
        requires kept { Kept (data_of origin.now self.old) }
        requires enabled { IsEnabled (state_of (data_of origin.now self.old)) (Put ring to class place address) }
        ensures after { OnOk result (state_of (data_of origin.now self.new) ≡ after (state_of (data_of origin.now self.old)) (Put ring to class place address)) }
        ensures logged { OnOk result (Logged (data_of origin.now self.new)) }
        ensures wide { OnOk result (length self.new.slots.items ≡ length self.old.slots.items) }
    {
        let slot = self.slot_of(origin, ring, to, class, place);
        let found = self.found_in(alloc, slot)?;
        let own = &mut self.rings[ring as usize];
        remove_at(&mut own.held, address);
        add_cell(&mut own.held, found)?;
        own.puts.push(PutNote {
            to,
            class,
            place,
            address,
        })?;
        self.slots[slot] = address;
        Ok(())
    }

    /// The slot is empty, and the ring has what was there.
    pub(crate) fn get(
        &mut self,
        alloc: Global,
        origin: &Origin,
        ring: u32,
        from: u32,
        class: u8,
        place: u32,
    ) -> Result<(), AllocError>
        requires kept { Kept (data_of origin.now self.old) }
        requires enabled { IsEnabled (state_of (data_of origin.now self.old)) (Get ring from class place) }
        ensures after { OnOk result (state_of (data_of origin.now self.new) ≡ after (state_of (data_of origin.now self.old)) (Get ring from class place)) }
        ensures logged { OnOk result (Logged (data_of origin.now self.new)) }
        ensures wide { OnOk result (length self.new.slots.items ≡ length self.old.slots.items) }
    {
        let slot = self.slot_of(origin, from, ring, class, place);
        let found = self.found_in(alloc, slot)?;
        let own = &mut self.rings[ring as usize];
        add_cell(&mut own.held, found)?;
        self.slots[slot] = 0;
        Ok(())
    }

    /// The unit is listed, and the ring has seen it.
    pub(crate) fn publish(
        &mut self,
        origin: &Origin,
        ring: u32,
        lit: Lit,
        number: u64,
    ) -> Result<(), AllocError>
        requires kept { Kept (data_of origin.now self.old) }
        requires enabled { IsEnabled (state_of (data_of origin.now self.old)) (Publish ring lit number) }
        ensures after { OnOk result (state_of (data_of origin.now self.new) ≡ after (state_of (data_of origin.now self.old)) (Publish ring lit number)) }
        ensures logged { OnOk result (Logged (data_of origin.now self.new)) }
        ensures wide { OnOk result (length self.new.slots.items ≡ length self.old.slots.items) }
    {
        self.units.push(lit)?;
        self.numbers.push(number)?;
        let own = &mut self.rings[ring as usize];
        own.seen.push(lit)?;
        own.numbers.push(number)?;
        Ok(())
    }

    /// The ring has seen the next unit.
    pub(crate) fn see(&mut self, origin: &Origin, ring: u32) -> Result<(), AllocError>
        requires kept { Kept (data_of origin.now self.old) }
        requires enabled { IsEnabled (state_of (data_of origin.now self.old)) (See ring) }
        ensures after { OnOk result (state_of (data_of origin.now self.new) ≡ after (state_of (data_of origin.now self.old)) (See ring)) }
        ensures logged { OnOk result (Logged (data_of origin.now self.new)) }
        ensures wide { OnOk result (length self.new.slots.items ≡ length self.old.slots.items) }
    {
        let own = &mut self.rings[ring as usize];
        let place = own.seen.len();
        own.seen.push(self.units.as_slice()[place])?;
        own.numbers.push(self.numbers.as_slice()[place])?;
        Ok(())
    }

    /// The stop is set, if none stands.
    pub(crate) fn set_stop(&mut self, origin: &Origin, ring: u32, kind: u8)
        requires kept { Kept (data_of origin.now self.old) }
        requires enabled { IsEnabled (state_of (data_of origin.now self.old)) (StopEvent ring kind) }
        ensures after { state_of (data_of origin.now self.new) ≡ after (state_of (data_of origin.now self.old)) (StopEvent ring kind) }
        ensures logged { Logged (data_of origin.now self.new) }
        ensures wide { length self.new.slots.items ≡ length self.old.slots.items }
    {
        if self.stop.is_none() {
            self.stop = Some(Stop { kind, ring });
        }
    }
}
