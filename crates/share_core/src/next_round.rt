//! The core at the beginning of its next round.
//! The executable core, which the program never runs: it makes the definitions of specs/ run, for tests.
ghost use Rattle.std.specs.Prelude.{◌≡◌, ◌++◌, map, IfOk, List, ℕ, All, true};
ghost use Rattle.std.specs.List.{list_all};
ghost use Rattle.rup_model.specs.declared.journal.Entry.{Entry};
ghost use Rattle.rup_model.specs.Journal.{lines as lines_of};
ghost use Rattle.share_core.specs.State.{opened};
ghost use Rattle.share_core.specs.Machine.{state_of};
ghost use Rattle.share_core.specs.NextRound.{line_of, NoneBuilt, IsInOrder, IsNextRound, is_deletion, MayBegin, next_opening};

use crate::fitting::may_begin;
use crate::openings::{opened, unit_lits};
use crate::progress::{Origin, Progress};
use crate::round_line::RoundLine;
use crate::rounds::{note_lines, numbers_of, starts_in};
use crate::running::Core;
use rup_model::{ClauseNumbers, Entry, Round};
use sat_words::{Lit, Lits};
use std::alloc::{AllocError, Global};

impl Core {
    /// Whether the next round may begin with these. An addition among the lines makes the answer no.
    pub fn may_begin(
        &self,
        alloc: Global,
        lines: &[RoundLine],
        start: &[(u64, u64)],
        units: &[(Lit, u64)],
        limit: u64,
    ) -> Result<bool, AllocError>
        ensures sound { IfOk result (λ yes. yes ≡ true → MayBegin (state_of self.now) lines.now start.now units.now limit) }
        ensures deletions { IfOk result (λ yes. yes ≡ true → list_all is_deletion lines.now ≡ true) }
        ensures each { list_all is_deletion lines.now ≡ true → MayBegin (state_of self.now) lines.now start.now units.now limit → IfOk result (λ yes. yes ≡ true) }
    {
        may_begin(
            alloc,
            &self.origin,
            &self.progress,
            lines,
            start,
            units,
            limit,
        )
    }

    /// The machine before the first event of the next round. The ruler's lines are added to the log. Start clauses are given
    /// by their addresses and their numbers, and are from then on spelled in the order of `Clause`. Nothing is left of the
    /// cells, slots, listed units, tickets and stop; there are as many rings and slots, and hints or none as before. After an
    /// error nothing is left.
    pub fn next_round(
        self,
        alloc: Global,
        lines: &[RoundLine],
        start: &[(u64, u64)],
        units: &[(Lit, u64)],
        limit: u64,
    ) -> Result<Core, AllocError>
        requires built { NoneBuilt (state_of self) }
        requires ordered { All IsInOrder lines.now }
        requires opens { (E : List Entry) × IsNextRound (state_of self) lines.now start.now units.now limit E }
        ensures opened { (E : List Entry) → IsNextRound (state_of self) lines.now start.now units.now limit E → IfOk result (λ core. state_of core ≡ opened (next_opening (state_of self) E start.now units.now limit)) }
        ensures told { IfOk result (λ core. lines_of core.formula core.journal ≡ lines_of self.formula self.journal ++ map line_of lines.now) }
    {
        let Core { origin, progress } = self;
        let Origin {
            formula,
            depth,
            hinted,
            ..
        } = origin;
        let Progress {
            mut journal,
            lines: mut told,
            rings,
            ..
        } = progress;
        let kept = numbers_of(alloc, start)?;
        let listed = unit_lits(alloc, units)?;
        note_lines(alloc, formula.clauses(), lines, &mut journal, &mut told)?;
        journal.push(Entry::Round(Round {
            starts: ClauseNumbers::from_slice(alloc, kept.as_slice())?,
            units: Lits::from_slice(alloc, listed.as_slice())?,
        }))?;
        let starts = starts_in(alloc, formula.clauses(), journal.as_slice(), start)?;
        opened(
            alloc,
            formula,
            journal,
            told,
            starts,
            units,
            rings.len() as u32,
            depth,
            limit,
            hinted,
        )
    }
}
