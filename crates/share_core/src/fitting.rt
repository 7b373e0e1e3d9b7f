//! Whether a round may begin with given deletions, start clauses and units.
//! The executable core, which the program never runs: it makes the definitions of specs/ run, for tests.
ghost use Rattle.std.specs.Prelude.{◌≡◌, ℕ, ◌≤◌, ◌+◌, ◌==◌, ◌||◌, ◌&&◌, ◌∷◌, [], length, true, Some, IfOk, IfSome};
ghost use Rattle.std.specs.List.{list_any, list_all};
ghost use Rattle.sat_words.specs.Literal.{same};
ghost use Rattle.sat_words.specs.Clause.{clause_of, distinct_lits, two_or_more};
ghost use Rattle.rup_model.specs.Journal.{book, is_told};
ghost use Rattle.share_core.specs.declared.stored.ClauseAt.{ClauseAt};
ghost use Rattle.share_core.specs.declared.ring.RingState.{RingState};
ghost use Rattle.share_core.specs.Machine.{data_of, state_of, Kept};
ghost use Rattle.share_core.specs.State.{ArePaired, unit_lits, unit_numbers};
ghost use Rattle.share_core.specs.NextRound.{is_deletion, IsDeletion, AreDeletions, AreDeleted, may_start, stand_apart, MayBegin};

use crate::guards::{are_distinct, is_long, is_unit};
use crate::items::Items;
use crate::journal::{is_told, some_adds_empty};
use crate::openings::unit_lits;
use crate::progress::{Origin, Progress};
use crate::ring::RingState;
use crate::round_line::RoundLine;
use crate::rounds::{clause_under, in_order, is_spare, numbers_of, starts_in};
use crate::stored::ClauseAt;
use rup_model::{ClauseNumbers, Entry, RULER_RING, Round};
use sat_words::{Clause, Lit, Lits, MAX_ENTRIES};
use std::alloc::{AllocError, Global};

/// Whether no ring builds a cell.
fn is_still(rings: &[RingState]) -> bool
    ensures { result ≡ list_all (λ (x : RingState). length x.making == 0) rings.now }
{
    rings.iter().all(|x| x.making.len() == 0)
}

fn are_copies(lits: &[Lit], lit: Lit) -> bool
    ensures { result ≡ list_all (same lit) lits.now }
{
    lits.iter().all(|k| lit == *k)
}

/// Whether it has two literals or more that differ.
fn has_two(lits: &[Lit]) -> bool
    ensures { result ≡ two_or_more lits.now }
{
    match lits {
        [] => false,
        [first, rest @ ..] => !are_copies(rest, *first),
    }
}

/// Whether the literals are in the order of `Clause`.
fn is_in_order(alloc: Global, lits: &Lits) -> Result<bool, AllocError>
    ensures { IfOk result (λ yes. (yes ≡ true → clause_of lits.now ≡ lits.now) × (clause_of lits.now ≡ lits.now → yes ≡ true)) }
{
    Ok(in_order(alloc, lits.as_slice())? == *lits)
}

/// The number that the line deletes, if it deletes a clause of two literals or more in order, and is that of a spare copy.
fn deleted_by(
    alloc: Global,
    clauses: &[Clause],
    journal: &[Entry],
    kept: &[u64],
    line: &RoundLine,
) -> Result<Option<u64>, AllocError>
    requires { length journal.now ≤ MAX_ENTRIES }
    ensures found { IfOk result (λ found. IfSome found (λ n. IsDeletion (book clauses.now journal.now) kept.now line.now n)) }
    ensures each { (n : ℕ) → IsDeletion (book clauses.now journal.now) kept.now line.now n → IfOk result (λ found. found ≡ Some n) }
{
    match line {
        RoundLine::Add { .. } => Ok(None),
        RoundLine::Del { number, lits } => {
            if !has_two(lits.as_slice()) || !is_in_order(alloc, lits)? {
                return Ok(None);
            }
            if !is_spare(alloc, clauses, journal, kept, lits.as_slice(), *number)? {
                return Ok(None);
            }
            Ok(Some(*number))
        }
    }
}

/// Notes the deletions after the journal, and says whether all of them could be noted.
fn note_deletions(
    alloc: Global,
    clauses: &[Clause],
    kept: &[u64],
    lines: &[RoundLine],
    journal: &mut Items<Entry>,
) -> Result<bool, AllocError>
    requires { length journal.old + length lines.now ≤ MAX_ENTRIES }
    ensures noted { IfOk result (λ yes. yes ≡ true → AreDeleted clauses.now journal.old kept.now lines.now journal.new) }
    ensures each { AreDeletions clauses.now journal.old kept.now lines.now → IfOk result (λ yes. yes ≡ true) }
{
    for line in lines {
        let Some(number) = deleted_by(alloc, clauses, journal.as_slice(), kept, line)? else {
            return Ok(false);
        };
        journal.push(Entry::Del {
            ring: RULER_RING,
            number,
        })?;
    }
    Ok(true)
}

fn may_start(s: &ClauseAt) -> bool
    ensures { result ≡ may_start s.now }
{
    s.address != 0 && is_long(s.lits.as_slice())
}

fn all_may_start(starts: &[ClauseAt]) -> bool
    ensures { result ≡ list_all may_start starts.now }
{
    starts.iter().all(|s| may_start(s))
}

fn stands_among(s: &ClauseAt, starts: &[ClauseAt]) -> bool
    ensures { result ≡ list_any (λ (h : ClauseAt). (h.address == s.now.address) || (h.number == s.now.number)) starts.now }
{
    starts
        .iter()
        .any(|h| h.address == s.address || h.number == s.number)
}

fn stand_apart(starts: &[ClauseAt]) -> bool
    ensures { result ≡ stand_apart starts.now }
{
    match starts {
        [] => true,
        [first, rest @ ..] => !stands_among(first, rest) && stand_apart(rest),
    }
}

fn all_told(clauses: &[Clause], journal: &[Entry], units: &[Lit]) -> bool
    ensures { result ≡ list_all (is_told clauses.now journal.now) units.now }
{
    units.iter().all(|lit| is_told(clauses, journal, *lit))
}

/// Whether each unit has the number of a clause that is this unit.
fn are_paired(
    alloc: Global,
    clauses: &[Clause],
    journal: &[Entry],
    units: &[(Lit, u64)],
) -> Result<bool, AllocError>
    requires { length journal.now ≤ MAX_ENTRIES }
    ensures paired { IfOk result (λ yes. yes ≡ true → ArePaired (book clauses.now journal.now) (unit_lits units.now) (unit_numbers units.now)) }
    ensures each { ArePaired (book clauses.now journal.now) (unit_lits units.now) (unit_numbers units.now) → IfOk result (λ yes. yes ≡ true) }
{
    for unit in units {
        let clause = clause_under(alloc, clauses, journal, unit.1)?;
        if !is_unit(&clause, unit.0) {
            return Ok(false);
        }
    }
    Ok(true)
}

/// Whether rings may start with these after the journal, if the clauses are alive.
fn all_fit(clauses: &[Clause], journal: &[Entry], starts: &[ClauseAt], units: &[Lit]) -> bool
    ensures { result ≡ (list_all may_start starts.now && (stand_apart starts.now && (list_all (is_told clauses.now journal.now) units.now && distinct_lits units.now))) }
{
    all_may_start(starts)
        && stand_apart(starts)
        && all_told(clauses, journal, units)
        && are_distinct(units)
}

/// Whether the next round may begin with these. An addition among the lines makes the answer no.
pub(crate) fn may_begin(
    alloc: Global,
    origin: &Origin,
    progress: &Progress,
    lines: &[RoundLine],
    start: &[(u64, u64)],
    units: &[(Lit, u64)],
    limit: u64,
) -> Result<bool, AllocError>
    requires { Kept (data_of origin.now progress.now) }
    ensures sound { IfOk result (λ yes. yes ≡ true → MayBegin (state_of (data_of origin.now progress.now)) lines.now start.now units.now limit) }
    ensures deletions { IfOk result (λ yes. yes ≡ true → list_all is_deletion lines.now ≡ true) }
    ensures each { list_all is_deletion lines.now ≡ true → MayBegin (state_of (data_of origin.now progress.now)) lines.now start.now units.now limit → IfOk result (λ yes. yes ≡ true) }
{
    let clauses = origin.formula.clauses();
    let mut journal = progress.journal.copied(alloc)?;
    if !is_still(progress.rings.as_slice())
        || some_adds_empty(journal.as_slice())
        || limit > 1 << 63
        || journal.len() as u64 >= MAX_ENTRIES
        || lines.len() as u64 >= MAX_ENTRIES - journal.len() as u64
    {
        return Ok(false);
    }
    let kept = numbers_of(alloc, start)?;
    if !note_deletions(alloc, clauses, kept.as_slice(), lines, &mut journal)? {
        return Ok(false);
    }
    let listed = unit_lits(alloc, units)?;
    journal.push(Entry::Round(Round {
        starts: ClauseNumbers::from_slice(alloc, kept.as_slice())?,
        units: Lits::from_slice(alloc, listed.as_slice())?,
    }))?;
    let starts = starts_in(alloc, clauses, journal.as_slice(), start)?;
    if !are_paired(alloc, clauses, journal.as_slice(), units)? {
        return Ok(false);
    }
    Ok(all_fit(
        clauses,
        journal.as_slice(),
        starts.as_slice(),
        listed.as_slice(),
    ))
}
