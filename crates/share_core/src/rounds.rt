//! The next round: what the ruler's lines become, and the core that is opened after them.
//! The executable core, which the program never runs: it makes the definitions of specs/ run, for tests.
ghost use Rattle.std.specs.Prelude.{◌≡◌, ◌≤◌, ◌+◌, ◌==◌, ◌++◌, length, List, ℕ, map, IfOk, OnOk};
ghost use Rattle.std.specs.List.{list_any};
ghost use Rattle.std.specs.Option.{option_map};
ghost use Rattle.sat_words.specs.Clause.{clause_of};
ghost use Rattle.rup_model.specs.declared.journal.Entry.{Entry};
ghost use Rattle.rup_model.specs.Journal.{Book, book_after, book, formula_clause, spelled};
ghost use Rattle.share_core.specs.NextRound.{line_of, has_lits, is_spare, entry_of, AreEntriesOf, start_in, numbers_of};

use crate::items::Items;
use crate::journal::{adds_clause, includes, next_number};
use crate::round_line::RoundLine;
use crate::stored::ClauseAt;
use rup_model::{Addition, ClauseNumbers, Entry, Kind, RULER_RING};
use sat_words::{Clause, Line, Lit, Lits, MAX_ENTRIES};
use std::alloc::{AllocError, Global};

fn is_among(numbers: &[u64], number: u64) -> bool
    ensures { result ≡ list_any (λ m. m == number) numbers.now }
{
    numbers.iter().any(|m| *m == number)
}

/// The literals in the order of `Clause`.
pub(crate) fn in_order(alloc: Global, lits: &[Lit]) -> Result<Lits, AllocError>
    ensures { IfOk result (λ c. c ≡ clause_of lits.now) }
{
    let clause = Clause::from_lits(alloc, lits)?;
    Lits::from_slice(alloc, clause.lits())
}

/// The clause as the one who added it spells it.
fn spelled(alloc: Global, x: &Addition) -> Result<Lits, AllocError>
    ensures { IfOk result (λ c. c ≡ spelled x.now) }
{
    if x.ring == RULER_RING {
        return in_order(alloc, x.lits.as_slice());
    }
    Lits::from_slice(alloc, x.lits.as_slice())
}

/// The clause in the order of `Clause`.
fn respelled(alloc: Global, clause: Option<Lits>) -> Result<Option<Lits>, AllocError>
    ensures { IfOk result (λ c. c ≡ option_map clause_of clause) }
{
    match clause {
        Some(lits) => Ok(Some(in_order(alloc, lits.as_slice())?)),
        None => Ok(None),
    }
}

/// The formula's clause with this number.
fn given_under(alloc: Global, clauses: &[Clause], number: u64) -> Result<Option<Lits>, AllocError>
    ensures { IfOk result (λ c. c ≡ formula_clause clauses.now number) }
{
    if number == 0 || number > clauses.len() as u64 {
        return Ok(None);
    }
    let index = (number - 1) as usize;
    Ok(Some(Lits::from_slice(alloc, clauses[index].lits())?))
}

/// The clause under the number after one more entry, if the next addition has the number `next`.
fn clause_after(
    alloc: Global,
    clause: Option<Lits>,
    number: u64,
    next: u64,
    entry: &Entry,
) -> Result<Option<Lits>, AllocError>
    ensures { (b : Book) → clause ≡ b.clause number → next ≡ b.next → IfOk result (λ c. c ≡ (book_after b entry.now).clause number) }
{
    match entry {
        Entry::Add(x) => {
            if number == next {
                return Ok(Some(spelled(alloc, x)?));
            }
            Ok(clause)
        }
        Entry::Del { number: other, .. } => Ok(if number == *other { None } else { clause }),
        Entry::Reduce { .. } => Ok(clause),
        Entry::Round(x) => {
            if is_among(x.starts.as_slice(), number) {
                return respelled(alloc, clause);
            }
            Ok(clause)
        }
    }
}

/// The clause that is alive under the number after the journal.
pub(crate) fn clause_under(
    alloc: Global,
    clauses: &[Clause],
    journal: &[Entry],
    number: u64,
) -> Result<Option<Lits>, AllocError>
    requires { length journal.now ≤ MAX_ENTRIES }
    ensures { IfOk result (λ c. c ≡ (book clauses.now journal.now).clause number) }
{
    let mut clause = given_under(alloc, clauses, number)?;
    let mut next = clauses.len() as u64 + 1;
    for entry in journal {
        clause = clause_after(alloc, clause, number, next, entry)?;
        if adds_clause(entry) {
            next += 1;
        }
    }
    Ok(clause)
}

/// Whether it is a clause with these literals.
fn has_lits(clause: &Option<Lits>, lits: &[Lit]) -> bool
    ensures { result ≡ has_lits lits.now clause.now }
{
    match clause {
        Some(other) => includes(lits, other.as_slice()) && includes(other.as_slice(), lits),
        None => false,
    }
}

/// Whether the number is none of those kept, and its clause is alive and has these literals.
pub(crate) fn is_spare(
    alloc: Global,
    clauses: &[Clause],
    journal: &[Entry],
    kept: &[u64],
    lits: &[Lit],
    number: u64,
) -> Result<bool, AllocError>
    requires { length journal.now ≤ MAX_ENTRIES }
    ensures { IfOk result (λ yes. yes ≡ is_spare (book clauses.now journal.now) kept.now lits.now number) }
{
    if is_among(kept, number) {
        return Ok(false);
    }
    let clause = clause_under(alloc, clauses, journal, number)?;
    Ok(has_lits(&clause, lits))
}

/// The ruler's entry of a line after the journal.
fn entry_of(
    alloc: Global,
    clauses: &[Clause],
    journal: &[Entry],
    line: &RoundLine,
) -> Result<Entry, AllocError>
    requires { length journal.now ≤ MAX_ENTRIES }
    ensures { IfOk result (λ e. e ≡ entry_of (book clauses.now journal.now) line.now) }
{
    match line {
        RoundLine::Add { lits, hints } => Ok(Entry::Add(Addition {
            ring: RULER_RING,
            number: next_number(clauses, journal),
            lits: Lits::from_slice(alloc, lits.as_slice())?,
            kind: Kind::Ruler,
            hints: ClauseNumbers::from_slice(alloc, hints.as_slice())?,
        })),
        RoundLine::Del { number, .. } => Ok(Entry::Del {
            ring: RULER_RING,
            number: *number,
        }),
    }
}

/// The start clause with this address and number, as it is alive after the journal.
fn start_in(
    alloc: Global,
    clauses: &[Clause],
    journal: &[Entry],
    address: u64,
    number: u64,
) -> Result<ClauseAt, AllocError>
    requires { length journal.now ≤ MAX_ENTRIES }
    ensures { IfOk result (λ s. s ≡ start_in (book clauses.now journal.now) (address, number)) }
{
    let lits = match clause_under(alloc, clauses, journal, number)? {
        Some(lits) => lits,
        None => Lits::from_slice(alloc, &[])?,
    };
    Ok(ClauseAt {
        address,
        number,
        lits,
    })
}

/// The start clauses with these addresses and numbers.
pub(crate) fn starts_in(
    alloc: Global,
    clauses: &[Clause],
    journal: &[Entry],
    start: &[(u64, u64)],
) -> Result<Items<ClauseAt>, AllocError>
    requires { length journal.now ≤ MAX_ENTRIES }
    ensures { IfOk result (λ hs. hs ≡ map (start_in (book clauses.now journal.now)) start.now) }
{
    let mut starts = Items::new(alloc);
    for pair in start {
        starts.push(start_in(alloc, clauses, journal, pair.0, pair.1)?)?;
    }
    Ok(starts)
}

/// The numbers of the start clauses.
pub(crate) fn numbers_of(alloc: Global, start: &[(u64, u64)]) -> Result<Vec<u64>, AllocError>
    ensures { IfOk result (λ ns. ns.items ≡ numbers_of start.now) }
{
    let mut numbers = Vec::new(alloc);
    for pair in start {
        numbers.push(pair.1)?;
    }
    Ok(numbers)
}

/// Notes the ruler's lines after the journal, each by its entry.
pub(crate) fn note_lines(
    alloc: Global,
    clauses: &[Clause],
    lines: &[RoundLine],
    journal: &mut Items<Entry>,
    told: &mut Items<Line>,
) -> Result<(), AllocError>
    requires { length journal.old + length lines.now ≤ MAX_ENTRIES }
    ensures entries { (kept : List ℕ) (E : List Entry) → AreEntriesOf clauses.now journal.old kept lines.now E → OnOk result (journal.new ≡ journal.old ++ E) }
    ensures told { OnOk result (told.new ≡ told.old ++ map line_of lines.now) }
{
    for line in lines {
        let entry = entry_of(alloc, clauses, journal.as_slice(), line)?;
        journal.push(entry)?;
        told.push(line.line(alloc)?)?;
    }
    Ok(())
}
