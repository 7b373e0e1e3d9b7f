//! What a journal says, by scans.
//! The executable core, which the program never runs: it makes the definitions of specs/ run, for tests.
ghost use Rattle.std.specs.Prelude.{◌≡◌, ◌≤◌, ◌<◌, ◌+◌, ◌&&◌, ◌==◌, ◌∷◌, [], length, List, IfOk};
ghost use Rattle.std.specs.List.{list_any, list_all};
ghost use Rattle.sat_words.specs.Literal.{Literal, same};
ghost use Rattle.sat_words.specs.Clause.{has, is_empty, same_set, includes};
ghost use Rattle.std.specs.Option.{is_some};
ghost use Rattle.rup_model.specs.Journal.{addition, book, ended, is_told, is_learn, recent_after, recent};
ghost use Rattle.share_core.specs.Machine.{adds};

use crate::items::Copied;
use rup_model::{Addition, ClauseNumbers, Entry, Kind, Round};
use sat_words::{Clause, Line, Lit, Lits, MAX_ENTRIES};
use std::alloc::{AllocError, Global};

impl Copied for Entry {
    fn copied(&self, alloc: Global) -> Result<Entry, AllocError> {
        match self {
            Entry::Add(x) => Ok(Entry::Add(Addition {
                ring: x.ring,
                number: x.number,
                lits: Lits::from_slice(alloc, x.lits.as_slice())?,
                kind: x.kind,
                hints: ClauseNumbers::from_slice(alloc, x.hints.as_slice())?,
            })),
            Entry::Del { ring, number } => Ok(Entry::Del {
                ring: *ring,
                number: *number,
            }),
            Entry::Reduce { ring } => Ok(Entry::Reduce { ring: *ring }),
            Entry::Round(x) => Ok(Entry::Round(Round {
                starts: ClauseNumbers::from_slice(alloc, x.starts.as_slice())?,
                units: Lits::from_slice(alloc, x.units.as_slice())?,
            })),
        }
    }
}

impl Copied for Line {
    fn copied(&self, alloc: Global) -> Result<Line, AllocError> {
        match self {
            Line::Add(lits) => Ok(Line::Add(Lits::from_slice(alloc, lits.as_slice())?)),
            Line::Del(lits) => Ok(Line::Del(Lits::from_slice(alloc, lits.as_slice())?)),
        }
    }
}

/// Whether the literal is in the clause.
pub(crate) fn contains(clause: &[Lit], lit: Lit) -> bool
    ensures { result ≡ has clause.now lit }
{
    clause.iter().any(|k| lit == *k)
}

/// Whether each literal of the second is in the first.
pub(crate) fn includes(clause: &[Lit], lits: &[Lit]) -> bool
    ensures { result ≡ includes clause.now lits.now }
{
    lits.iter().all(|lit| contains(clause, *lit))
}

fn are_all(lits: &[Lit], lit: Lit) -> bool
    ensures { result ≡ list_all (λ k. same k lit) lits.now }
{
    lits.iter().all(|k| *k == lit)
}

/// Whether the clause has this literal alone, however often.
fn is_unit(lits: &[Lit], lit: Lit) -> bool
    ensures { result ≡ same_set (lit ∷ []) lits.now }
{
    contains(lits, lit) && are_all(lits, lit)
}

fn has_empty(clauses: &[Clause]) -> bool
    ensures { result ≡ list_any is_empty clauses.now }
{
    clauses.iter().any(|clause| clause.lits().is_empty())
}

fn has_unit(clauses: &[Clause], lit: Lit) -> bool
    ensures { result ≡ list_any (same_set (lit ∷ [])) clauses.now }
{
    clauses.iter().any(|clause| is_unit(clause.lits(), lit))
}

fn adds_empty(entry: &Entry) -> bool
    ensures { result ≡ adds is_empty entry.now }
{
    match entry {
        Entry::Add(x) => x.lits.as_slice().is_empty(),
        Entry::Del { .. } | Entry::Reduce { .. } | Entry::Round(_) => false,
    }
}

fn adds_unit(entry: &Entry, lit: Lit) -> bool
    ensures { result ≡ adds (same_set (lit ∷ [])) entry.now }
{
    match entry {
        Entry::Add(x) => is_unit(x.lits.as_slice(), lit),
        Entry::Del { .. } | Entry::Reduce { .. } | Entry::Round(_) => false,
    }
}

/// Whether the empty clause was added.
pub(crate) fn some_adds_empty(journal: &[Entry]) -> bool
    ensures { result ≡ list_any (adds is_empty) journal.now }
{
    journal.iter().any(|entry| adds_empty(entry))
}

fn some_adds_unit(journal: &[Entry], lit: Lit) -> bool
    ensures { result ≡ list_any (adds (same_set (lit ∷ []))) journal.now }
{
    journal.iter().any(|entry| adds_unit(entry, lit))
}

/// Whether the empty clause was given or added.
pub(crate) fn is_ended(clauses: &[Clause], journal: &[Entry]) -> bool
    ensures { result ≡ ended clauses.now journal.now }
{
    has_empty(clauses) || some_adds_empty(journal)
}

/// Whether the unit was given or added.
pub(crate) fn is_told(clauses: &[Clause], journal: &[Entry], lit: Lit) -> bool
    ensures { result ≡ is_told clauses.now journal.now lit }
{
    has_unit(clauses, lit) || some_adds_unit(journal, lit)
}

fn is_learned_by(x: &Addition, ring: u32) -> bool
    ensures { result ≡ ((x.now.ring == ring) && is_learn x.now.kind) }
{
    x.ring == ring
        && match x.kind {
            Kind::Learn => true,
            Kind::Ruler | Kind::Derive | Kind::UnitLine => false,
        }
}

/// How many clauses the ring learned since it last reduced, after one more entry.
fn count_after(count: usize, entry: &Entry, ring: u32) -> usize
    requires { count < usize.MAX }
    ensures counted { (cs : List (List Literal)) → count ≡ length cs → result ≡ length (recent_after ring cs entry.now) }
    ensures few { result ≤ count + 1 }
{
    match entry {
        Entry::Add(x) => {
            if is_learned_by(x, ring) {
                count + 1
            } else {
                count
            }
        }
        Entry::Del { .. } | Entry::Round(_) => count,
        Entry::Reduce { ring: other } => { if *other == ring { 0 } else { count } }
    }
}

/// How many clauses the ring learned since it last reduced.
pub(crate) fn count_recent(journal: &[Entry], ring: u32) -> usize
    ensures { result ≡ length (recent ring journal.now) }
{
    let mut count: usize = 0;
    for entry in journal {
        count = count_after(count, entry, ring);
    }
    count
}

/// Whether the literals include a clause that the ring learned since it last reduced, after one more entry.
fn repeats_after(yet: bool, entry: &Entry, ring: u32, lits: &[Lit]) -> bool
    ensures { (cs : List (List Literal)) → yet ≡ list_any (includes lits.now) cs → result ≡ list_any (includes lits.now) (recent_after ring cs entry.now) }
{
    match entry {
        Entry::Add(x) => yet || (is_learned_by(x, ring) && includes(lits, x.lits.as_slice())),
        Entry::Del { .. } | Entry::Round(_) => yet,
        Entry::Reduce { ring: other } => yet && *other != ring,
    }
}

/// Whether the literals include a clause that the ring learned since it last reduced.
pub(crate) fn repeats_recent(journal: &[Entry], ring: u32, lits: &[Lit]) -> bool
    ensures { result ≡ list_any (includes lits.now) (recent ring journal.now) }
{
    let mut repeats = false;
    for entry in journal {
        repeats = repeats_after(repeats, entry, ring, lits);
    }
    repeats
}

/// Whether it is an addition.
pub(crate) fn adds_clause(entry: &Entry) -> bool
    ensures { result ≡ is_some (addition entry.now) }
{
    match entry {
        Entry::Add(_) => true,
        Entry::Del { .. } | Entry::Reduce { .. } | Entry::Round(_) => false,
    }
}

/// The number of the next addition.
pub(crate) fn next_number(clauses: &[Clause], journal: &[Entry]) -> u64
    requires { length journal.now ≤ MAX_ENTRIES }
    ensures { result ≡ (book clauses.now journal.now).next }
{
    let mut next = clauses.len() as u64 + 1;
    for entry in journal {
        if adds_clause(entry) {
            next += 1;
        }
    }
    next
}
