//! What is alive after the lines of a proof in LRAT: an addition has the next number, and hints that show that its clause follows
//! from those alive; a deletion names a clause that is alive.
use crate::words::{clause_number, hints_of, literals_of, read_line};
use rup_model::is_hinted;
use sat_words::{Clause, Formula, Lit};
use std::alloc::{AllocError, Global};

/// What is alive after some lines.
#[derive(Drop)]
pub struct Follower {
    alloc: Global,
    vars: u32,
    /// The clauses in the order of their numbers, from 1, without those that were deleted.
    clauses: Vec<Option<Clause>>,
    lines: u64,
    deletions: u64,
    refuted: bool,
}

impl Follower {
    /// Before the first line: the formula's clauses, numbered from 1.
    pub fn new(alloc: Global, formula: &Formula) -> Result<Self, AllocError> {
        let mut clauses = Vec::new(alloc);
        for clause in formula.clauses() {
            clauses.push(Some(Clause::from_lits(alloc, clause.lits())?))?;
        }
        Ok(Follower {
            alloc,
            vars: formula.vars(),
            clauses,
            lines: 0,
            deletions: 0,
            refuted: false,
        })
    }

    /// How many lines were followed.
    pub fn lines(&self) -> u64 {
        self.lines
    }

    /// How many clauses were deleted.
    pub fn deletions(&self) -> u64 {
        self.deletions
    }

    /// Whether the clause added last is empty.
    pub fn is_refuted(&self) -> bool {
        self.refuted
    }

    /// The last number given.
    pub fn last(&self) -> u64 {
        self.clauses.len() as u64
    }

    /// The clauses in the order of their numbers, from 1, without those that were deleted.
    pub fn clauses(&self) -> &[Option<Clause>] {
        self.clauses.as_slice()
    }

    /// The clause with this number, if it is alive.
    pub fn clause(&self, number: u64) -> Option<&Clause> {
        let place = number.checked_sub(1)?;
        self.clauses.get(place as usize)?.as_ref()
    }

    /// Copies of those of the clauses with these numbers that are alive, each with its number.
    fn named(&self, numbers: &[u64]) -> Result<Vec<(u64, Clause)>, AllocError> {
        let mut named = Vec::new(self.alloc);
        for number in numbers {
            if let Some(clause) = self.clause(*number) {
                named.push((*number, Clause::from_lits(self.alloc, clause.lits())?))?;
            }
        }
        Ok(named)
    }

    /// Whether the hints show that the clause follows from those alive.
    fn shows(&self, lits: &[Lit], hints: &[u64]) -> Result<bool, AllocError> {
        let named = self.named(hints)?;
        is_hinted(self.alloc, named.as_slice(), lits, hints)
    }

    /// Adds the clause with this number, whose literals come first, and its hints after a 0.
    fn add(&mut self, number: u64, rest: &[i32]) -> Result<bool, AllocError> {
        let Some(end) = rest.iter().position(|number| *number == 0) else {
            return Ok(false);
        };
        let Some(lits) = literals_of(self.alloc, self.vars, &rest[..end])? else {
            return Ok(false);
        };
        let Some(hints) = hints_of(self.alloc, &rest[end + 1..])? else {
            return Ok(false);
        };
        if !self.shows(lits.as_slice(), hints.as_slice())?
            || number != self.last().saturating_add(1)
        {
            return Ok(false);
        }
        self.refuted = lits.is_empty();
        let clause = Clause::from_lits(self.alloc, lits.as_slice())?;
        self.clauses.push(Some(clause))?;
        Ok(true)
    }

    /// Deletes the clause with this number, if it is alive.
    fn delete(&mut self, number: i32) -> bool {
        let Some(place) = clause_number(number).and_then(|number| number.checked_sub(1)) else {
            return false;
        };
        let place = place as usize;
        if place >= self.clauses.len() || self.clauses[place].is_none() {
            return false;
        }
        self.clauses[place] = None;
        self.deletions = self.deletions.saturating_add(1);
        true
    }

    /// Follows a line, if it may come next.
    fn follow(&mut self, line: &[u8]) -> Result<bool, AllocError> {
        self.lines = self.lines.saturating_add(1);
        let Some((deletes, numbers)) = read_line(self.alloc, line)? else {
            return Ok(false);
        };
        match (deletes, numbers.as_slice()) {
            (false, [first, rest @ ..]) => match clause_number(*first) {
                Some(number) => self.add(number, rest),
                None => Ok(false),
            },
            (true, [first, number, 0]) => {
                Ok(clause_number(*first) == Some(self.last()) && self.delete(*number))
            }
            _ => Ok(false),
        }
    }

    /// Follows all lines, each of which ends with a newline. False where one may not come next.
    pub fn follow_all(&mut self, text: &[u8]) -> Result<bool, AllocError> {
        for line in text.split(|byte| *byte == b'\n') {
            if !line.is_empty() && !self.follow(line)? {
                return Ok(false);
            }
        }
        Ok(true)
    }
}
