// What a call comes to: its verdict, how it ended, and what it reports.
ghost use Rattle.std.specs.Prelude.{◌≡◌, ◌↔◌, ◌≤◌, ◌<◌, List, ℕ, length, replicate, slice_set, IfOk, []};
ghost use Rattle.std.specs.declared.io.ErrorKind.{ErrorKind};
ghost use Rattle.top_call.specs.Ends.{status_of, IsWordsEnd};
ghost use Rattle.top_call.specs.Tallied.{no_tally, zero_tally, counted, noted, HasRings};

use dimacs_read::Code;
use ring_run::Counts;
use sat_words::{Assignment, NoRoom};
use std::alloc::{AllocError, Global};
use std::io;
use std::marker::Model;

/// What the search found of the clauses.
#[derive(Drop)]
pub enum SearchVerdict {
    /// This assignment makes each clause true.
    Satisfiable(Assignment),
    /// No assignment makes each clause true, and the log shows it.
    Unsatisfiable,
    /// The rings together learned as many lemmas as they may before one knew the answer.
    Unknown,
}

/// How a call ends. Each case has its exit status.
#[derive(Drop)]
pub enum CallEnd {
    Satisfiable(Assignment),
    Unsatisfiable,
    Unknown,
    Usage,
    /// The first bad place of the input.
    BadInput {
        /// What is wrong there.
        code: Code,
        /// Its line, from 1.
        line: u64,
    },
    CannotOpen,
    CannotCreate,
    ReadFault,
    WriteFault,
    ProofFault,
    /// There was no room for a clause, or for one line more of the proof.
    Room(NoRoom),
    Memory,
}

impl CallEnd {
    /// The end of a call that is not made, because its arguments are no text: it ends as if they were refused, or memory ran out.
    pub fn of_arguments(kind: io::ErrorKind) -> CallEnd
        ensures memory { (result ≡ CallEnd.Memory) ↔ (kind ≡ ErrorKind.OutOfMemory) }
        ensures ends { IsWordsEnd result }
    {
        match kind {
            io::ErrorKind::OutOfMemory => CallEnd::Memory,
            _ => CallEnd::Usage,
        }
    }

    /// The exit status.
    pub fn status(&self) -> u8
        ensures { result ≡ status_of self.now }
    {
        match self {
            CallEnd::Satisfiable(_) => 10,
            CallEnd::Unsatisfiable => 20,
            CallEnd::Unknown => 0,
            CallEnd::Usage => 1,
            CallEnd::BadInput { .. } => 2,
            CallEnd::CannotOpen => 3,
            CallEnd::CannotCreate => 4,
            CallEnd::ReadFault => 5,
            CallEnd::WriteFault => 6,
            CallEnd::ProofFault => 7,
            CallEnd::Room(_) => 8,
            CallEnd::Memory => 9,
        }
    }
}

/// A number for each ring, in the order of the rings.
#[derive(Drop)]
pub struct RingNumbers {
    numbers: Vec<u64>,
}

impl Model for RingNumbers {
    ghost use Rattle.std.specs.Prelude.{List, ℕ};

    ghost Value = { List ℕ };

    ghost view = { λ n. n.numbers.items };
}

impl RingNumbers {
    /// No number, and no memory taken.
    pub fn new(alloc: Global) -> RingNumbers
        ensures { result ≡ [] }
    {
        RingNumbers {
            numbers: Vec::new(alloc),
        }
    }

    /// A zero for each of the rings.
    pub fn zeros(alloc: Global, rings: u32) -> Result<RingNumbers, AllocError>
        ensures { IfOk result (λ numbers. numbers ≡ replicate rings 0) }
    {
        Ok(RingNumbers {
            numbers: vec![in alloc; 0; rings as usize]?,
        })
    }

    /// Sets a ring's number.
    pub fn set(&mut self, ring: usize, number: u64)
        requires { ring < length self.old }
        ensures { self.new ≡ slice_set self.old ring number }
    {
        self.numbers[ring] = number;
    }

    /// The numbers, in the order of the rings.
    pub fn as_slice(&self) -> &[u64]
        ensures { result.now ≡ self.now }
    {
        self.numbers.as_slice()
    }
}

/// The numbers of a report. The lists have a number for each ring once the rings were to start, and are empty before.
#[derive(Drop)]
pub struct Tally {
    /// How many lemmas each ring learned, in all rounds together; so of the next two.
    pub learned: RingNumbers,
    /// How many clauses each ring put into the slots of others.
    pub offered: RingNumbers,
    /// How many of its lemmas each ring offered.
    pub exported: RingNumbers,
    /// If there was no room: the number of words that a clause needs, or the number of lines with the one that is too many.
    /// Else 0.
    pub need: u64,
    /// If there was no room: the number of words in the longest free piece, or the number of lines that a proof may have.
    /// Else 0.
    pub largest: u64,
    /// The number of the code of the input's first bad place, from 1, if the input was refused, else 0.
    pub code: u8,
    /// The line of that place, from 1, else 0.
    pub line: u64,
}

impl Tally {
    /// The tally of a call whose rings haven't started. It takes no memory.
    pub fn new(alloc: Global) -> Tally
        ensures { result ≡ no_tally }
    {
        Tally {
            learned: RingNumbers::new(alloc),
            offered: RingNumbers::new(alloc),
            exported: RingNumbers::new(alloc),
            need: 0,
            largest: 0,
            code: 0,
            line: 0,
        }
    }

    /// The tally of a call whose rings start.
    pub fn with_rings(alloc: Global, rings: u32) -> Result<Tally, AllocError>
        ensures { IfOk result (λ tally. tally ≡ zero_tally rings) }
    {
        Ok(Tally {
            learned: RingNumbers::zeros(alloc, rings)?,
            offered: RingNumbers::zeros(alloc, rings)?,
            exported: RingNumbers::zeros(alloc, rings)?,
            need: 0,
            largest: 0,
            code: 0,
            line: 0,
        })
    }

    /// Takes what the rings counted, in their order.
    pub fn count(&mut self, counts: &[Counts])
        requires { HasRings (length self.old.learned) self.old × (length counts.now ≤ length self.old.learned) }
        ensures { self.new ≡ counted counts.now self.old }
    {
        for ring in 0..counts.len() {
            let counted = counts[ring];
            self.learned.set(ring, counted.learned);
            self.offered.set(ring, counted.offered);
            self.exported.set(ring, counted.exported);
        }
    }

    /// Takes the numbers of an end that has some: those of a bad place, or of the room that was missing.
    pub fn note(&mut self, end: &CallEnd)
        ensures { self.new ≡ noted end.now self.old }
    {
        match end {
            CallEnd::BadInput { code, line } => {
                self.code = code.number();
                self.line = *line;
            }
            CallEnd::Room(lack) => {
                self.need = lack.need;
                self.largest = lack.largest;
            }
            _ => {}
        }
    }
}

/// What a call reports to its caller.
#[derive(Drop)]
pub struct Report<R, W> {
    /// The exit status.
    pub status: u8,
    /// A model of the clauses that were read, at status 10 alone.
    pub model: Option<Assignment>,
    /// The input that was opened, if a file was given.
    pub file: Option<R>,
    /// The writer of the proof that was created; without `--proof`, one that leads nowhere.
    pub proof: Option<W>,
    /// The numbers.
    pub tally: Tally,
}
