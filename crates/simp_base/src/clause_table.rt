// The clauses alive, found by number and by literal.
//
// A table gives each number its place. The last clause takes the place of one that is removed, so that all is done in
// constant time except for the notes of the literals. What the tables have of numbers that are not alive is not cleared: it
// is passed over where it is read.
ghost use Rattle.std.specs.Prelude.{◌≡◌, ◌<◌, ◌≤◌, ◌+◌, ◌*◌, ◌^◌, ℕ, List, [], ◌∷◌, ◌++◌, ◌||◌, true, false, length, All, Contains, IfOk, IfSome, IfNone, OnOk, OnErr, vec_len};
ghost use Rattle.std.specs.List.{list_any, slice_index_or};
ghost use Rattle.sat_words.specs.Literal.{Literal, opposite, code_of};
ghost use Rattle.sat_words.specs.Clause.{has, two_or_more};
ghost use Rattle.simp_base.specs.Removed.{Removed};
ghost use Rattle.simp_base.specs.WorkState.{lists, is_only};
ghost use Rattle.simp_base.specs.Tables.{SameClauses, IsReady, RemovedNumber, IsUnitNumber, IsClash, IsClashAfter, alone_after};

use crate::occurrences::Occurrences;
use sat_words::{Clause, Lit};
use std::alloc::{AllocError, Global};
use std::marker::Model;

/// Clauses with their numbers, and tables over them.
#[derive(Drop)]
pub(crate) struct ClauseTable {
    alloc: Global,
    cells: Vec<(u64, Clause)>,
    /// By number, where the clause stands.
    places: Vec<usize>,
    /// By the literal's code, the number of the first clause that is this literal alone.
    alone: Vec<Option<u64>>,
    /// A literal that stands alone in a clause, as its negation does in another.
    clash: Option<Lit>,
    occurrences: Occurrences,
}

impl Model for ClauseTable {
    ghost use Rattle.std.specs.Prelude.{◌-◌, vec_len, vec_capacity};
    ghost use Rattle.simp_base.specs.Tables.{ClauseData, IsTable};

    ghost Value = { ClauseData };

    ghost view = { λ t. record {
      clauses = t.cells.items;
      next = vec_len t.places;
      codes = vec_len t.alone;
      noted = t.occurrences;
      room = vec_capacity t.cells - vec_len t.cells;
      number_room = vec_capacity t.places - vec_len t.places;
    } };

    ghost invariant = { λ t. IsTable t.cells.items t.places.items t.alone.items t.clash t.occurrences };
}

/// Whether the literal stands alone.
fn is_only(lit: Lit, lits: &[Lit]) -> bool
    ensures { result ≡ is_only lit lits.now }
{
    match lits {
        [only] => *only == lit,
        _ => false,
    }
}

/// Notes the literal of a clause that has just one, unless it is noted.
fn note_alone(alone: &mut Vec<Option<u64>>, lits: &[Lit], number: u64)
    requires { All (λ l. code_of l < vec_len alone.old) lits.now }
    ensures len { vec_len alone.new ≡ vec_len alone.old }
    ensures noted { (l : Literal) → code_of l < vec_len alone.old
        → slice_index_or alone.new.items (code_of l) None ≡ alone_after (slice_index_or alone.old.items (code_of l) None) (is_only l lits.now) number }
{
    if let [only] = lits {
        let code = only.code() as usize;
        if alone[code].is_none() {
            alone[code] = Some(number);
        }
    }
}

/// A literal noted to stand alone as its negation does: the one before, or that of a clause that has just one.
fn clash_after(before: Option<Lit>, alone: &[Option<u64>], lits: &[Lit]) -> Option<Lit>
    ensures { IsClashAfter alone.now lits.now before result }
{
    if before.is_some() {
        return before;
    }
    match lits {
        [only] => match alone.get(only.not().code() as usize) {
            Some(Some(_)) => Some(*only),
            _ => None,
        },
        _ => None,
    }
}

/// Takes the clause at a place out; the last one takes its place.
fn remove_at(cells: &mut Vec<(u64, Clause)>, place: usize)
    requires { place < length cells.old.items }
    ensures { Removed cells.old.items cells.new.items place }
{
    cells.swap_remove(place);
}

impl ClauseTable {
    /// No clause, over the variables up to this one; the next number is the one after the last.
    pub(crate) fn new(alloc: Global, vars: u32, last: u64) -> Result<Self, AllocError>
        ensures clauses { IfOk result (λ t. t.clauses ≡ []) }
        ensures next { IfOk result (λ t. t.next ≡ last + 1) }
        ensures codes { IfOk result (λ t. t.codes ≡ 2 * (vars + 1)) }
    {
        let occurrences = Occurrences::blank(alloc, vars)?;
        let alone = vec![in alloc; None; 2 * (vars as usize + 1)]?;
        let Some(next) = (last as usize).checked_add(1) else {
            return Err(AllocError);
        };
        let places = vec![in alloc; 0; next]?;
        Ok(ClauseTable {
            alloc,
            cells: Vec::new(alloc),
            places,
            alone,
            clash: None,
            occurrences,
        })
    }

    /// The clauses with their numbers.
    pub(crate) fn as_slice(&self) -> &[(u64, Clause)]
        ensures { result.now ≡ self.now.clauses }
    {
        self.cells.as_slice()
    }

    /// The clauses alone.
    pub(crate) fn into_clauses(self) -> Vec<(u64, Clause)>
        ensures { result.items ≡ self.clauses }
    {
        let ClauseTable { cells, .. } = self;
        cells
    }

    /// Whether a clause is this literal alone.
    pub(crate) fn is_alone(&self, lit: Lit) -> bool
        requires { code_of lit < self.now.codes }
        ensures { result ≡ list_any (is_only lit) (lists self.now.clauses) }
    {
        self.alone[lit.code() as usize].is_some()
    }

    /// The number of the first clause that is this literal alone.
    pub(crate) fn unit_number(&self, lit: Lit) -> Option<u64>
        ensures { IsUnitNumber self.now.clauses lit result }
    {
        match self.alone.get(lit.code() as usize) {
            Some(number) => *number,
            None => None,
        }
    }

    /// A literal that stands alone in a clause, as its negation does in another.
    pub(crate) fn clash(&self) -> Option<Lit>
        ensures { IsClash self.now.clauses result }
    {
        self.clash
    }

    /// How many codes of literals there are.
    pub(crate) fn codes(&self) -> usize
        ensures codes { result ≡ self.now.codes }
        ensures even { (k : ℕ) × (result ≡ 2 * k) }
        ensures within { (n : ℕ) (c : List Literal) (l : Literal) → Contains self.now.clauses (n, c) → has c l ≡ true → code_of l < result }
    {
        self.alone.len()
    }

    /// The clause with this number, if it is alive.
    pub(crate) fn get(&self, number: u64) -> Option<&Clause>
        ensures some { IfSome result (λ clause. Contains self.now.clauses (number, clause.now)) }
        ensures none { IfNone result ((c : List Literal) → Contains self.now.clauses (number, c) → ⊥) }
        ensures only { IfSome result (λ clause. (c : List Literal) → Contains self.now.clauses (number, c) → c ≡ clause.now) }
        ensures codes { IfSome result (λ clause. All (λ l. code_of l < self.now.codes) clause.now) }
    {
        if number >= self.places.len() as u64 {
            return None;
        }
        let place = self.places[number as usize];
        if place < self.cells.len() && self.cells[place].0 == number {
            Some(&self.cells[place].1)
        } else {
            None
        }
    }

    /// The numbers of the clauses that hold the literal.
    pub(crate) fn numbers_with(&self, lit: Lit) -> Result<Vec<u64>, AllocError>
        requires { code_of lit < self.now.codes }
        ensures every { IfOk result (λ found. (n : ℕ) (c : List Literal) → Contains self.now.clauses (n, c) → has c lit ≡ true → Contains found.items n) }
    {
        let found = Vec::from_slice(self.alloc, self.occurrences.of(lit))?;
        Ok(found)
    }

    /// The numbers that were noted for the literal.
    pub(crate) fn occurrences(&self, lit: Lit) -> &[u64]
        requires { code_of lit < self.now.codes }
        ensures every { (n : ℕ) (c : List Literal) → Contains self.now.clauses (n, c) → has c lit ≡ true → Contains result.now n }
    {
        self.occurrences.of(lit)
    }

    /// The numbers that were noted for the negation of the literal.
    pub(crate) fn noted_against(&self, lit: Lit) -> &[u64]
        ensures every { (n : ℕ) (c : List Literal) → Contains self.now.clauses (n, c) → has c (opposite lit) ≡ true → Contains result.now n }
    {
        let against = lit.not();
        if (against.code() as usize) < self.alone.len() {
            self.occurrences.of(against)
        } else {
            &[]
        }
    }

    /// The number of the next clause.
    pub(crate) fn next_number(&self) -> u64
        ensures value { result ≡ self.now.next }
        ensures low { result < 2 ^ 64 }
    {
        self.places.len() as u64
    }

    /// Makes ready for one more clause, of these literals, under the next number.
    pub(crate) fn make_ready(&mut self, lits: &[Lit]) -> Result<(), AllocError>
        requires { All (λ l. code_of l < self.old.codes) lits.now }
        ensures same { SameClauses self.old self.new }
        ensures ready { OnOk result (IsReady self.new lits.now) }
    {
        self.cells.reserve(1)?;
        self.places.reserve(1)?;
        let next = self.places.len() as u64;
        self.occurrences.note_all(lits, next)?;
        Ok(())
    }

    /// Keeps the clause under the next number, for which all is ready.
    pub(crate) fn push(&mut self, number: u64, clause: Clause)
        requires next { number ≡ self.old.next }
        requires ready { IsReady self.old clause }
        requires codes { All (λ l. code_of l < self.old.codes) clause }
        ensures clauses { self.new.clauses ≡ self.old.clauses ++ (number, clause) ∷ [] }
        ensures next { self.new.next ≡ self.old.next + 1 }
        ensures codes { self.new.codes ≡ self.old.codes }
    {
        self.places.push_reserved(self.cells.len());
        note_alone(&mut self.alone, clause.lits(), number);
        let clash = clash_after(self.clash, self.alone.as_slice(), clause.lits());
        self.clash = clash;
        self.cells.push_reserved((number, clause));
    }

    /// Keeps the clause under a number before the next one, which no other clause has. After an error no clause came.
    pub(crate) fn insert(&mut self, number: u64, clause: Clause) -> Result<(), AllocError>
        requires given { number < self.old.next }
        requires free { (c : List Literal) → Contains self.old.clauses (number, c) → ⊥ }
        requires codes { All (λ l. code_of l < self.old.codes) clause }
        ensures clauses { OnOk result (self.new.clauses ≡ self.old.clauses ++ (number, clause) ∷ []) }
        ensures next { self.new.next ≡ self.old.next }
        ensures codes { self.new.codes ≡ self.old.codes }
    {
        self.cells.reserve(1)?;
        self.occurrences.note_all(clause.lits(), number)?;
        self.places[number as usize] = self.cells.len();
        note_alone(&mut self.alone, clause.lits(), number);
        let clash = clash_after(self.clash, self.alone.as_slice(), clause.lits());
        self.clash = clash;
        self.cells.push_reserved((number, clause));
        Ok(())
    }

    /// Removes the clause with this number.
    pub(crate) fn remove(&mut self, number: u64)
        requires { (c : List Literal) × Contains self.old.clauses (number, c) × (two_or_more c ≡ true) }
        ensures clauses { RemovedNumber self.old.clauses self.new.clauses number }
        ensures next { self.new.next ≡ self.old.next }
        ensures codes { self.new.codes ≡ self.old.codes }
    {
        let place = self.places[number as usize];
        remove_at(&mut self.cells, place);
        if place < self.cells.len() {
            let moved = self.cells[place].0;
            self.places[moved as usize] = place;
        }
    }

    /// Has one variable more, which stands in no clause. After an error it has the variables that it had.
    pub(crate) fn widen(&mut self) -> Result<(), AllocError>
        requires { All (All (λ l. code_of l < self.old.codes)) (lists self.old.clauses) }
        ensures clauses { self.new.clauses ≡ self.old.clauses }
        ensures next { self.new.next ≡ self.old.next }
        ensures ok { OnOk result (self.new.codes ≡ self.old.codes + 2) }
        ensures err { OnErr result (self.new.codes ≡ self.old.codes) }
    {
        self.alone.reserve(2)?;
        self.occurrences.widen(self.alloc)?;
        self.alone.push_reserved(None);
        self.alone.push_reserved(None);
        Ok(())
    }
}
