// The hints that a false clause rests on, collected down the trail: units first, then the reasons of forced literals in the
// order of the trail, then the false clause. Each clause is named once, and none that isn't needed.
ghost use Rattle.std.specs.Prelude.{◌≡◌, ◌⊎◌, ◌<◌, ◌≤◌, ◌+◌, ◌||◌, ◌++◌, ◌∷◌, [], ℕ, Bool, List, reverse, true, false, suc, length, Some, Contains, IfSome, IfNone, OnOk};
ghost use Rattle.sat_words.specs.Literal.{Literal, same, opposite};
ghost use Rattle.sat_words.specs.Clause.{has};
ghost use Rattle.rup_model.specs.Hints.{numbered, hinted_from};
ghost use Rattle.simp_base.specs.declared.hints.trail.Step.{Step};
ghost use Rattle.simp_base.specs.Tables.{IsUnit};
ghost use Rattle.simp_base.specs.Hinting.{IsTrueBy, IsFalsified};
ghost use Rattle.simp_base.specs.Collecting.{marked, IsBasis, IsNoted, IsNeeded, StandsAt, IsMet, IsReason, AreMet, IsCollected};

use crate::clause_table::ClauseTable;
use crate::hints::marks::{is_marked, mark, unmark, unmark_all};
use crate::hints::trail::Trail;
use sat_words::Lit;
use std::alloc::{AllocError, Global};

/// The hints collected last, and the buffers of collecting them.
#[derive(Drop)]
pub(crate) struct Collection {
    /// By the literal's code, whether hints rest on it. Between calls nothing is marked.
    marks: Vec<bool>,
    /// The units that are marked.
    units: Vec<Lit>,
    /// Numbers of clauses that were needed, the last hint first.
    reasons: Vec<u64>,
    hints: Vec<u64>,
}

/// Whether the literal stands at this place.
fn stands_at(trail: &Trail, place: usize, lit: Lit) -> bool
    ensures yes { result ≡ true → StandsAt trail.now.steps place lit }
    ensures other { result ≡ false → StandsAt trail.now.steps place lit → ⊥ }
{
    match trail.steps().get(place) {
        Some(step) => step.lit == lit,
        None => false,
    }
}

impl Collection {
    /// No hints.
    pub(crate) fn new(alloc: Global) -> Self
        ensures { (l : Literal) → marked result.marks.items l ≡ false }
    {
        Collection {
            marks: Vec::new(alloc),
            units: Vec::new(alloc),
            reasons: Vec::new(alloc),
            hints: Vec::new(alloc),
        }
    }

    /// The hints collected last.
    pub(crate) fn hints(&self) -> &[u64]
        ensures { result.now ≡ self.now.hints.items }
    {
        self.hints.as_slice()
    }

    /// Puts these numbers in the place of the hints.
    pub(crate) fn put(&mut self, numbers: &[u64]) -> Result<(), AllocError>
        ensures hints { OnOk result (self.new.hints.items ≡ numbers.now) }
        ensures marks { self.new.marks ≡ self.old.marks }
    {
        self.hints.clear();
        self.hints.extend_from_slice(numbers)?;
        Ok(())
    }

    /// Lists a unit that hints rest on, with its clause's number.
    fn need_unit(&mut self, number: u64, lit: Lit) -> Result<(), AllocError>
        ensures units { OnOk result (self.new.units.items ≡ self.old.units.items ++ lit ∷ []) }
        ensures hints { OnOk result (self.new.hints.items ≡ self.old.hints.items ++ number ∷ []) }
        ensures marks { OnOk result ((l : Literal) → marked self.new.marks.items l ≡ (same lit l || marked self.old.marks.items l)) }
        ensures reasons { self.new.reasons ≡ self.old.reasons }
    {
        self.units.push(lit)?;
        self.hints.push(number)?;
        mark(&mut self.marks, lit)?;
        Ok(())
    }

    /// Marks a literal that hints rest on, unless it is given.
    fn need(&mut self, clauses: &ClauseTable, trail: &Trail, lit: Lit) -> Result<(), AllocError>
        ensures noted { OnOk result ((start : Literal → Bool) (i : ℕ) → IsBasis clauses.now.clauses start trail.now.steps → i ≤ length trail.now.steps
            → IsNoted clauses.now.clauses start trail.now.steps i self.old.marks.items self.old.units.items self.old.hints.items → IsTrueBy clauses.now.clauses trail.now.steps i lit
            → IsNeeded clauses.now.clauses start trail.now.steps i self.new.marks.items self.new.units.items self.new.hints.items lit) }
        ensures kept { OnOk result ((l : Literal) → marked self.old.marks.items l ≡ true → marked self.new.marks.items l ≡ true) }
        ensures reasons { self.new.reasons ≡ self.old.reasons }
    {
        if is_marked(self.marks.as_slice(), lit) {
            return Ok(());
        }
        if let Some(place) = trail.place_of(lit) {
            if trail.steps()[place].reason.is_some() {
                mark(&mut self.marks, lit)?;
            }
            return Ok(());
        }
        if let Some(number) = clauses.unit_number(lit) {
            self.need_unit(number, lit)?;
        }
        Ok(())
    }

    /// Marks what makes a literal false, unless it is the one at the place.
    fn need_other(
        &mut self,
        clauses: &ClauseTable,
        trail: &Trail,
        place: usize,
        lit: Lit,
    ) -> Result<(), AllocError>
        requires { place ≤ length trail.now.steps }
        ensures met { OnOk result ((start : Literal → Bool) → IsBasis clauses.now.clauses start trail.now.steps
            → IsNoted clauses.now.clauses start trail.now.steps place self.old.marks.items self.old.units.items self.old.hints.items
            → StandsAt trail.now.steps place lit ⊎ IsTrueBy clauses.now.clauses trail.now.steps place (opposite lit)
            → IsMet clauses.now.clauses start trail.now.steps place self.new.marks.items self.new.units.items self.new.hints.items lit) }
        ensures kept { OnOk result ((l : Literal) → marked self.old.marks.items l ≡ true → marked self.new.marks.items l ≡ true) }
        ensures reasons { self.new.reasons ≡ self.old.reasons }
    {
        if stands_at(trail, place, lit) {
            return Ok(());
        }
        self.need(clauses, trail, lit.not())?;
        Ok(())
    }

    /// Marks what makes the literals of a clause false, but the one at the place.
    fn need_all(
        &mut self,
        clauses: &ClauseTable,
        trail: &Trail,
        place: usize,
        lits: &[Lit],
    ) -> Result<(), AllocError>
        requires { place ≤ length trail.now.steps }
        ensures met { OnOk result ((start : Literal → Bool) → IsBasis clauses.now.clauses start trail.now.steps
            → IsNoted clauses.now.clauses start trail.now.steps place self.old.marks.items self.old.units.items self.old.hints.items
            → IsReason clauses.now.clauses trail.now.steps place lits.now
            → AreMet clauses.now.clauses start trail.now.steps place self.new.marks.items self.new.units.items self.new.hints.items lits.now) }
        ensures kept { OnOk result ((l : Literal) → marked self.old.marks.items l ≡ true → marked self.new.marks.items l ≡ true) }
        ensures reasons { self.new.reasons ≡ self.old.reasons }
    {
        for lit in lits {
            self.need_other(clauses, trail, place, *lit)?;
        }
        Ok(())
    }

    /// Puts a clause before the hints, and marks what makes its literals false, but the one at the place.
    fn rest_on(
        &mut self,
        clauses: &ClauseTable,
        trail: &Trail,
        place: usize,
        number: u64,
    ) -> Result<(), AllocError>
        requires { place ≤ length trail.now.steps }
        ensures met { OnOk result ((start : Literal → Bool) (lits : List Literal) → IsBasis clauses.now.clauses start trail.now.steps
            → IsNoted clauses.now.clauses start trail.now.steps place self.old.marks.items self.old.units.items self.old.hints.items
            → Contains clauses.now.clauses (number, lits) → IsReason clauses.now.clauses trail.now.steps place lits
            → AreMet clauses.now.clauses start trail.now.steps place self.new.marks.items self.new.units.items self.new.hints.items lits) }
        ensures kept { OnOk result ((l : Literal) → marked self.old.marks.items l ≡ true → marked self.new.marks.items l ≡ true) }
        ensures reasons { OnOk result (self.new.reasons.items ≡ self.old.reasons.items ++ number ∷ []) }
    {
        self.reasons.push(number)?;
        if let Some(clause) = clauses.get(number) {
            self.need_all(clauses, trail, place, clause.lits())?;
        }
        Ok(())
    }

    /// Goes over a place of the trail, the last one that may be needed.
    fn visit(
        &mut self,
        clauses: &ClauseTable,
        trail: &Trail,
        place: usize,
    ) -> Result<(), AllocError>
        requires { place < length trail.now.steps }
        ensures { OnOk result ((start : Literal → Bool) → IsBasis clauses.now.clauses start trail.now.steps
            → IsCollected clauses.now.clauses start trail.now.steps (suc place) self.old.marks.items self.old.units.items self.old.hints.items self.old.reasons.items
            → IsCollected clauses.now.clauses start trail.now.steps place self.new.marks.items self.new.units.items self.new.hints.items self.new.reasons.items) }
    {
        let step = trail.steps()[place];
        if let Some(reason) = step.reason {
            if is_marked(self.marks.as_slice(), step.lit) {
                unmark(&mut self.marks, step.lit);
                self.rest_on(clauses, trail, place, reason)?;
            }
        }
        Ok(())
    }

    /// Goes down the trail from the false clause.
    fn walk(&mut self, clauses: &ClauseTable, trail: &Trail, last: u64) -> Result<(), AllocError>
        requires reasons { self.old.reasons.items ≡ [] }
        ensures { OnOk result ((start : Literal → Bool) → IsBasis clauses.now.clauses start trail.now.steps
            → IsNoted clauses.now.clauses start trail.now.steps (length trail.now.steps) self.old.marks.items self.old.units.items self.old.hints.items
            → IsFalsified clauses.now.clauses trail.now.steps last
            → IsCollected clauses.now.clauses start trail.now.steps 0 self.new.marks.items self.new.units.items self.new.hints.items self.new.reasons.items) }
    {
        let mut place = trail.steps().len();
        self.rest_on(clauses, trail, place, last)?;
        while place > 0 {
            place -= 1;
            self.visit(clauses, trail, place)?;
        }
        Ok(())
    }

    /// Puts the numbers that were needed behind those of the units, the last one at the end.
    fn put_reasons(&mut self) -> Result<(), AllocError>
        ensures hints { OnOk result (self.new.hints.items ≡ self.old.hints.items ++ reverse self.old.reasons.items) }
        ensures marks { self.new.marks ≡ self.old.marks }
    {
        while let Some(number) = self.reasons.pop() {
            self.hints.push(number)?;
        }
        Ok(())
    }

    /// Collects the hints that the false clause with this number gives along the trail. After an error there are none to rely
    /// on.
    pub(crate) fn collect(
        &mut self,
        clauses: &ClauseTable,
        trail: &Trail,
        last: u64,
    ) -> Result<(), AllocError>
        requires basis { (start : Literal → Bool) × IsBasis clauses.now.clauses start trail.now.steps }
        requires last { IsFalsified clauses.now.clauses trail.now.steps last }
        requires blank { (l : Literal) → marked self.old.marks.items l ≡ false }
        ensures hints { OnOk result ((start : Literal → Bool) → IsBasis clauses.now.clauses start trail.now.steps
            → hinted_from (numbered clauses.now.clauses) start self.new.hints.items ≡ true) }
        ensures blank { (l : Literal) → marked self.new.marks.items l ≡ false }
    {
        self.units.clear();
        self.reasons.clear();
        self.hints.clear();
        match self.walk(clauses, trail, last) {
            Err(error) => {
                // the marks left are not listed
                self.marks.clear();
                Err(error)
            }
            Ok(()) => {
                unmark_all(&mut self.marks, self.units.as_slice());
                self.put_reasons()?;
                Ok(())
            }
        }
    }
}
