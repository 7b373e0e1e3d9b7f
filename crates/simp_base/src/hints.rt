// Hints for a clause that follows by unit propagation from a table of clauses.
//
// Units come before all else: if one is among the clause's literals, or two are opposite, no search is needed. Else the
// negations of the literals are propagated to a false clause, and what it rests on is collected. A call costs what it
// touches, but for one look at each clause if propagation from the negations alone finds nothing.
ghost use Rattle.std.specs.Prelude.{◌≡◌, ◌<◌, ℕ, List, [], ◌∷◌, map, true, false, All, Contains, IfSome, IfNone, OnOk};
ghost use Rattle.sat_words.specs.Literal.{Literal, opposite, code_of};
ghost use Rattle.sat_words.specs.Clause.{has, has_opposites};
ghost use Rattle.rup_model.specs.Rup.{rup};
ghost use Rattle.rup_model.specs.Hints.{numbered, hinted};
ghost use Rattle.simp_base.specs.WorkState.{lists, HaveOwnNumbers};
ghost use Rattle.simp_base.specs.Tables.{IsUnit};
ghost use Rattle.simp_base.specs.Hinting.{IsStart};

mod collection;
mod look;
mod marks;
mod search;
mod trail;

use crate::clause_table::ClauseTable;
use collection::Collection;
use sat_words::Lit;
use search::find_false_clause;
use std::alloc::{AllocError, Global};
use std::marker::Model;
use trail::Trail;

/// Finds hints. Its value is those found last.
#[derive(Drop)]
pub(crate) struct Hinter {
    trail: Trail,
    collection: Collection,
}

impl Model for Hinter {
    ghost use Rattle.std.specs.Prelude.{◌≡◌, List, ℕ, false};
    ghost use Rattle.sat_words.specs.Literal.{Literal};
    ghost use Rattle.simp_base.specs.Collecting.{marked};

    ghost Value = { List ℕ };

    ghost view = { λ h. h.collection.hints.items };

    ghost invariant = { λ h. (l : Literal) → marked h.collection.marks.items l ≡ false };
}

/// The number of a clause that is one of the literals alone.
fn unit_among(clauses: &ClauseTable, lits: &[Lit]) -> Option<u64>
    ensures some { IfSome result (λ n. (l : Literal) × (has lits.now l ≡ true) × Contains clauses.now.clauses (n, l ∷ [])) }
    ensures none { IfNone result ((l : Literal) → has lits.now l ≡ true → IsUnit clauses.now.clauses l → ⊥) }
{
    for lit in lits {
        if let Some(number) = clauses.unit_number(*lit) {
            return Some(number);
        }
    }
    None
}

/// The numbers of two clauses of which one is a literal and the other its negation.
fn opposite_units(clauses: &ClauseTable) -> Option<(u64, u64)>
    ensures some { IfSome result (λ p. (l : Literal) × Contains clauses.now.clauses (p.0, l ∷ []) × Contains clauses.now.clauses (p.1, opposite l ∷ [])) }
    ensures none { IfNone result ((l : Literal) → IsUnit clauses.now.clauses l → IsUnit clauses.now.clauses (opposite l) → ⊥) }
{
    // the clause of the negation came before
    let lit = clauses.clash()?.not();
    let first = clauses.unit_number(lit)?;
    let second = clauses.unit_number(lit.not())?;
    Some((first, second))
}

impl Hinter {
    /// No hints.
    pub(crate) fn new(alloc: Global) -> Self {
        Hinter {
            trail: Trail::new(alloc),
            collection: Collection::new(alloc),
        }
    }

    /// The hints found last.
    pub(crate) fn hints(&self) -> &[u64]
        ensures { result.now ≡ self.now }
    {
        self.collection.hints()
    }

    /// Finds hints along the negations of the literals.
    fn find_by_search(&mut self, clauses: &ClauseTable, lits: &[Lit]) -> Result<(), AllocError>
        requires rup { rup (lists clauses.now.clauses) lits.now ≡ true }
        requires no_opposites { has_opposites lits.now ≡ false }
        requires own { HaveOwnNumbers clauses.now.clauses }
        requires start { IsStart clauses.now.clauses (has (map opposite lits.now)) }
        requires codes { All (λ l. code_of l < clauses.now.codes) lits.now }
        ensures { OnOk result (hinted (numbered clauses.now.clauses) lits.now self.new ≡ true) }
    {
        self.trail.clear();
        self.trail.widen_to(clauses.codes())?;
        let last = find_false_clause(clauses, &mut self.trail, lits)?;
        self.collection.collect(clauses, &self.trail, last)
    }

    /// Finds hints that show that the clause follows from the clauses of the table.
    pub(crate) fn find(&mut self, clauses: &ClauseTable, lits: &[Lit]) -> Result<(), AllocError>
        requires rup { rup (lists clauses.now.clauses) lits.now ≡ true }
        requires no_opposites { has_opposites lits.now ≡ false }
        requires own { HaveOwnNumbers clauses.now.clauses }
        requires codes { All (λ l. code_of l < clauses.now.codes) lits.now }
        ensures { OnOk result (hinted (numbered clauses.now.clauses) lits.now self.new ≡ true) }
    {
        if let Some(number) = unit_among(clauses, lits) {
            return self.collection.put(&[number]);
        }
        if let Some((first, second)) = opposite_units(clauses) {
            return self.collection.put(&[first, second]);
        }
        self.find_by_search(clauses, lits)
    }
}
