// The clauses that the search starts with, and those that the ruler goes on with.
ghost use Rattle.std.specs.Prelude.{◌≡◌, ◌++◌, ℕ, List, IfOk};
ghost use Rattle.std.specs.List.{filter};
ghost use Rattle.std.specs.List.Sorted.{IsPermutation, IsNonDecreasingBy};
ghost use Rattle.sat_words.specs.Literal.{Literal};
ghost use Rattle.simp_base.specs.WorkState.{unit_cells};
ghost use Rattle.simp_base.specs.Parts.{takes_part};

use sat_words::{Clause, Lit};
use simp_base::takes_part;
use std::alloc::{AllocError, Global};

/// Those of the clauses that have two literals or more and are no tautologies, in order of number. They stay if they
/// are in memory, and no more is taken.
pub(crate) fn starts_of(clauses: Vec<(u64, Clause)>) -> Vec<(u64, Clause)>
    ensures kept { IsPermutation (filter (λ (c : ℕ × List Literal). takes_part c.1) clauses.items) result.items }
    ensures sorted { IsNonDecreasingBy (λ (c : ℕ × List Literal). c.0) result.items }
{
    let mut starts = clauses;
    starts.retain(|cell| takes_part(&cell.1));
    starts.sort_unstable_by_key(|cell| cell.0);
    starts
}

/// The clauses, and after them those of the units: so `again` takes them.
pub fn with_units(
    alloc: Global,
    clauses: Vec<(u64, Clause)>,
    units: &[(Lit, u64)],
) -> Result<Vec<(u64, Clause)>, AllocError>
    ensures { IfOk result (λ cells. cells.items ≡ clauses.items ++ unit_cells units.now) }
{
    let mut cells = clauses;
    for unit in units {
        let clause = Clause::from_lits(alloc, &[unit.0])?;
        cells.push((unit.1, clause))?;
    }
    Ok(cells)
}
