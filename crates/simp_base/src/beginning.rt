// How a work begins: the formula's clauses under their numbers, or clauses that are alive in a log.
ghost use Rattle.std.specs.Prelude.{◌≡◌, ◌≤◌, ◌+◌, ◌*◌, length, All, IfOk};
ghost use Rattle.sat_words.specs.Literal.{IsOn};
ghost use Rattle.simp_base.specs.WorkState.{HaveOwnNumbers, lists, numbered};

use crate::clause_table::ClauseTable;
use sat_words::{Clause, Formula};
use std::alloc::{AllocError, Global};

/// Copies of the formula's clauses, numbered from 1.
pub(crate) fn table_of(alloc: Global, formula: &Formula) -> Result<ClauseTable, AllocError>
    requires on { All (All (IsOn formula.now.vars)) formula.now.clauses }
    ensures clauses { IfOk result (λ t. t.clauses ≡ numbered 1 formula.now.clauses) }
    ensures next { IfOk result (λ t. t.next ≡ length formula.now.clauses + 1) }
    ensures codes { IfOk result (λ t. t.codes ≡ 2 * (formula.now.vars + 1)) }
{
    let clauses = formula.clauses();
    let mut table = ClauseTable::new(alloc, formula.vars(), 0)?;
    for i in 0..clauses.len() {
        let copy = Clause::from_lits(alloc, clauses[i].lits())?;
        table.make_ready(copy.lits())?;
        table.push(i as u64 + 1, copy);
    }
    Ok(table)
}

/// These clauses under their numbers, each of which was given; the last number given is `last`.
pub(crate) fn table_over(
    alloc: Global,
    vars: u32,
    last: u64,
    clauses: Vec<(u64, Clause)>,
) -> Result<ClauseTable, AllocError>
    requires numbers { HaveOwnNumbers clauses.items }
    requires given { All (λ c. c.0 ≤ last) clauses.items }
    requires on { All (All (IsOn vars)) (lists clauses.items) }
    ensures clauses { IfOk result (λ t. t.clauses ≡ clauses.items) }
    ensures next { IfOk result (λ t. t.next ≡ last + 1) }
    ensures codes { IfOk result (λ t. t.codes ≡ 2 * (vars + 1)) }
{
    let mut table = ClauseTable::new(alloc, vars, last)?;
    for (number, clause) in clauses {
        table.insert(number, clause)?;
    }
    Ok(table)
}
