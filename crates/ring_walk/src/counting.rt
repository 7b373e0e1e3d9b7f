// The counts of clauses under an assignment, counted clause by clause.
ghost use Rattle.std.specs.Prelude.{◌≡◌, ◌<◌, ◌≤◌, ◌-◌, ◌^◌, All, IfOk, OnOk, length, slice_set};
ghost use Rattle.sat_words.specs.Literal.{IsOn};
ghost use Rattle.sat_words.specs.Clause.{InOrder};
ghost use Rattle.sat_words.specs.Truth.{lit_true};
ghost use Rattle.ring_walk.specs.Tally.{count_at, nothing};
ghost use Rattle.ring_walk.specs.Truths.{count_of, counts_of};

use crate::tally::Tally;
use sat_words::{Assignment, Clause, Lit};
use std::alloc::{AllocError, Global};

/// A tally of these clauses under this assignment.
pub(crate) fn tally_of(
    alloc: Global,
    vars: u32,
    clauses: &[Clause],
    values: &Assignment,
) -> Result<Tally, AllocError>
    requires small { vars ≤ 2 ^ 30 }
    requires few { length clauses.now < 2 ^ 32 - 1 }
    requires on { All (All (IsOn vars)) clauses.now }
    ensures vars { IfOk result (λ t. t.vars ≡ vars) }
    ensures counts { IfOk result (λ t. t.counts ≡ counts_of (lit_true values.now) clauses.now) }
    ensures ordered { OnOk result (All InOrder clauses.now) }
{
    let mut tally = Tally::new(alloc, vars, clauses.len() as u32)?;
    for i in 0..clauses.len() {
        count_clause(&mut tally, i as u32, clauses[i].lits(), values);
    }
    Ok(tally)
}

/// Counts the true literals of a clause of which none is counted yet.
fn count_clause(tally: &mut Tally, clause: u32, lits: &[Lit], values: &Assignment)
    requires low { clause < length tally.old.counts }
    requires fresh { count_at tally.old.counts clause ≡ nothing }
    requires small { tally.old.vars ≤ 2 ^ 30 }
    requires on { All (IsOn tally.old.vars) lits.now }
    requires ordered { InOrder lits.now }
    ensures vars { tally.new.vars ≡ tally.old.vars }
    ensures counts { tally.new.counts ≡ slice_set tally.old.counts clause (count_of (lit_true values.now) lits.now) }
{
    for lit in lits {
        if values.truth_of_lit(*lit) {
            tally.raise(clause, lit.var());
        }
    }
}
