// What a ring writes after the ruler, and what is left of a formula then.
ghost use Rattle.std.specs.Prelude.{◌≡◌, true, All, IfOk};
ghost use Rattle.sat_words.specs.Literal.{IsOn};
ghost use Rattle.test_ruler.specs.Going.{CanGoOn};

use crate::tallied::Written;
use drat_text::LineOut;
use model_stack::Stack;
use ruler_simp::Simplified;
use rup_model::is_rup;
use sat_words::{Clause, Formula, Lit};
use simp_base::takes_part;
use std::alloc::Global;
use std::test::Fail;
use test_simplifiers::lists_of;

fn are_on(vars: u32, lits: &[Lit]) -> bool
    ensures { result ≡ true → All (IsOn vars) lits.now }
{
    lits.iter().all(|lit| lit.var() <= vars)
}

/// A ring learns the clause of these literals, which follows from the clauses that are left, and spells it so.
pub(crate) fn learn(
    alloc: Global,
    formula: &Formula,
    left: Simplified,
    lines: Written,
    lits: &[Lit],
) -> Result<(Simplified, Written), Fail>
    requires { CanGoOn formula.now.clauses left lines }
    ensures { IfOk result (λ now. CanGoOn formula.now.clauses now.0 now.1) }
{
    // The journal is one of this formula.
    let _ = formula;
    let clause = Clause::from_lits(alloc, lits)?;
    let alive = lists_of(alloc, left.start.as_slice())?;
    if !takes_part(&clause) || !are_on(left.vars, lits) || !is_rup(alloc, alive.as_slice(), lits)? {
        return Err("no lemma".into());
    }
    let mut lines = lines;
    let Ok(number) = lines.add(lits, &[]) else {
        return Err("no line".into());
    };
    let Simplified {
        vars,
        start,
        units,
        stack,
    } = left;
    let mut start = start;
    start.push((number, clause))?;
    let left = Simplified {
        vars,
        start,
        units,
        stack,
    };
    Ok((left, lines))
}

/// A ring deletes the last of the clauses that are left.
pub(crate) fn delete_last(
    formula: &Formula,
    left: Simplified,
    lines: Written,
) -> Result<(Simplified, Written), Fail>
    requires { CanGoOn formula.now.clauses left lines }
    ensures { IfOk result (λ now. CanGoOn formula.now.clauses now.0 now.1) }
{
    // The journal is one of this formula.
    let _ = formula;
    let Simplified {
        vars,
        start,
        units,
        stack,
    } = left;
    let mut start = start;
    let Some((number, clause)) = start.pop() else {
        return Err("no clause".into());
    };
    if !takes_part(&clause) {
        return Err("a unit or a tautology".into());
    }
    let mut lines = lines;
    let Ok(()) = lines.del(number, clause.lits()) else {
        return Err("no line".into());
    };
    let left = Simplified {
        vars,
        start,
        units,
        stack,
    };
    Ok((left, lines))
}

/// What is left, but with nothing on the stack.
pub(crate) fn without_stack(
    alloc: Global,
    formula: &Formula,
    left: Simplified,
    lines: &Written,
) -> Simplified
    requires { CanGoOn formula.now.clauses left lines.now }
    ensures { CanGoOn formula.now.clauses result lines.now }
{
    // The journal is one of this formula, and the output has its lines.
    let _ = formula;
    let _ = lines;
    let Simplified {
        vars,
        start,
        units,
        ..
    } = left;
    Simplified {
        vars,
        start,
        units,
        stack: Stack::new(alloc),
    }
}
