// Which variables occur in the clauses.
ghost use Rattle.std.specs.Prelude.{◌≡◌, ◌<◌, ◌^◌, All, IfOk, length};
ghost use Rattle.sat_words.specs.Literal.{IsOn};
ghost use Rattle.top_call.specs.Occurring.{Marks, IsOccurring, IsBoth};

use sat_words::{Assignment, Clause, Lit};
use std::alloc::{AllocError, Global};

/// Marks the variables of the clause.
fn mark(occurring: &mut Assignment, clause: &[Lit])
    requires { All (IsOn (length occurring.old)) clause.now }
    ensures { Marks clause.now occurring.old occurring.new }
{
    for lit in clause {
        occurring.set(lit.var(), true);
    }
}

/// An assignment that is true exactly on the variables that occur in the clauses.
pub(crate) fn occurring_in(
    alloc: Global,
    clauses: &[Clause],
    vars: u32,
) -> Result<Assignment, AllocError>
    requires { All (All (IsOn vars)) clauses.now }
    ensures { IfOk result (IsOccurring clauses.now vars) }
{
    let mut occurring = Assignment::new(alloc, vars)?;
    for clause in clauses {
        mark(&mut occurring, clause.lits());
    }
    Ok(occurring)
}

/// The assignment on the variables that occur; all others are false. It takes no memory.
pub(crate) fn without_idle(occurring: Assignment, vars: u32, from: &Assignment) -> Assignment
    requires long { length occurring ≡ vars }
    requires few { vars < 2 ^ 28 }
    ensures { IsBoth occurring from.now result }
{
    let mut model = occurring;
    for var in 1..vars + 1 {
        if model.value(var) {
            model.set(var, from.value(var));
        }
    }
    model
}
