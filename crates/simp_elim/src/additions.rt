// The resolvents, which are added before any clause is deleted.
ghost use Rattle.std.specs.Prelude.{◌≡◌, false, List, [], ◌∷◌, Contains};
ghost use Rattle.sat_words.specs.Literal.{Literal};
ghost use Rattle.simp_base.specs.WorkState.{IsWork};
ghost use Rattle.simp_elim.specs.Stages.{CanCome, WasGrown};

use drat_text::{LineOut, LineStop};
use sat_words::{Clause, Lit};
use simp_base::Work;

/// Adds the clause; a single literal is listed as a unit beside that.
fn add_clause<L: LineOut>(work: &mut Work<L>, lits: &[Lit]) -> Result<(), LineStop>
    requires unspent { work.old.output.spent ≡ false }
    requires going { work.old.ended ≡ false }
    requires comes { CanCome work.old lits.now }
    ensures grown { WasGrown work.old work.new (lits.now ∷ []) result }
    ensures work { IsWork work.new }
{
    work.add_rup(lits)?;
    match lits {
        [lit] => work.unit(*lit),
        _ => Ok(()),
    }
}

/// Adds the clauses, one after another.
pub(crate) fn add_all<L: LineOut>(work: &mut Work<L>, clauses: &[Clause]) -> Result<(), LineStop>
    requires unspent { work.old.output.spent ≡ false }
    requires going { work.old.ended ≡ false }
    requires work { IsWork work.old }
    requires each { (c : List Literal) → Contains clauses.now c → CanCome work.old c }
    ensures grown { WasGrown work.old work.new clauses.now result }
    ensures work { IsWork work.new }
{
    for clause in clauses {
        match add_clause(work, clause.lits()) {
            Ok(()) => {}
            Err(stop) => return Err(stop),
        }
    }
    Ok(())
}
