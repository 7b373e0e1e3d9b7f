// The values that propagation begins with, and the clauses that it looks at first.
ghost use Rattle.std.specs.Prelude.{◌≡◌, ◌<◌, ◌+◌, ℕ, List, true, false, Contains, IfOk, IfErr, IsTrue, length, vec_len, All, replicate, None};
ghost use Rattle.sat_words.specs.Literal.{Literal, IsOn};
ghost use Rattle.sat_words.specs.Clause.{has};
ghost use Rattle.sat_words.specs.Values.{is_true};
ghost use Rattle.simp_base.specs.WorkState.{unit_lits};
ghost use Rattle.simp_units.specs.Begun.{WasLoaded};

use drat_text::{LineOut, LineStop};
use sat_words::{Lit, Values};
use simp_base::Work;
use std::alloc::Global;

/// Makes the units true, one after another. Answers whether none of them was false before its turn.
pub(crate) fn load(units: &[(Lit, u64)], values: &mut Values) -> bool
    requires blank { (l : Literal) → is_true values.old l ≡ false }
    requires on { All (λ l. l.var < length values.old) (unit_lits units.now) }
    ensures { WasLoaded (unit_lits units.now) values.old values.new result }
{
    for unit in units {
        if values.is_false(unit.0) {
            return false;
        }
        values.set(unit.0);
    }
    true
}

/// The numbers of all clauses.
pub(crate) fn numbers_of<L: LineOut>(alloc: Global, work: &Work<L>) -> Result<Vec<u64>, LineStop>
    ensures every { IfOk result (λ all. (n : ℕ) (c : List Literal) → Contains work.now.clauses (n, c) → Contains all.items n) }
    ensures memory { IfErr result (λ stop. stop ≡ LineStop.Memory) }
{
    let mut all = Vec::new(alloc);
    for cell in work.clauses() {
        if all.push(cell.0).is_err() {
            return Err(LineStop::Memory);
        }
    }
    Ok(all)
}
