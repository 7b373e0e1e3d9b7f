// The numbers of the clauses with a literal, and the other literals of one of them.
ghost use Rattle.std.specs.Prelude.{◌≡◌, ◌&&◌, not, true, ◌++◌, ℕ, List, Contains, IfOk, IfErr, OnOk};
ghost use Rattle.std.specs.List.Sorted.{IsStrictlyIncreasing};
ghost use Rattle.sat_words.specs.Literal.{Literal, IsOn};
ghost use Rattle.sat_words.specs.Clause.{has, is_empty};
ghost use Rattle.simp_base.specs.WorkState.{IsWork};
ghost use Rattle.simp_add.specs.Common.{others, mentions};
ghost use Rattle.simp_add.specs.Alike.{IsLoaded};

use drat_text::{LineOut, LineStop};
use sat_words::Lit;
use simp_base::Work;
use std::alloc::{AllocError, Global};

/// The numbers of the list, ascending, each once.
fn ascending(alloc: Global, numbers: &[u64]) -> Result<Vec<u64>, AllocError>
    ensures rising { IfOk result (λ ns. IsStrictlyIncreasing ns.items) }
    ensures every { IfOk result (λ ns. (n : ℕ) → Contains numbers.now n → Contains ns.items n) }
{
    let mut all = Vec::from_slice(alloc, numbers)?;
    all.sort_unstable();
    all.dedup();
    Ok(all)
}

/// The numbers of the clauses alive that hold the literal, ascending, and perhaps some of clauses that do not.
pub(crate) fn numbers_of<L: LineOut>(work: &Work<L>, lit: Lit) -> Result<Vec<u64>, LineStop>
    requires on { IsOn work.now.vars lit }
    ensures rising { IfOk result (λ ns. IsStrictlyIncreasing ns.items) }
    ensures every { IfOk result (λ ns. (n : ℕ) (c : List Literal) → Contains work.now.clauses (n, c) → has c lit ≡ true
        → Contains ns.items n) }
    ensures memory { IfErr result (λ stop. stop ≡ LineStop.Memory) }
{
    match ascending(work.alloc(), work.occurrences(lit)) {
        Ok(numbers) => Ok(numbers),
        Err(_) => Err(LineStop::Memory),
    }
}

/// Puts the literals of the list but one.
pub(crate) fn put_others(rest: &mut Vec<Lit>, lits: &[Lit], but: Lit) -> Result<(), AllocError>
    ensures { OnOk result (rest.new.items ≡ rest.old.items ++ others but lits.now) }
{
    for lit in lits {
        if but != *lit {
            rest.push(*lit)?;
        }
    }
    Ok(())
}

/// Whether the list has a literal and none of this one's variable.
fn may_be_common(rest: &[Lit], lit: Lit) -> bool
    ensures { result ≡ (not (is_empty rest.now) && not (mentions lit rest.now)) }
{
    !rest.is_empty() && !rest.contains(&lit) && !rest.contains(&lit.not())
}

/// Whether the list has the literal.
fn holds(lits: &[Lit], lit: Lit) -> bool
    ensures { result ≡ has lits.now lit }
{
    lits.contains(&lit)
}

/// Loads the other literals of the clause with this number. Answers whether the clause is alive and has the literal, and the
/// others may be a common set.
pub(crate) fn load<L: LineOut>(
    work: &Work<L>,
    lit: Lit,
    number: u64,
    rest: &mut Vec<Lit>,
) -> Result<bool, LineStop>
    ensures loaded { IfOk result (λ yes. IsLoaded work.now lit number rest.new.items yes) }
    ensures memory { IfErr result (λ stop. stop ≡ LineStop.Memory) }
{
    let Some(clause) = work.clause(number) else {
        return Ok(false);
    };
    if !holds(clause.lits(), lit) {
        return Ok(false);
    }
    rest.clear();
    match put_others(rest, clause.lits(), lit) {
        Ok(()) => Ok(may_be_common(rest.as_slice(), lit)),
        Err(_) => Err(LineStop::Memory),
    }
}
