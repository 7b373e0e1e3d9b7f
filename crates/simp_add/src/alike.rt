// The clauses that have the literals of a list and one more.
//
// Each of them is noted for each literal of the list, so that those noted for one of these are enough, the one with the fewest.
ghost use Rattle.std.specs.Prelude.{◌≡◌, ◌<◌, ◌++◌, ◌∷◌, [], ℕ, List, true, length, All, OnOk, IfErr};
ghost use Rattle.sat_words.specs.Literal.{IsOn};
ghost use Rattle.sat_words.specs.Clause.{has, InOrder};
ghost use Rattle.simp_base.specs.WorkState.{IsWork};
ghost use Rattle.simp_add.specs.Alike.{IsAlike, Listed, AreAlike, is_later};

use crate::one_more::one_more;
use drat_text::{LineOut, LineStop};
use sat_words::Lit;
use simp_base::Work;

/// A clause that has the literals of a list and one more.
#[derive(Clone, Copy)]
pub(crate) struct Alike {
    /// The one more.
    pub(crate) lit: Lit,
    /// The number of the clause.
    pub(crate) number: u64,
}

/// The literal of the list for which the fewest numbers are noted.
fn rarest<L: LineOut>(work: &Work<L>, lits: &[Lit]) -> Lit
    requires on { All (IsOn work.now.vars) lits.now }
    requires some { 0 < length lits.now }
    ensures { has lits.now result ≡ true }
{
    let mut best = lits[0];
    let mut fewest = work.occurrences(best).len();
    for lit in lits {
        let count = work.occurrences(*lit).len();
        if count < fewest {
            best = *lit;
            fewest = count;
        }
    }
    best
}

/// The literal that the clause with this number has beside those of the list; none if it is not alive, or differs by more.
fn alike_at<L: LineOut>(work: &Work<L>, rest: &[Lit], number: u64) -> Option<Lit>
    requires ordered { InOrder rest.now }
    ensures { IsAlike work.now rest.now number result }
{
    match work.clause(number) {
        Some(clause) => one_more(rest, clause.lits()),
        None => None,
    }
}

fn push(found: &mut Vec<Alike>, lit: Lit, number: u64) -> Result<(), LineStop>
    ensures ok { OnOk result (found.new.items ≡ found.old.items ++ record { lit = lit; number = number } ∷ []) }
    ensures memory { IfErr result (λ stop. stop ≡ LineStop.Memory) }
{
    match found.push(Alike { lit, number }) {
        Ok(()) => Ok(()),
        Err(_) => Err(LineStop::Memory),
    }
}

/// Puts the clause with this number if it has the literals of the list and one more.
fn put_alike<L: LineOut>(
    work: &Work<L>,
    rest: &[Lit],
    number: u64,
    found: &mut Vec<Alike>,
) -> Result<(), LineStop>
    requires ordered { InOrder rest.now }
    requires work { IsWork work.now }
    ensures listed { OnOk result ((numbers : List ℕ) → Listed work.now rest.now numbers found.old.items
        → Listed work.now rest.now (numbers ++ number ∷ []) found.new.items) }
    ensures memory { IfErr result (λ stop. stop ≡ LineStop.Memory) }
{
    match alike_at(work, rest, number) {
        Some(lit) => {
            push(found, lit, number)?;
            Ok(())
        }
        None => Ok(()),
    }
}

/// Lists the clauses that have the literals of the list and one more.
pub(crate) fn list_alike<L: LineOut>(
    work: &Work<L>,
    rest: &[Lit],
    found: &mut Vec<Alike>,
) -> Result<(), LineStop>
    requires on { All (IsOn work.now.vars) rest.now }
    requires some { 0 < length rest.now }
    requires ordered { InOrder rest.now }
    ensures alike { OnOk result (AreAlike work.now rest.now found.new.items) }
    ensures memory { IfErr result (λ stop. stop ≡ LineStop.Memory) }
{
    let _clauses = work.clauses();
    let rare = rarest(work, rest);
    found.clear();
    for number in work.occurrences(rare) {
        match put_alike(work, rest, *number, found) {
            Ok(()) => {}
            Err(stop) => return Err(stop),
        }
    }
    Ok(())
}

/// Whether a clause with the literal has a smaller number than this one.
pub(crate) fn is_later(found: &[Alike], lit: Lit, number: u64) -> bool
    ensures { result ≡ is_later found.now lit number }
{
    found
        .iter()
        .any(|alike| alike.lit == lit && alike.number < number)
}
