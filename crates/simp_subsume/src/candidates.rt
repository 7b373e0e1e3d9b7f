// Which clauses may contain the one at hand, as it is or with one literal negated.
//
// Each of them holds a literal of each of its variables. So those noted for the literals of one variable are enough, the
// one with the fewest; of these the ones whose signatures lack a variable are left out.
ghost use Rattle.std.specs.Prelude.{◌≡◌, ◌⊎◌, ◌++◌, ◌∷◌, [], ◌<◌, ℕ, List, true, Contains, OnOk, IfErr, All, length};
ghost use Rattle.sat_words.specs.Literal.{Literal, IsOn};
ghost use Rattle.sat_words.specs.Clause.{has};
ghost use Rattle.simp_subsume.specs.Related.{IsUnrelated};
ghost use Rattle.simp_subsume.specs.Signed.{AreSignatures, IsRuledOut};

use crate::signature::{may_have, signature_of};
use drat_text::{LineOut, LineStop};
use sat_words::Lit;
use simp_base::Work;

/// How many numbers are noted for the literal and its negation.
fn noted<L: LineOut>(work: &Work<L>, lit: Lit) -> usize
    requires on { IsOn work.now.vars lit }
{
    work.occurrences(lit)
        .len()
        .saturating_add(work.occurrences(lit.not()).len())
}

/// The literal of the clause whose variable has the fewest numbers noted.
pub(crate) fn rarest<L: LineOut>(work: &Work<L>, clause: &[Lit]) -> Lit
    requires on { All (IsOn work.now.vars) clause.now }
    requires some { 0 < length clause.now }
    ensures { has clause.now result ≡ true }
{
    let mut best = clause[0];
    let mut fewest = noted(work, best);
    for lit in clause {
        let count = noted(work, *lit);
        if count < fewest {
            best = *lit;
            fewest = count;
        }
    }
    best
}

fn push(numbers: &mut Vec<u64>, number: u64) -> Result<(), LineStop>
    ensures ok { OnOk result (numbers.new.items ≡ numbers.old.items ++ number ∷ []) }
    ensures memory { IfErr result (λ stop. stop ≡ LineStop.Memory) }
{
    match numbers.push(number) {
        Ok(()) => Ok(()),
        Err(_) => Err(LineStop::Memory),
    }
}

/// Puts those of the numbers after the others whose clauses may have all variables of the signature.
fn append_alike(
    others: &mut Vec<u64>,
    numbers: &[u64],
    signatures: &[u64],
    wanted: u64,
) -> Result<(), LineStop>
    ensures kept { OnOk result ((n : ℕ) → Contains others.old.items n → Contains others.new.items n) }
    ensures every { OnOk result ((n : ℕ) → Contains numbers.now n → IsRuledOut signatures.now wanted n ⊎ Contains others.new.items n) }
    ensures memory { IfErr result (λ stop. stop ≡ LineStop.Memory) }
{
    for number in numbers {
        if may_have(signatures, wanted, *number) {
            push(others, *number)?;
        }
    }
    Ok(())
}

/// Lists the numbers of the clauses that may contain the one at hand, which has the literal, as it is or with one literal
/// negated.
pub(crate) fn list_others<L: LineOut>(
    work: &Work<L>,
    clause: &[Lit],
    lit: Lit,
    signatures: &[u64],
    others: &mut Vec<u64>,
) -> Result<(), LineStop>
    requires on { IsOn work.now.vars lit }
    requires holds { has clause.now lit ≡ true }
    requires signed { AreSignatures work.now signatures.now }
    ensures every { OnOk result ((n : ℕ) (d : List Literal) → Contains work.now.clauses (n, d) → IsUnrelated clause.now d ⊎ Contains others.new.items n) }
    ensures memory { IfErr result (λ stop. stop ≡ LineStop.Memory) }
{
    let wanted = signature_of(clause);
    others.clear();
    append_alike(others, work.occurrences(lit), signatures, wanted)?;
    append_alike(others, work.occurrences(lit.not()), signatures, wanted)?;
    Ok(())
}
