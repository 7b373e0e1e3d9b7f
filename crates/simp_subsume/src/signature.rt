// Signatures: the variables of a clause as the bits of one word. If a bit of one clause's signature is not in another's,
// the other clause lacks a variable, and its literals need no look.
ghost use Rattle.std.specs.Prelude.{◌≡◌, ◌^◌, ◌%◌, false, fold, IfOk, IfErr};
ghost use Rattle.simp_base.specs.WorkState.{IsWork};
ghost use Rattle.simp_subsume.specs.Signed.{signature_of, AreSignatures, IsRuledOut};

use drat_text::{LineOut, LineStop};
use sat_words::Lit;
use simp_base::Work;

/// The bit of a variable.
fn bit_of(var: u32) -> u64
    ensures { result ≡ 2 ^ (var % 64) }
{
    1 << (var % 64)
}

/// The bits of the clause's variables.
pub(crate) fn signature_of(clause: &[Lit]) -> u64
    ensures { result ≡ signature_of clause.now }
{
    let mut word = 0;
    for lit in clause {
        word |= bit_of(lit.var());
    }
    word
}

/// The signatures of the clauses alive, by number. Clauses that come later have none.
pub(crate) fn signatures_of<L: LineOut>(work: &Work<L>) -> Result<Vec<u64>, LineStop>
    ensures signed { IfOk result (λ words. AreSignatures work.now words.items) }
    ensures memory { IfErr result (λ stop. stop ≡ LineStop.Memory) }
    ensures work { IsWork work.now }
{
    let count = work.last_number() as usize + 1;
    let Ok(blank) = vec![in work.alloc(); 0; count] else {
        return Err(LineStop::Memory);
    };
    let mut words = blank;
    for cell in work.clauses() {
        words[cell.0 as usize] = signature_of(cell.1.lits());
    }
    Ok(words)
}

/// Whether the clause with this number may have all variables of the signature, as far as is known.
pub(crate) fn may_have(signatures: &[u64], wanted: u64, number: u64) -> bool
    ensures { result ≡ false → IsRuledOut signatures.now wanted number }
{
    if number >= signatures.len() as u64 {
        return true;
    }
    wanted & signatures[number as usize] == wanted
}
