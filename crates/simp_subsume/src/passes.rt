// The run of a simplifier by subsumption.
//
// The clauses' numbers are the queue: each clause in turn is compared with those that hold a literal of one of its
// variables, or the literal's negation, and what is left of a clause that is made shorter comes later, under the next
// number. A clause needs one turn alone: what is left of another one is a part of it, so that a clause that was not
// contained before is not contained afterwards.
ghost use Rattle.std.specs.Prelude.{◌≡◌, false, IfOk, IfErr};
ghost use Rattle.simp_base.specs.WorkState.{IsWork};
ghost use Rattle.simp_base.specs.Log.{KeepsLog};
ghost use Rattle.simp_subsume.specs.Signed.{AreSignatures};
ghost use Rattle.simp_subsume.specs.Ends.{Ends};
ghost use Rattle.simp_subsume.specs.Compared.{IsReducedBelow, WasLoaded, WasProcessed};

use crate::candidates::{list_others, rarest};
use crate::compare::compare_with_all;
use crate::signature::signatures_of;
use drat_text::{LineOut, LineStop};
use sat_words::Lit;
use simp_base::{Run, Work, takes_part};

/// Copies the literals of the clause with this number. Answers whether it is alive and takes part; nothing is copied
/// otherwise.
fn load<L: LineOut>(work: &Work<L>, number: u64, clause: &mut Vec<Lit>) -> Result<bool, LineStop>
    ensures loaded { IfOk result (λ yes. WasLoaded work.now number clause.new.items yes) }
    ensures memory { IfErr result (λ stop. stop ≡ LineStop.Memory) }
{
    let Some(found) = work.clause(number) else {
        return Ok(false);
    };
    if !takes_part(found) {
        return Ok(false);
    }
    clause.clear();
    match clause.extend_from_slice(found.lits()) {
        Ok(()) => Ok(true),
        Err(_) => Err(LineStop::Memory),
    }
}

/// Gives the clause with this number its turn.
fn process<L: LineOut>(
    work: &mut Work<L>,
    number: u64,
    signatures: &[u64],
    clause: &mut Vec<Lit>,
    others: &mut Vec<u64>,
) -> Result<(), LineStop>
    requires signed { AreSignatures work.old signatures.now }
    requires unspent { work.old.output.spent ≡ false }
    requires going { work.old.ended ≡ false }
    requires work { IsWork work.old }
    requires before { IsReducedBelow work.old number }
    ensures processed { WasProcessed work.old work.new number result }
    ensures work { IsWork work.new }
{
    if !load(work, number, clause)? {
        return Ok(());
    }
    let lit = rarest(work, clause.as_slice());
    list_others(work, clause.as_slice(), lit, signatures, others)?;
    compare_with_all(work, number, clause.as_slice(), others.as_slice())
}

/// Deletes each clause that contains another one, and replaces each clause of which another one is contained except for one
/// negated literal by what is left without that, until nothing of this is left to do. Tautologies and clauses of one literal
/// are passed over. What is left as a single literal is listed as a unit.
///
/// It never answers that the clauses are refuted. After an error the work serves only to give the line output back.
pub fn run<L: LineOut>(work: &mut Work<L>) -> Result<Run, LineStop>
    requires unspent { work.old.output.spent ≡ false }
    requires going { work.old.ended ≡ false }
    ensures ends { Ends work.old work.new result }
    ensures log { KeepsLog work.old work.new }
    ensures work { IsWork work.new }
{
    let signatures = signatures_of(work)?;
    let mut clause = Vec::new(work.alloc());
    let mut others = Vec::new(work.alloc());
    for number in 0..u64::MAX {
        if number > work.last_number() {
            return Ok(Run::Done);
        }
        match process(
            work,
            number,
            signatures.as_slice(),
            &mut clause,
            &mut others,
        ) {
            Ok(()) => {}
            Err(stop) => return Err(stop),
        }
    }
    let _last = work.last_number();
    Ok(Run::Done)
}
