// `simp_base`, the calls of a work: each once, a deletion whose line stands or fails, and which clauses are tautologies.
ghost use Rattle.std.specs.Prelude.{◌≡◌, ◌∷◌, [], true, false, All, IfOk};
ghost use Rattle.sat_words.specs.Literal.{IsOn};
ghost use Rattle.sat_words.specs.Clause.{has_opposites, is_empty};
ghost use Rattle.sat_words.specs.declared.line.ProofFormat.TheVariants.{Text};

use crate::{follows, formula_of, is_on, is_rat_there, literals, text_work};
use drat_text::{CountedLines, SinkLines};
use io_edge::MemSink;
use sat_words::{Clause, Formula, Lit};
use simp_base::{LineStop, Work, is_tautology, takes_part};
use std::alloc::Global;
use std::test::Fail;

/// A work whose lines are kept as text.
type Written = Work<SinkLines<MemSink<'static>>>;

/// What a work on one clause, that of this literal on variable 1, answers before it changes.
fn answers_at_first(work: &Written, one: Lit) -> bool
    requires on { IsOn work.now.vars one }
    requires vars { work.now.vars ≡ 2 }
{
    work.numbers_with(one).is_ok()
        && work.occurrences(one) == [1].as_slice()
        && work.last_number() == 1
        && work.line_count() == 0
        && work.has_unit(1)
        && !work.has_unit(2)
}

/// Puts an entry onto the stack, and adds a clause that follows from the first one.
fn adds_clause(alloc: Global, work: &mut Written, one: Lit, two: Lit) -> Result<bool, Fail>
    requires unspent { work.old.output.spent ≡ false }
    requires going { work.old.ended ≡ false }
    requires on { All (IsOn work.old.vars) (one ∷ two ∷ []) }
    requires apart { has_opposites (one ∷ two ∷ []) ≡ false }
    ensures { IfOk result (λ yes. yes ≡ true → (work.new.output.spent ≡ false) × (work.new.ended ≡ false) × (work.new.vars ≡ work.old.vars)) }
{
    let fix = Clause::from_lits(alloc, &[two, one])?;
    if work.push_fix(two, fix).is_err() {
        return Ok(false);
    }
    if !follows(alloc, work, 1, &[one, two])? {
        return Ok(false);
    }
    Ok(work.add_rup(&[one, two]) == Ok(2))
}

/// Lists a unit that follows from the first clause.
fn lists_unit(alloc: Global, work: &mut Written, one: Lit) -> Result<bool, Fail>
    requires unspent { work.old.output.spent ≡ false }
    requires going { work.old.ended ≡ false }
    requires on { IsOn work.old.vars one }
{
    if !follows(alloc, work, 1, &[one])? {
        return Ok(false);
    }
    Ok(work.unit(one).is_ok() && work.line_count() == 1)
}

/// What these calls leave.
fn leaves_one_line(work: Written, one: Lit) -> bool {
    let parts = work.into_parts();
    let (end, sink) = parts.output.finish();
    end.is_ok()
        && parts.clauses.len() == 2
        && parts.units.as_slice() == [(one, 1)].as_slice()
        && sink.bytes() == b"1 2 0\n".as_slice()
}

#[test]
fn each_call_goes_well(rt: HostRuntime) -> Result<(), Fail> {
    let alloc = rt.alloc();
    let one = Lit::new(1, false);
    let two = Lit::new(2, false);
    let formula = formula_of(alloc, 2, &[1, 0])?;
    assert!(rt; is_on(&formula));
    let mut work = text_work(alloc, &formula, 64)?;
    assert!(rt; answers_at_first(&work, one));
    assert!(rt; adds_clause(alloc, &mut work, one, two)?);
    assert!(rt; lists_unit(alloc, &mut work, one)?);
    assert!(rt; leaves_one_line(work, one));
    Ok(())
}

/// Adds the clause of these literals by a line that is RAT on the first of them.
fn adds_by_rat(alloc: Global, work: &mut Written, lits: &[Lit]) -> Result<bool, Fail>
    requires unspent { work.old.output.spent ≡ false }
    requires plain { work.old.output.format ≡ Text }
    requires going { work.old.ended ≡ false }
    requires on { All (IsOn work.old.vars) lits.now }
    requires more { is_empty lits.now ≡ false }
    ensures { IfOk result (λ yes. yes ≡ true → (work.new.output.spent ≡ false) × (work.new.output.format ≡ Text) × (work.new.ended ≡ false) × (work.new.vars ≡ work.old.vars)) }
{
    if lits[0].var() <= work.unheld_vars() {
        return Ok(false);
    }
    if !is_rat_there(alloc, work, lits)? {
        return Ok(false);
    }
    Ok(work.add_rat(lits).is_ok())
}

/// A variable that stands for a clause of two literals: it comes after the last, and three RAT lines define it.
fn defines_variable(alloc: Global, work: &mut Written, one: Lit, two: Lit) -> Result<bool, Fail>
    requires unspent { work.old.output.spent ≡ false }
    requires plain { work.old.output.format ≡ Text }
    requires going { work.old.ended ≡ false }
    requires one { IsOn work.old.vars one }
    requires two { IsOn work.old.vars two }
{
    let Ok(Some(both)) = work.fresh() else {
        return Ok(false);
    };
    if both.var() != 3 || both.is_neg() || work.vars() != 3 {
        return Ok(false);
    }
    Ok(
        adds_by_rat(alloc, work, &[both, one.not()])?
            && adds_by_rat(alloc, work, &[both, two.not()])?
            && adds_by_rat(alloc, work, &[both.not(), two, one])?
            && work.last_number() == 4
            && work.line_count() == 3,
    )
}

#[test]
fn a_fresh_variable_and_rat_lines(rt: HostRuntime) -> Result<(), Fail> {
    let alloc = rt.alloc();
    let formula = formula_of(alloc, 2, &[1, 2, 0])?;
    assert!(rt; is_on(&formula));
    let mut work = text_work(alloc, &formula, 64)?;
    assert!(rt; defines_variable(alloc, &mut work, Lit::new(1, false), Lit::new(2, false))?);
    let Ok(Some(next)) = work.fresh() else {
        return Err("no variable".into());
    };
    assert_eq!(rt; next.var(), 4);
    let (end, sink) = work.into_parts().output.finish();
    assert!(rt; end.is_ok());
    assert!(rt; sink.bytes() == b"3 -1 0\n3 -2 0\n-3 2 1 0\n".as_slice());
    Ok(())
}

#[test]
fn a_deletion_and_a_fault(rt: HostRuntime) -> Result<(), Fail> {
    let alloc = rt.alloc();
    let one = Lit::new(1, false);
    let two = Lit::new(2, false);
    let mut formula = Formula::new(alloc, 2);
    formula.push(Clause::from_lits(alloc, &[one, two])?)?;
    for (failing, answer, left) in [(0, Ok(()), 0), (1, Err(LineStop::ProofFault), 1)] {
        let lines = CountedLines::new(1, failing);
        let Ok(work) = Work::new(alloc, &formula, lines) else {
            return Err("no memory".into());
        };
        let mut work = work;
        assert!(rt; work.delete(1) == answer);
        assert_eq!(rt; work.into_parts().clauses.len(), left);
    }
    Ok(())
}

/// Clauses, and whether each is a tautology, and takes part in what is simplified.
const CLAUSES: &[(&[i32], bool, bool)] = &[
    (&[2, 1, -2], true, false),
    (&[-1, 2], false, true),
    (&[2, 1, -1], true, false),
    (&[1], false, false),
];

#[test]
fn tautologies(rt: HostRuntime) -> Result<(), Fail> {
    for (numbers, tautology, part) in CLAUSES {
        let lits = literals(rt.alloc(), 2, numbers)?;
        let clause = Clause::from_lits(rt.alloc(), lits.as_slice())?;
        assert!(rt; is_tautology(&clause) == *tautology);
        assert!(rt; takes_part(&clause) == *part);
    }
    Ok(())
}
