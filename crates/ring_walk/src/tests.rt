ghost use Rattle.std.specs.Prelude.{◌≤◌, ◌^◌, All, IsTrue};
ghost use Rattle.sat_words.specs.Literal.{IsOn};

use crate::Walker;
use rand_core::utils::NextWord;
use rand_pcg::Lcg64Xsh32;
use sat_words::{Assignment, Clause, Lit};
use std::alloc::{AllocError, Global};
use std::test::Fail;

/// Whether the literals of each clause are on the variables up to this one.
fn are_on(vars: u32, clauses: &[Clause]) -> bool
    ensures { IsTrue result → All (All (IsOn vars)) clauses.now }
{
    for clause in clauses {
        if !lits_on(vars, clause.lits()) {
            return false;
        }
    }
    true
}

/// Whether the literals are on the variables up to this one.
fn lits_on(vars: u32, lits: &[Lit]) -> bool
    ensures { IsTrue result → All (IsOn vars) lits.now }
{
    for lit in lits {
        if lit.var() > vars {
            return false;
        }
    }
    true
}

// All variables are false. Clause 1 is false, clause 2 is true by 1 alone, and clause 3 by 2 alone.
#[test]
fn counts_follow_flips(rt: HostRuntime) -> Result<(), Fail> {
    let alloc = rt.alloc();
    let [one, two, three] = [Lit::new(1, false), Lit::new(2, false), Lit::new(3, false)];
    let clauses = vec![in alloc;
        Clause::from_lits(alloc, &[one, two])?,
        Clause::from_lits(alloc, &[one.not(), two])?,
        Clause::from_lits(alloc, &[two.not(), three])?,
    ]?;
    assert!(rt; are_on(3, clauses.as_slice()));
    let first = Assignment::new(alloc, 3)?;
    let mut walker = Walker::new(alloc, 3, clauses.as_slice(), &[], &first)?;
    assert_eq!(rt; walker.false_count(), 1);
    assert_eq!(rt; walker.broken_by(1), 1);
    assert_eq!(rt; walker.broken_by(2), 1);
    assert_eq!(rt; walker.broken_by(3), 0);
    walker.flip(2);
    assert_eq!(rt; walker.false_count(), 1);
    walker.flip(3);
    assert_eq!(rt; walker.false_count(), 0);
    Ok(())
}

/// Clauses of up to three literals, on the variables up to this one.
fn random_clauses(
    alloc: Global,
    generator: &mut Lcg64Xsh32,
    vars: u32,
    count: usize,
) -> Result<Vec<Clause>, AllocError>
    requires low { 1 ≤ vars }
    requires high { vars ≤ 2 ^ 30 }
{
    let mut clauses = Vec::new(alloc);
    for _clause in 0..count {
        let lits = [
            random_lit(generator, vars),
            random_lit(generator, vars),
            random_lit(generator, vars),
        ];
        clauses.push(Clause::from_lits(alloc, &lits)?)?;
    }
    Ok(clauses)
}

/// A literal on the variables up to this one.
fn random_lit(generator: &mut Lcg64Xsh32, vars: u32) -> Lit
    requires low { 1 ≤ vars }
    requires high { vars ≤ 2 ^ 30 }
    ensures { result.var ≤ vars }
{
    let var = generator.next_word() % vars + 1;
    Lit::new(var, generator.next_word() % 2 == 1)
}

/// How many clauses are false, and how many are true by the variable's literal alone, counted anew.
fn counted(clauses: &[Clause], values: &Assignment, var: u32) -> (u64, u32) {
    let mut none: u64 = 0;
    let mut sole: u32 = 0;
    for clause in clauses {
        let mut trues: u32 = 0;
        let mut own = false;
        for lit in clause.lits() {
            if values.truth_of_lit(*lit) {
                trues = trues.saturating_add(1);
                own |= lit.var() == var;
            }
        }
        if trues == 0 {
            none = none.saturating_add(1);
        }
        if trues == 1 && own {
            sole = sole.saturating_add(1);
        }
    }
    (none, sole)
}

#[test]
fn counts_are_those_of_a_slow_count(rt: HostRuntime) -> Result<(), Fail> {
    let alloc = rt.alloc();
    let mut generator = Lcg64Xsh32::new(3, 1);
    let clauses = random_clauses(alloc, &mut generator, 12, 60)?;
    assert!(rt; are_on(12, clauses.as_slice()));
    let mut values = Assignment::new(alloc, 12)?;
    let mut walker = Walker::new(alloc, 12, clauses.as_slice(), &[], &values)?;
    for _flip in 0..300 {
        let var = generator.next_word() % 12 + 1;
        let (none, sole) = counted(clauses.as_slice(), &values, var);
        assert_eq!(rt; walker.false_count(), none);
        assert_eq!(rt; walker.broken_by(var), sole);
        walker.flip(var);
        let value = !values.value(var);
        values.set(var, value);
    }
    Ok(())
}
