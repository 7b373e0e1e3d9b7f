use crate::{Assignment, Clause, Formula, Line, Lit, Lits, Values};
use std::alloc::Global;
use std::test::Fail;

#[test]
fn literals_as_codes_and_text(rt: HostRuntime) -> Result<(), Fail> {
    let most = 1 << 30;
    let table = [
        (1, false, 2, "1"),
        (1, true, 3, "-1"),
        (2, false, 4, "2"),
        (20, true, 41, "-20"),
        (most, false, 2147483648, "1073741824"),
        (most, true, 2147483649, "-1073741824"),
    ];
    for (var, neg, code, text) in table {
        let lit = Lit::new(var, neg);
        assert_eq!(rt; lit.code(), code);
        assert_eq!(rt; lit.var(), var);
        assert_eq!(rt; lit.is_neg(), neg);
        assert_eq!(rt; lit.not(), Lit::new(var, !neg));
        assert_eq!(rt; lit.to_string(rt.alloc())?.as_str(), text);
    }
    Ok(())
}

#[test]
fn a_clause_is_a_set(rt: HostRuntime) -> Result<(), Fail> {
    let alloc = rt.alloc();
    let one = Lit::new(1, false);
    let two = Lit::new(2, true);
    let clause = Clause::from_lits(alloc, &[two, one, two, one.not()])?;
    assert!(rt; clause.lits() == [one, one.not(), two].as_slice());
    assert!(rt; clause == Clause::from_lits(alloc, &[one.not(), two, one])?);
    assert!(rt; clause == clause.clone()?);
    assert!(rt; clause != Clause::from_lits(alloc, &[])?);
    Ok(())
}

#[test]
fn truth_of_literals(rt: HostRuntime) -> Result<(), Fail> {
    let mut values = Assignment::new(rt.alloc(), 2)?;
    values.set(2, true);
    let table = [(1, false), (2, true), (3, false), (1 << 30, false)];
    for (var, value) in table {
        assert_eq!(rt; values.value(var), value, "variable {var}");
        assert_eq!(rt;
            values.truth_of_lit(Lit::new(var, false)),
            value,
            "variable {var}"
        );
        assert_eq!(rt;
            values.truth_of_lit(Lit::new(var, true)),
            !value,
            "variable {var} negated"
        );
    }
    assert_eq!(rt; values.len(), 2);
    assert!(rt; !values.is_empty());
    assert!(rt; Assignment::new(rt.alloc(), 0)?.is_empty());
    assert!(rt; values == values.clone()?);
    assert!(rt; values != Assignment::new(rt.alloc(), 2)?);
    Ok(())
}

// The clause `1 -3`.
fn some_clause(alloc: Global) -> Result<Clause, Fail> {
    Ok(Clause::from_lits(alloc, &[Lit::new(1, false), Lit::new(3, true)])?)
}

// The clauses `1 -3` and `2`.
fn some_formula(alloc: Global) -> Result<Formula, Fail> {
    let mut formula = Formula::new(alloc, 3);
    formula.push(some_clause(alloc)?)?;
    formula.push(Clause::from_lits(alloc, &[Lit::new(2, false)])?)?;
    Ok(formula)
}

fn some_values(alloc: Global, one: bool, two: bool, three: bool) -> Result<Assignment, Fail> {
    let mut values = Assignment::new(alloc, 3)?;
    values.set(1, one);
    values.set(2, two);
    values.set(3, three);
    Ok(values)
}

#[test]
fn truth_of_a_formula(rt: HostRuntime) -> Result<(), Fail> {
    let first = some_clause(rt.alloc())?;
    let formula = some_formula(rt.alloc())?;
    let table = [
        (false, false, false, true, false),
        (false, false, true, false, false),
        (false, true, false, true, true),
        (false, true, true, false, false),
        (true, false, false, true, false),
        (true, false, true, true, false),
        (true, true, false, true, true),
        (true, true, true, true, true),
    ];
    for (one, two, three, clause, whole) in table {
        let values = some_values(rt.alloc(), one, two, three)?;
        assert_eq!(rt; values.clause_true(&first), clause);
        assert_eq!(rt; values.formula_true(&formula), whole);
    }
    Ok(())
}

#[test]
fn the_empty_clause_and_formula(rt: HostRuntime) -> Result<(), Fail> {
    let alloc = rt.alloc();
    let values = Assignment::new(alloc, 0)?;
    assert!(rt; values.formula_true(&Formula::new(alloc, 0)));
    assert!(rt; !values.clause_true(&Clause::from_lits(alloc, &[])?));
    Ok(())
}

#[test]
fn a_formula_grows(rt: HostRuntime) -> Result<(), Fail> {
    let alloc = rt.alloc();
    let mut formula = some_formula(alloc)?;
    let before = formula.clone()?;
    formula.push(Clause::from_lits(alloc, &[])?)?;
    assert!(rt; formula != before);
    assert_eq!(rt; formula.vars(), 3);
    assert_eq!(rt; formula.clauses().len(), 3);
    Ok(())
}

#[test]
fn a_line_keeps_order_and_repeats(rt: HostRuntime) -> Result<(), Fail> {
    let alloc = rt.alloc();
    let given = [Lit::new(2, true), Lit::new(1, false), Lit::new(2, true)];
    let lits = Lits::from_slice(alloc, &given)?;
    let again = Lits::from_vec(lits.clone()?.into_vec());
    assert!(rt; again == lits);
    assert!(rt; again.as_slice() == given.as_slice());
    assert!(rt; Line::Add(again) != Line::Del(lits));
    Ok(())
}

#[test]
fn values_come_and_go(rt: HostRuntime) -> Result<(), Fail> {
    let mut values = Values::new(rt.alloc(), 3)?;
    values.set(Lit::new(1, false));
    values.set(Lit::new(3, true));
    assert!(rt; values.is_true(Lit::new(3, true)));
    assert!(rt; values.is_false(Lit::new(3, false)));
    assert!(rt; !values.is_false(Lit::new(2, false)));
    let one = Lit::new(1, false);
    assert!(rt; values.is_open(one, Lit::new(2, false)));
    assert!(rt; values.is_open(one, Lit::new(3, true)));
    assert!(rt; !values.is_open(one, one));
    assert!(rt; !values.is_open(one, Lit::new(3, false)));
    assert_eq!(rt; values.value(1), Some(true));
    values.unset(1);
    assert_eq!(rt; values.value(1), None);
    values.clear();
    for var in 0..5 {
        assert_eq!(rt; values.value(var), None);
    }
    Ok(())
}
