//! Small formulas, told by numbers as in a file.
ghost use Rattle.std.specs.Prelude.{◌≡◌, ◌≤◌, ◌^◌, ◌↔◌, ◌++◌, ◌∷◌, [], ℤ, List, true, map, unsigned_abs, All, IfOk, IsOk, OnOk};
ghost use Rattle.sat_words.specs.Literal.{IsOn};
ghost use Rattle.test_simplifiers.specs.Numbers.{literal_at, clauses_from};

use sat_words::{Clause, Formula, Lit};
use std::alloc::Global;
use std::test::Fail;

fn is_clause_on(vars: u32, clause: &Clause) -> bool
    ensures on { result ≡ true → All (IsOn vars) clause.now }
    ensures all { All (IsOn vars) clause.now → result ≡ true }
{
    clause.lits().iter().all(|lit| lit.var() <= vars)
}

/// Whether each clause is on the formula's variables.
pub fn is_on(formula: &Formula) -> bool
    ensures on { result ≡ true → All (All (IsOn formula.now.vars)) formula.now.clauses }
    ensures all { All (All (IsOn formula.now.vars)) formula.now.clauses → result ≡ true }
{
    let vars = formula.vars();
    formula
        .clauses()
        .iter()
        .all(|clause| is_clause_on(vars, clause))
}

/// The literal of a number: of these variables, and negated if the number is below 0.
pub fn literal(vars: u32, number: i32) -> Result<Lit, Fail>
    requires { vars ≤ 2 ^ 30 }
    ensures ok { IsOk result ↔ ((1 ≤ unsigned_abs number) × (unsigned_abs number ≤ vars)) }
    ensures on { IfOk result (IsOn vars) }
    ensures literal { IfOk result (λ lit. lit ≡ literal_at number) }
{
    let var = number.unsigned_abs();
    if 1 <= var && var <= vars {
        Ok(Lit::new(var, number < 0))
    } else {
        Err("no variable".into())
    }
}

/// The literals of numbers, in order.
pub fn literals(alloc: Global, vars: u32, numbers: &[i32]) -> Result<Vec<Lit>, Fail>
    requires { vars ≤ 2 ^ 30 }
    ensures { IfOk result (λ lits. lits.items ≡ map literal_at numbers.now) }
{
    let mut lits = Vec::new(alloc);
    for number in numbers {
        lits.push(literal(vars, *number)?)?;
    }
    Ok(lits)
}

/// Ends the clause of these literals at a 0, or adds the literal of another number to them.
fn add_number(
    alloc: Global,
    formula: &mut Formula,
    lits: &mut Vec<Lit>,
    number: i32,
) -> Result<(), Fail>
    requires { formula.old.vars ≤ 2 ^ 30 }
    ensures vars { formula.new.vars ≡ formula.old.vars }
    ensures clauses { OnOk result ((ns : List ℤ) → formula.new.clauses ++ clauses_from lits.new.items ns ≡ formula.old.clauses ++ clauses_from lits.old.items (number ∷ ns)) }
{
    if number == 0 {
        formula.push(Clause::from_lits(alloc, lits.as_slice())?)?;
        lits.clear();
        return Ok(());
    }
    lits.push(literal(formula.vars(), number)?)?;
    Ok(())
}

/// The formula of clauses, each with a 0 after it.
pub fn formula_of(alloc: Global, vars: u32, numbers: &[i32]) -> Result<Formula, Fail>
    requires { vars ≤ 2 ^ 30 }
    ensures vars { IfOk result (λ formula. formula.vars ≡ vars) }
    ensures clauses { IfOk result (λ formula. formula.clauses ≡ clauses_from [] numbers.now) }
{
    let mut formula = Formula::new(alloc, vars);
    let mut lits = Vec::new(alloc);
    for number in numbers {
        add_number(alloc, &mut formula, &mut lits, *number)?;
    }
    Ok(formula)
}
