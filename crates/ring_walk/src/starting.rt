// The assignment that a walk starts with: the units are true for good.
ghost use Rattle.std.specs.Prelude.{◌≡◌, ◌≤◌, ℕ, All, IfOk, true, false, length};
ghost use Rattle.sat_words.specs.Literal.{IsOn};
ghost use Rattle.sat_words.specs.Clause.{has_opposites};
ghost use Rattle.sat_words.specs.Truth.{value_of, lit_true};
ghost use Rattle.ring_walk.specs.WalkData.{is_unit_of};

use sat_words::{Assignment, Lit};
use std::alloc::{AllocError, Global};

/// Marks the variables of the units.
pub(crate) fn fixed_by(alloc: Global, vars: u32, units: &[Lit]) -> Result<Assignment, AllocError>
    requires { All (IsOn vars) units.now }
    ensures { IfOk result (λ a. (v : ℕ) → value_of a v ≡ is_unit_of units.now v) }
{
    let mut fixed = Assignment::new(alloc, vars)?;
    for unit in units {
        fixed.set(unit.var(), true);
    }
    Ok(fixed)
}

/// The values of an assignment for so many variables.
pub(crate) fn copy_of(alloc: Global, vars: u32, from: &Assignment) -> Result<Assignment, AllocError>
    ensures len { IfOk result (λ a. length a ≡ vars) }
    ensures each { IfOk result (λ a. (v : ℕ) → v ≤ vars → value_of a v ≡ value_of from.now v) }
{
    let mut copy = Assignment::new(alloc, vars)?;
    for i in 0..vars {
        copy.set(i + 1, from.value(i + 1));
    }
    Ok(copy)
}

/// The values of an assignment but for the units, which are made true.
pub(crate) fn values_of(
    alloc: Global,
    vars: u32,
    units: &[Lit],
    first: &Assignment,
) -> Result<Assignment, AllocError>
    requires on { All (IsOn vars) units.now }
    requires apart { has_opposites units.now ≡ false }
    ensures len { IfOk result (λ a. length a ≡ vars) }
    ensures units { IfOk result (λ a. All (λ l. lit_true a l ≡ true) units.now) }
    ensures others { IfOk result (λ a. (v : ℕ) → v ≤ vars → is_unit_of units.now v ≡ false → value_of a v ≡ value_of first.now v) }
{
    let mut values = copy_of(alloc, vars, first)?;
    make_true(&mut values, units);
    Ok(values)
}

/// Makes literals true of which no two are opposite.
fn make_true(values: &mut Assignment, units: &[Lit])
    requires on { All (IsOn (length values.old)) units.now }
    requires apart { has_opposites units.now ≡ false }
    ensures len { length values.new ≡ length values.old }
    ensures units { All (λ l. lit_true values.new l ≡ true) units.now }
    ensures others { (v : ℕ) → is_unit_of units.now v ≡ false → value_of values.new v ≡ value_of values.old v }
{
    for unit in units {
        values.set(unit.var(), !unit.is_neg());
    }
}
