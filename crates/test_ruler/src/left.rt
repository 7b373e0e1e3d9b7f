//! What the ruler left of a formula.
ghost use Rattle.std.specs.Prelude.{◌≡◌, false, IfOk, length, map, replicate};
ghost use Rattle.model_stack.specs.Extend.{extend};
ghost use Rattle.simp_base.specs.WorkState.{unit_lits};
ghost use Rattle.ruler_simp.specs.Ruled.{AreOn};
ghost use Rattle.test_ruler.specs.Models.{with_units};

use ruler_simp::Simplified;
use sat_words::Assignment;
use std::alloc::{AllocError, Global};

/// The numbers of the start clauses.
pub fn numbers_of(alloc: Global, left: &Simplified) -> Result<Vec<u64>, AllocError>
    ensures { IfOk result (λ numbers. numbers.items ≡ map (λ cell. cell.0) left.now.start.items) }
{
    let mut numbers = Vec::new(alloc);
    for cell in &left.start {
        numbers.push(cell.0)?;
    }
    Ok(numbers)
}

/// The units and nothing else are true, and then the stack mends.
pub fn model_of(alloc: Global, vars: u32, left: &Simplified) -> Result<Assignment, AllocError>
    requires { AreOn vars left.now }
    ensures long { IfOk result (λ model. length model ≡ vars) }
    ensures model { IfOk result (λ model. model ≡ extend left.now.stack (with_units (replicate vars false) (unit_lits left.now.units.items))) }
{
    let mut model = Assignment::new(alloc, vars)?;
    for unit in &left.units {
        model.set(unit.0.var(), !unit.0.is_neg());
    }
    left.stack.extend(&mut model);
    Ok(model)
}
