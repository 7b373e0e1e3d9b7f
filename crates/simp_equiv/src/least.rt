// The least node of each component.
ghost use Rattle.std.specs.Prelude.{◌≡◌, ℕ, ◌<◌, IfOk, length};
ghost use Rattle.std.specs.List.{slice_index};
ghost use Rattle.simp_equiv.specs.Leasts.{AreLeast};

use std::alloc::{AllocError, Global};

/// For each place the least place with the same number.
pub(crate) fn least_of(alloc: Global, numbers: &[usize]) -> Result<Vec<usize>, AllocError>
    requires { (k : ℕ) → k < length numbers.now → slice_index numbers.now k < length numbers.now }
    ensures { IfOk result (λ v. AreLeast numbers.now v.items) }
{
    let none = numbers.len();
    let mut first = vec![in alloc; none; numbers.len()]?;
    let mut least = Vec::new(alloc);
    for (place, number) in numbers.iter().enumerate() {
        if first[*number] == none {
            first[*number] = place;
        }
        least.push(first[*number])?;
    }
    Ok(least)
}
