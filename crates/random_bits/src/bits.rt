// One bit of each word of a generator, in order. First phases and made formulas are to be the same on each run, so no word may
// be left out or taken twice.
ghost use Rattle.std.specs.Prelude.{◌≡◌, IfOk, OnOk, length};
ghost use Rattle.random_bits.specs.Bits.{bits_from, rest_from};

use rand_core::utils::NextWord;
use rand_pcg::Lcg64Xsh32;
use std::alloc::{AllocError, Global};

/// The lowest bit of each of the next `count` words of the generator, 1 as true; the generator stands behind these words.
/// After an error it stands behind some of them.
pub fn lowest_bits(
    alloc: Global,
    generator: &mut Lcg64Xsh32,
    count: usize,
) -> Result<Vec<bool>, AllocError>
    ensures bits { IfOk result (λ v. v.items ≡ bits_from generator.old count) }
    ensures len { IfOk result (λ v. length v.items ≡ count) }
    ensures rest { OnOk result (generator.new ≡ rest_from generator.old count) }
{
    let mut bits = Vec::with_capacity(alloc, count)?;
    for _i in 0..count {
        bits.push(generator.next_word() % 2 == 1)?;
    }
    Ok(bits)
}
