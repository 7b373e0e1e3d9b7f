use crate::lowest_bits;
use rand_core::utils::NextWord;
use rand_pcg::Lcg64Xsh32;
use std::test::Fail;

// The reference generator (seed 42, stream 54) begins with the words a15c02b7, 7b47f409, ba1d3330, 83d2f293, bfa4784b and
// cbed606e.
#[test]
fn bits_of_the_reference_generator(rt: HostRuntime) -> Result<(), Fail> {
    let mut generator = Lcg64Xsh32::new(42, 54);
    let bits = lowest_bits(rt.alloc(), &mut generator, 5)?;
    assert_eq!(rt; bits.as_slice(), [true, true, false, true, true].as_slice());
    assert_eq!(rt; generator.next_word(), 0xcbed606e);
    Ok(())
}
