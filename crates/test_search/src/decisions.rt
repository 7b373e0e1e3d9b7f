// `ring_decide`: decisions, one after another, and such as follow on variables that were bumped.
ghost use Rattle.std.specs.Prelude.{◌≡◌, length};

use crate::deciding::decide_next;
use ring_decide::Decider;
use ring_trail::Trail;
use sat_words::Lit;
use std::alloc::{AllocError, Global};
use std::test::Fail;

/// So many decisions, one after another.
fn decisions(
    alloc: Global,
    decider: &mut Decider,
    trail: &mut Trail,
    count: u32,
) -> Result<Vec<Option<Lit>>, AllocError>
    requires { trail.old.vars ≡ length decider.old.active }
    ensures vars { trail.new.vars ≡ length decider.new.active }
    ensures len { length decider.new.active ≡ length decider.old.active }
{
    let mut decided = Vec::new(alloc);
    for _done in 0..count {
        decided.push(decide_next(decider, trail))?;
    }
    Ok(decided)
}

// The first six words of the reference generator (seed 42, stream 54) end in the bits 1, 1, 0, 1, 1, 0. In ring 54 the scores
// decide: while none rose, the least variable comes first, and one that is not active never.
#[test]
fn first_phases_are_the_generators(rt: HostRuntime) -> Result<(), Fail> {
    let alloc = rt.alloc();
    let mut decider = Decider::new(alloc, &[true, true, true, false, true, true], 42, 54)?;
    let mut trail = Trail::new(alloc, 6)?;
    let decided = decisions(alloc, &mut decider, &mut trail, 6)?;
    let wanted = [
        Some(Lit::new(1, false)),
        Some(Lit::new(2, false)),
        Some(Lit::new(3, true)),
        Some(Lit::new(5, false)),
        Some(Lit::new(6, true)),
        None,
    ];
    assert!(rt; decided.as_slice() == wanted.as_slice());
    Ok(())
}

// What is bumped comes next, with the phase that was saved; what lost its value is found again. By the queue (ring 55) what
// was bumped last comes first, and by the scores (ring 54) what was bumped more often.
#[test]
fn bumped_variables_come_first(rt: HostRuntime) -> Result<(), Fail> {
    let alloc = rt.alloc();
    let one = Lit::new(1, false);
    let not_two = Lit::new(2, true);
    for ring in [54, 55] {
        let mut decider = Decider::new(alloc, &[true, true, true], 42, ring)?;
        let mut trail = Trail::new(alloc, 3)?;
        decider.bump(2);
        decider.bump(1);
        decider.bump(2);
        decider.save(one);
        decider.save(not_two);
        let decided = decisions(alloc, &mut decider, &mut trail, 2)?;
        assert!(rt; decided.as_slice() == [Some(not_two), Some(one)].as_slice());
        trail.back_to(0);
        decider.save(not_two);
        assert!(rt; decider.next(&trail) == Some(not_two));
    }
    Ok(())
}
