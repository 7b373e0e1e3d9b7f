ghost use Rattle.std.specs.Prelude.{◌≡◌, ◌≤◌, ◌^◌, length};

use crate::decider::Decider;
use ring_trail::Trail;
use std::alloc::{AllocError, Global};
use std::test::Fail;

/// The variables in the order in which they are decided.
fn order(alloc: Global, decider: &mut Decider) -> Result<Vec<u32>, AllocError>
    requires { length decider.old.active ≡ 5 }
    ensures { decider.new ≡ decider.old }
{
    let mut trail = Trail::new(alloc, 5)?;
    let mut vars = Vec::new(alloc);
    for _decided in 0..5u32 {
        if let Some(lit) = decider.next(&trail) {
            trail.decide(lit);
            vars.push(lit.var())?;
        }
    }
    Ok(vars)
}

/// So many conflicts, each of which met this variable.
fn meet(decider: &mut Decider, var: u32, conflicts: u32)
    requires low { 1 ≤ var }
    requires high { var ≤ length decider.old.active }
    ensures { decider.new ≡ decider.old }
{
    for _met in 0..conflicts {
        decider.bump(var);
        decider.conflict();
    }
}

// By the scores, which are 0, 2048, 1078, 0 and 1024: one conflict came before the bump of variable 3.
#[test]
fn the_greatest_score_comes_first(rt: HostRuntime) -> Result<(), Fail> {
    let alloc = rt.alloc();
    let mut decider = Decider::new(alloc, &[true; 5], 0, 2)?;
    decider.bump(5);
    decider.bump(2);
    decider.bump(2);
    decider.conflict();
    decider.bump(3);
    assert_eq!(rt;
        order(alloc, &mut decider)?.as_slice(),
        [2, 3, 5, 1, 4].as_slice()
    );
    Ok(())
}

// What a bump adds grows past the greatest word many times over. Variable 4 was met by this many conflicts that a last bump of
// variable 1 doesn't reach it.
#[test]
fn scores_are_lowered_together(rt: HostRuntime) -> Result<(), Fail> {
    let alloc = rt.alloc();
    let mut decider = Decider::new(alloc, &[true; 5], 0, 2)?;
    decider.bump(2);
    meet(&mut decider, 4, 5000);
    decider.bump(1);
    assert_eq!(rt;
        order(alloc, &mut decider)?.as_slice(),
        [4, 1, 2, 3, 5].as_slice()
    );
    Ok(())
}

/// The variable that is decided first after this many conflicts that met none, 0 if there is none.
fn first_after(alloc: Global, decider: &mut Decider, conflicts: u32) -> Result<u32, AllocError>
    requires { length decider.old.active ≡ 5 }
    ensures { decider.new ≡ decider.old }
{
    for _conflict in 0..conflicts {
        decider.conflict();
    }
    let trail = Trail::new(alloc, 5)?;
    Ok(decider.next(&trail).map_or(0, |lit| lit.var()))
}

/// The variables that are decided first after none, 1000, 2000, 5999 and 6000 conflicts: by the scores the least one, and by
/// the queue the last one.
fn firsts(alloc: Global, ring: u32) -> Result<Vec<u32>, AllocError> {
    let mut decider = Decider::new(alloc, &[true; 5], 0, ring)?;
    let mut firsts = Vec::new(alloc);
    for conflicts in [0, 1000, 1000, 3999, 1] {
        firsts.push(first_after(alloc, &mut decider, conflicts)?)?;
    }
    Ok(firsts)
}

#[test]
fn rings_take_turns_by_their_numbers(rt: HostRuntime) -> Result<(), Fail> {
    let alloc = rt.alloc();
    assert_eq!(rt; firsts(alloc, 0)?.as_slice(), [5, 1, 5, 5, 1].as_slice());
    assert_eq!(rt; firsts(alloc, 1)?.as_slice(), [1, 5, 1, 1, 5].as_slice());
    assert_eq!(rt; firsts(alloc, 2)?.as_slice(), [1; 5].as_slice());
    assert_eq!(rt; firsts(alloc, 7)?.as_slice(), [5; 5].as_slice());
    Ok(())
}
