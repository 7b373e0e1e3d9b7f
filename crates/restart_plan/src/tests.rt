ghost use Rattle.std.specs.Prelude.{◌≤◌, ◌+◌};

use crate::{Restarts, luby};
use std::test::Fail;

/// How many lemmas of this glue come up to the next restart, which is due; 0 if none is due after `most` lemmas.
fn lemmas_to_restart(restarts: &mut Restarts, glue: u32, most: u32) -> u32
    requires { restarts.old.count ≤ 1000000 }
    ensures { restarts.new.count ≤ restarts.old.count + most }
{
    for n in 0..most {
        restarts.note(glue);
        if restarts.due() {
            return n + 1;
        }
    }
    0
}

// The first seven numbers of the sequence.
#[test]
fn luby_of_1_to_7(rt: HostRuntime) -> Result<(), Fail> {
    let numbers = [
        luby(1),
        luby(2),
        luby(3),
        luby(4),
        luby(5),
        luby(6),
        luby(7),
    ];
    assert_eq!(rt; numbers, [1u64, 1, 2, 1, 1, 2, 4]);
    Ok(())
}

// Ring 1 restarts after 64 lemmas, after 64 more, and after 128 more.
#[test]
fn an_odd_ring_restarts_by_luby(rt: HostRuntime) -> Result<(), Fail> {
    let mut restarts = Restarts::new(rt.alloc(), 1)?;
    assert_eq!(rt; lemmas_to_restart(&mut restarts, 9, 1000), 64);
    assert_eq!(rt; lemmas_to_restart(&mut restarts, 9, 1000), 64);
    assert_eq!(rt; lemmas_to_restart(&mut restarts, 9, 1000), 128);
    assert_eq!(rt; restarts.made(), 3);
    Ok(())
}

// Ring 0 restarts after 50 lemmas of glue 2 and 41 of glue 4.
#[test]
fn an_even_ring_restarts_by_glue(rt: HostRuntime) -> Result<(), Fail> {
    let mut restarts = Restarts::new(rt.alloc(), 0)?;
    assert_eq!(rt; lemmas_to_restart(&mut restarts, 2, 50), 0);
    assert_eq!(rt; lemmas_to_restart(&mut restarts, 4, 1000), 41);
    assert_eq!(rt; restarts.made(), 1);
    Ok(())
}
