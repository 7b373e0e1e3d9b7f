// `reduce_db`: five lemmas over the port in memory, and when a reduction is due.
ghost use Rattle.std.specs.Prelude.{IfOk};
ghost use Rattle.test_ring.specs.ReductionRow.{IsRow};

use crate::reducing::{one_start, reduce_five};
use drat_text::SinkLines;
use io_edge::MemSink;
use reduce_db::{due, tell_apart};
use ring_port::{PlainPort, Port};
use sat_words::Cref;
use std::alloc::Global;
use std::test::Fail;

/// The port in memory over the one start clause, whose lines go to a sink in memory.
pub(crate) fn open_row(alloc: Global) -> Result<PlainPort<SinkLines<MemSink<'static>>>, Fail>
    ensures { IfOk result (λ port. IsRow port.state) }
{
    let Ok(lines) = SinkLines::new(alloc, 1, MemSink::new(alloc, 128, &[])?) else {
        return Err("no memory".into());
    };
    let starts = one_start(alloc)?;
    match PlainPort::new(alloc, 3, starts, Vec::new(alloc), lines, 0) {
        Ok(port) => Ok(port),
        Err(_) => Err("no memory".into()),
    }
}

#[test]
fn the_half_of_greatest_glue_is_dropped(rt: HostRuntime) -> Result<(), Fail> {
    let alloc = rt.alloc();
    let mut port = open_row(alloc)?;
    let glues = reduce_five(alloc, &mut port)?;
    assert!(rt; glues.as_slice() == [3, 3, 4].as_slice());
    assert!(rt; port.tidy() == Ok(()));
    let (end, sink) = port.into_lines().finish();
    assert!(rt; end == Ok(()));
    assert!(rt;
        sink.bytes()
            == b"1 2 3 0\n1 2 3 0\n1 2 3 0\n1 2 3 0\n1 2 3 0\nd 1 2 3 0\nd 1 2 3 0\n".as_slice()
    );
    Ok(())
}

#[test]
fn moments_are_apart(rt: HostRuntime) -> Result<(), Fail> {
    let early = [due(1999, 1), due(2299, 2), due(u64::MAX, u64::MAX)];
    let late = [due(2000, 1), due(2300, 2)];
    assert!(rt; early == [false, false, false]);
    assert!(rt; late == [true, true]);
    Ok(())
}

// 9 and 7 come twice, 5 is at the address of another, and 2 is not after 2.
#[test]
fn clauses_are_told_apart(rt: HostRuntime) -> Result<(), Fail> {
    let alloc = rt.alloc();
    let clauses = [9, 2, 7, 9, 5, 7].map(|address| Cref { address });
    let apart = tell_apart(alloc, &clauses, &[Cref { address: 5 }], 2)?;
    let left = [7, 9].map(|address| Cref { address });
    assert!(rt; apart.as_slice() == left.as_slice());
    Ok(())
}
