// `ring_pass` by hand: two rings over one table, one call after another.
use crate::ports::{begin_port, fourth, join_ring, open_four};
use crate::rows::{give_up_and_tell, hand_over, offer_both, take_both};
use io_edge::MemSink;
use ring_port::{Gate, Point};
use sat_words::{Head, Lit};
use share_rule::{close, close_round};
use std::process::Abort;
use std::sync::atomic::{AtomicU64, Ordering};
use std::test::Fail;

/// A gate that counts the rings that pass it.
#[derive(Drop)]
struct Counts {
    learned: AtomicU64,
    dropped: AtomicU64,
    put: AtomicU64,
}

impl Counts {
    fn new() -> Counts {
        Counts {
            learned: AtomicU64::new(0),
            dropped: AtomicU64::new(0),
            put: AtomicU64::new(0),
        }
    }

    /// How many learned, put and dropped.
    fn all(&self) -> [u64; 3] {
        [
            self.learned.load(Ordering::SeqCst),
            self.put.load(Ordering::SeqCst),
            self.dropped.load(Ordering::SeqCst),
        ]
    }
}

impl Gate for Counts {
    fn at(&self, _ring: u32, point: Point, _learned: u64) {
        let count = match point {
            Point::Learned => &self.learned,
            Point::Dropped => &self.dropped,
            Point::Put => &self.put,
        };
        count.fetch_add(1, Ordering::SeqCst);
    }
}

/// By hand on one thread: ring 0 learns a clause, offers it and gives it up, and offers a second one, with which the first comes
/// back as the last that is held. Ring 1 takes the second, and ring 0 gives it up. Both give a start clause up, which ring 1 as
/// the last deletes. Then ring 0 writes a unit, which ring 1 is given. Its line is the third that adds a clause to four, so that the
/// table tells the unit with the number 7.
#[test]
fn two_rings_share_and_tell(rt: HostRuntime) -> Result<(), Fail> {
    let alloc = rt.alloc();
    let (table, mut first, cells) = open_four(alloc, 1, MemSink::new(alloc, 64, &[])?)?;
    let gate = Counts::new();
    let start = cells.as_slice();
    let mut zero = begin_port(&rt, alloc, &table, &gate, &mut first, 0, start)?;
    let mut one = begin_port(&rt, alloc, &table, &gate, &mut first, 1, start)?;
    let heard = hand_over(&mut zero, &mut one)?;
    let spare = fourth(start)?;
    let (unit, none) = give_up_and_tell(&mut zero, &mut one, spare, heard.found)?;
    join_ring(&table, &mut first, one, 1);
    join_ring(&table, &mut first, zero, 0);
    let head = Head {
        size: 2,
        glue: 1,
        number: 6,
    };
    assert!(rt; heard.offered == (1, 1));
    assert!(rt; heard.head == head);
    assert!(rt; heard.lits == (Lit::new(2, false), Lit::new(3, true)));
    assert!(rt; [unit, none] == [Some(Lit::new(2, false)), None]);
    assert!(rt; gate.all() == [2, 2, 2]);
    let closed = close_round(alloc, table, first)?;
    assert!(rt; closed.units.as_slice() == [(Lit::new(2, false), 7)].as_slice());
    let (end, sink, lines) = closed.book.finish();
    assert!(rt; end == Ok(()));
    assert!(rt; sink.bytes() == b"1 2 0\n2 -3 0\nd 1 2 0\nd 2 3 0\n2 0\n".as_slice());
    assert!(rt; lines.map(|lines| lines.len()) == Some(5));
    Ok(())
}

/// With two slots of a class ring 0 gives a clause up that it has offered, and offers a second one. Nothing comes back, so that
/// none is held by nobody, and ring 1 takes both: the first offered from the first place.
#[test]
fn two_offers_lie_in_two_slots(rt: HostRuntime) -> Result<(), Fail> {
    let alloc = rt.alloc();
    let (table, mut first, cells) = open_four(alloc, 2, MemSink::new(alloc, 64, &[])?)?;
    let gate = Counts::new();
    let start = cells.as_slice();
    let mut zero = begin_port(&rt, alloc, &table, &gate, &mut first, 0, start)?;
    let mut one = begin_port(&rt, alloc, &table, &gate, &mut first, 1, start)?;
    let (_later, once, again) = offer_both(&mut zero)?;
    let taken = take_both(&mut one)?;
    join_ring(&table, &mut first, one, 1);
    join_ring(&table, &mut first, zero, 0);
    let one_two = (Lit::new(1, false), Lit::new(2, false));
    let two_not_three = (Lit::new(2, false), Lit::new(3, true));
    assert!(rt; (once, again) == (1, 1));
    assert!(rt; taken == [one_two, two_not_three]);
    assert!(rt; gate.all() == [2, 2, 0]);
    let (end, sink, _) = close(table, first).finish();
    assert!(rt; end == Ok(()));
    assert!(rt; sink.bytes() == b"1 2 0\n2 -3 0\n".as_slice());
    Ok(())
}
