// The one call that the tests make, over objects in memory and one type of gate: what it runs is made and proved once for them.
use crossbeam_utils::Backoff;
use io_edge::{MemFiles, MemSink, MemSource};
use ring_port::{Gate, Point};
use std::sync::Wait;
use std::sync::atomic::{AtomicU64, Ordering};
use std::thread::Threads;
use top_call::{Report, gimsatul};

/// How many looks a gate makes at what it waits for before it lets go.
const TURNS: u32 = 10_000_000;

/// Which rings a gate holds.
#[derive(Clone, Copy, PartialEq, Eq, Debug, Drop)]
enum Hold {
    /// None.
    Nobody,
    /// Each of two rings at its first lemma, until the other one has a lemma too.
    Both,
    /// Ring 0 the first time that it is at this point, until ring 1 has learned ten lemmas; ring 1 waits until ring 0 is there.
    First(Point),
}

/// A gate of a test.
#[derive(Drop)]
pub(crate) struct TestGate {
    hold: Hold,
    /// 1 once ring 0 was held.
    pub(crate) zero: AtomicU64,
    /// How many lemmas ring 1 has learned, as it last said.
    pub(crate) one: AtomicU64,
    /// How often a ring was let go before what it waited for came.
    pub(crate) missed: AtomicU64,
}

impl TestGate {
    fn with(hold: Hold) -> TestGate {
        TestGate {
            hold,
            zero: AtomicU64::new(0),
            one: AtomicU64::new(0),
            missed: AtomicU64::new(0),
        }
    }

    /// One that holds nobody.
    pub(crate) fn open() -> TestGate {
        TestGate::with(Hold::Nobody)
    }

    /// One at which two rings meet at their first lemmas.
    pub(crate) fn meeting() -> TestGate {
        TestGate::with(Hold::Both)
    }

    /// One that holds ring 0 at the point.
    pub(crate) fn holding(point: Point) -> TestGate {
        TestGate::with(Hold::First(point))
    }

    /// Looks until the number is reached.
    fn wait(&self, at: &AtomicU64, number: u64) {
        let backoff = Backoff::new();
        for _ in 0..TURNS {
            if at.load(Ordering::SeqCst) >= number {
                return;
            }
            backoff.spin();
        }
        self.missed.fetch_add(1, Ordering::SeqCst);
    }

    fn meet(&self, ring: u32) {
        if ring == 0 {
            self.zero.store(1, Ordering::SeqCst);
            self.wait(&self.one, 1);
        } else {
            self.one.store(1, Ordering::SeqCst);
            self.wait(&self.zero, 1);
        }
    }

    fn hold_first(&self, ring: u32, is_there: bool, learned: u64) {
        if ring == 1 {
            self.one.store(learned, Ordering::SeqCst);
            self.wait(&self.zero, 1);
        } else if is_there && self.zero.swap(1, Ordering::SeqCst) == 0 {
            self.wait(&self.one, 10);
        }
    }
}

impl Gate for TestGate {
    fn at(&self, ring: u32, point: Point, learned: u64) {
        match self.hold {
            Hold::Nobody => {}
            Hold::Both => {
                if point == Point::Learned && learned == 1 {
                    self.meet(ring);
                }
            }
            Hold::First(held) => self.hold_first(ring, point == held, learned),
        }
    }
}

/// The call.
pub(crate) fn call<'a, H: Threads + Wait + AllocGlobal + Sync>(
    rt: &H,
    words: &[String],
    files: &mut MemFiles<'a>,
    input: &mut MemSource<'_>,
    out: &mut MemSink<'_>,
    err: &mut MemSink<'_>,
    gate: &TestGate,
) -> Report<MemSource<'a>, MemSink<'a>> {
    gimsatul(rt, rt.alloc(), words, files, input, out, err, gate)
}
