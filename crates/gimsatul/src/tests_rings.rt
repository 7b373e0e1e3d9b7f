// Rings beside each other, through whole calls.
use crate::tests::{PIGEONS, words_of};
use crate::tests_call::{TestGate, call};
use io_edge::{MemFiles, MemSink, MemSource};
use ring_port::Point;
use std::process::Abort;
use std::sync::Wait;
use std::sync::atomic::Ordering;
use std::test::Fail;
use std::thread::Threads;

/// What a call on six pigeons in five holes answers, over this gate.
fn decide(
    rt: &(impl Abort + AllocGlobal + Threads + Wait + Sync),
    words: &[&str],
    gate: &TestGate,
) -> Result<u8, Fail> {
    let alloc = rt.alloc();
    let words = words_of(alloc, words)?;
    let spare = MemSink::new(alloc, 1 << 20, &[])?;
    let mut files = MemFiles::new(alloc, &[], Vec::new(alloc), spare, &[]);
    let mut input = MemSource::in_pieces(PIGEONS, 65536, &[]);
    let mut out = MemSink::new(alloc, 4096, &[])?;
    let mut err = MemSink::new(alloc, 4096, &[])?;
    let report = call(rt, &words, &mut files, &mut input, &mut out, &mut err, gate);
    Ok(report.status)
}

/// Two rings run beside each other: each waits at its first lemma for the other's.
#[test]
fn rings_run_beside_each_other(rt: HostRuntime) -> Result<(), Fail> {
    let gate = TestGate::meeting();
    let status = decide(
        &rt,
        &["--threads", "2", "--no-simplify", "--words", "65536"],
        &gate,
    )?;
    assert_eq!(&rt; status, 20);
    assert_eq!(&rt; gate.zero.load(Ordering::SeqCst), 1);
    assert_eq!(&rt; gate.one.load(Ordering::SeqCst), 1);
    assert_eq!(&rt; gate.missed.load(Ordering::SeqCst), 0);
    Ok(())
}

/// A ring that is held before or after it offers its lemma keeps no other ring from taking turns, and the log is accepted.
#[test]
fn a_ring_is_held_while_another_goes_on(rt: HostRuntime) -> Result<(), Fail> {
    for point in [Point::Learned, Point::Put] {
        let gate = TestGate::holding(point);
        let status = decide(
            &rt,
            &[
                "--threads",
                "2",
                "--no-simplify",
                "--check",
                "--words",
                "65536",
            ],
            &gate,
        )?;
        assert_eq!(&rt; status, 20);
        assert_eq!(&rt; gate.zero.load(Ordering::SeqCst), 1);
        assert_eq!(&rt; gate.missed.load(Ordering::SeqCst), 0);
    }
    Ok(())
}

/// However many rings and slots there are, the rings write one log that is accepted.
#[test]
fn many_rings_write_one_log(rt: HostRuntime) -> Result<(), Fail> {
    for (threads, slots) in [("1", "3"), ("2", "1"), ("4", "3"), ("8", "16"), ("16", "1")] {
        let status = decide(
            &rt,
            &[
                "--threads",
                threads,
                "--slots",
                slots,
                "--no-simplify",
                "--check",
                "--words",
                "65536",
            ],
            &TestGate::open(),
        )?;
        assert_eq!(&rt; status, 20);
    }
    Ok(())
}
