// Standard output that takes one byte a write, each call of which fails in turn.
use crate::tests::words_of;
use crate::tests_call::{TestGate, call};
use io_edge::{MemFiles, MemSink, MemSource};
use std::process::Abort;
use std::sync::Wait;
use std::test::Fail;
use std::thread::Threads;

const FORMULA: &[u8] = b"c x\np cnf 3 3\n1 0 -1 2\n0 -2 -3 0\n";

const ANSWER: &[u8] = b"s SATISFIABLE\nv 1 2 -3 0\n";

fn is_same(found: &[u8], wanted: &[u8]) -> bool {
    found == wanted
}

/// The call after so many that go well fails: a write, or the flush after all of them.
fn check_cut_answer<H: Threads + Wait + Abort + AllocGlobal + Sync>(
    rt: &H,
    taken: usize,
) -> Result<(), Fail> {
    if taken > ANSWER.len() {
        return Err(Fail::from("more bytes than the answer has"));
    }
    let alloc = rt.alloc();
    let words = words_of(alloc, &["--words", "65536"])?;
    let spare = MemSink::new(alloc, 4096, &[])?;
    let mut files = MemFiles::new(alloc, &[], Vec::new(alloc), spare, &[]);
    let mut input = MemSource::new(FORMULA, &[]);
    let failing = [taken as u64 + 1];
    let mut out = MemSink::in_pieces(alloc, 64, 1, &failing)?;
    let mut err = MemSink::new(alloc, 64, &[])?;
    let report = call(
        rt,
        &words,
        &mut files,
        &mut input,
        &mut out,
        &mut err,
        &TestGate::open(),
    );
    assert_eq!(rt; report.status, 6);
    assert!(rt; is_same(out.bytes(), &ANSWER[..taken]));
    assert!(rt; is_same(err.bytes(), b"gimsatul: write fault\n"));
    Ok(())
}

#[test]
fn each_call_of_an_output_fails_in_turn(rt: HostRuntime) -> Result<(), Fail> {
    for taken in 0..=ANSWER.len() {
        check_cut_answer(&rt, taken)?;
    }
    Ok(())
}
