// What no clause says: that the adapters reach real files, and worked rows over memory.
ghost use Rattle.std.specs.Prelude.{◌≤◌, IfOk};

use crate::{
    Failed, Files, MemFile, MemFiles, MemOutput, MemSink, MemSource, NullSink, Sink, Source,
    StdFiles, StdSink, StdSource, StdWriter, WriteStop, write_all_of,
};
use std::alloc::Global;
use std::io::{Read, Write};
use std::os::unix::fs::symlink;
use std::process::Abort;
use std::test::Fail;
use std::{env, fs, io, process};

const TEXT: &[u8] = b"p cnf 2 1\n1 -2 0\n";

// Reads to the end, or to the first fault, in pieces of at most four bytes.
fn read_all<S: Source>(alloc: Global, source: &mut S) -> Result<Vec<u8>, Fail> {
    let mut found = Vec::new(alloc);
    let mut buf = [0u8; 4];
    for _ in 0..100 {
        match source.read(&mut buf) {
            Ok(0) | Err(Failed) => break,
            Ok(count) => found.extend_from_slice(&buf[..count])?,
        }
    }
    Ok(found)
}

fn is_same(found: &[u8], wanted: &[u8]) -> bool {
    found == wanted
}

// A path in the folder for passing files, of this process and this test alone.
fn scratch_path(rt: &HostRuntime, name: &str) -> Result<String, Fail> {
    let alloc = rt.alloc();
    let folder = env::temp_dir(rt)?;
    let id = process::id(rt.process());
    let name = format!(in alloc; "io_edge-{id}-{name}")?;
    Ok(folder.join(alloc, name.as_str())?.into_string())
}

#[test]
fn a_source_gives_the_bytes_of_a_real_file(rt: HostRuntime) -> Result<(), Fail> {
    let path = scratch_path(&rt, "source")?;
    fs::write(&rt, path.as_str(), TEXT)?;
    let mut source = StdSource::new(fs::open(&rt, path.as_str())?);
    let found = read_all(rt.alloc(), &mut source)?;
    assert!(rt; is_same(&found, TEXT));
    assert_eq!(rt; source.faults(), 0);

    // A folder can be opened, and not read.
    let folder = env::temp_dir(&rt)?;
    let mut source = StdSource::new(fs::open(&rt, folder.as_str())?);
    let mut buf = [0u8; 4];
    assert_eq!(rt; source.read(&mut buf), Err(Failed));
    assert_eq!(rt; source.read(&mut buf), Err(Failed));
    assert_eq!(rt; source.faults(), 2);
    fs::remove_file(&rt, path.as_str())?;
    Ok(())
}

#[test]
fn a_sink_writes_to_a_real_file(rt: HostRuntime) -> Result<(), Fail> {
    let path = scratch_path(&rt, "sink")?;
    {
        let mut sink = StdSink::new(fs::create(&rt, path.as_str())?);
        assert_eq!(rt; write_all_of(&mut sink, TEXT), Ok(()));
        assert_eq!(rt; write_all_of(&mut sink, TEXT), Ok(()));
        assert_eq!(rt; sink.flush(), Ok(()));
        assert_eq!(rt; sink.faults(), 0);
    }
    let mut source = StdSource::new(fs::open(&rt, path.as_str())?);
    let found = read_all(rt.alloc(), &mut source)?;
    assert_eq!(rt; found.len(), 2 * TEXT.len());
    assert!(rt; found.starts_with(TEXT) && found.ends_with(TEXT));

    // A file that was opened to be read takes nothing.
    let mut sink = StdSink::new(fs::open(&rt, path.as_str())?);
    assert_eq!(rt; write_all_of(&mut sink, TEXT), Err(WriteStop { taken: 0 }));
    assert_eq!(rt; sink.faults(), 1);
    fs::remove_file(&rt, path.as_str())?;
    Ok(())
}

#[test]
fn a_store_opens_and_creates_real_files(rt: HostRuntime) -> Result<(), Fail> {
    let path = scratch_path(&rt, "store")?;
    let mut files = StdFiles::new(&rt);
    assert!(rt; files.open_input(path.as_str()).is_err());
    assert_eq!(rt; files.faults(), 1);
    match files.create_output(path.as_str()) {
        Ok(mut writer) => {
            assert_eq!(rt; write_all_of(&mut writer, TEXT), Ok(()));
            assert_eq!(rt; writer.flush(), Ok(()));
        }
        Err(Failed) => assert!(rt; false, "a file can be created"),
    }
    match files.open_input(path.as_str()) {
        Ok(mut reader) => {
            let found = read_all(rt.alloc(), &mut reader)?;
            assert!(rt; is_same(&found, TEXT));
        }
        Err(Failed) => assert!(rt; false, "a file that was created can be opened"),
    }
    let below = format!(in rt.alloc(); "{path}/below")?;
    assert!(rt; files.create_output(below.as_str()).is_err());
    assert_eq!(rt; files.faults(), 2);
    let mut nowhere = files.nowhere();
    assert_eq!(rt; write_all_of(&mut nowhere, TEXT), Ok(()));
    assert_eq!(rt; nowhere.flush(), Ok(()));
    fs::remove_file(&rt, path.as_str())?;
    Ok(())
}

#[test]
fn a_file_that_was_opened_is_not_created_anew(rt: HostRuntime) -> Result<(), Fail> {
    let path = scratch_path(&rt, "kept")?;
    let other = scratch_path(&rt, "other")?;
    let dotted = format!(in rt.alloc(); "/.{path}")?;
    let link = scratch_path(&rt, "link")?;
    let twin = scratch_path(&rt, "twin")?;
    fs::write(&rt, path.as_str(), TEXT)?;
    symlink(&rt, path.as_str(), link.as_str())?;
    fs::hard_link(&rt, path.as_str(), twin.as_str())?;
    let mut files = StdFiles::new(&rt);
    assert!(rt; files.open_input(path.as_str()).is_ok());
    for name in [&path, &dotted, &link, &twin] {
        assert!(rt; files.create_output(name.as_str()).is_err(), "{name}");
    }
    assert_eq!(rt; files.faults(), 4);
    assert!(rt; files.create_output(other.as_str()).is_ok());
    let mut source = StdSource::new(fs::open(&rt, path.as_str())?);
    let found = read_all(rt.alloc(), &mut source)?;
    assert!(rt; is_same(&found, TEXT));
    // The other file is opened then, and the first one may be created. A device may be both.
    assert!(rt; files.open_input(other.as_str()).is_ok());
    assert!(rt; files.create_output(twin.as_str()).is_ok());
    assert!(rt; files.open_input("/dev/null").is_ok());
    assert!(rt; files.create_output("/dev/null").is_ok());
    assert_eq!(rt; files.faults(), 4);
    for name in [&path, &other, &link, &twin] {
        fs::remove_file(&rt, name.as_str())?;
    }
    Ok(())
}

#[test]
fn a_null_sink_takes_everything(rt: HostRuntime) {
    let mut sink = NullSink;
    assert_eq!(rt; sink.write(TEXT), Ok(TEXT.len()));
    assert_eq!(rt; write_all_of(&mut sink, TEXT), Ok(()));
    assert_eq!(rt; sink.flush(), Ok(()));
}

// A stream that fails once, then takes and gives a byte a call, and then nothing more.
#[derive(Drop)]
struct Tired {
    calls: u8,
}

impl Tired {
    fn turn(&mut self, size: usize) -> io::Result<usize>
        ensures { IfOk result (λ count. count ≤ size) }
    {
        self.calls = self.calls.saturating_add(1);
        match self.calls {
            1 => Err(io::Error::from(io::ErrorKind::Interrupted)),
            2 => Ok(size.min(1)),
            _ => Ok(0),
        }
    }
}

impl Read for Tired {
    fn read(&mut self, buf: &mut [u8]) -> io::Result<usize> {
        self.turn(buf.len())
    }
}

impl Write for Tired {
    fn write(&mut self, buf: &[u8]) -> io::Result<usize> {
        self.turn(buf.len())
    }

    fn flush(&mut self) -> io::Result<()> {
        self.turn(0)?;
        Ok(())
    }
}

#[test]
fn a_stream_that_stops_is_a_fault_of_a_sink(rt: HostRuntime) {
    let mut sink = StdSink::new(Tired { calls: 0 });
    assert_eq!(rt; sink.flush(), Err(Failed));
    assert_eq!(rt; write_all_of(&mut sink, TEXT), Err(WriteStop { taken: 1 }));
    assert_eq!(rt; sink.write(b""), Ok(0));
    assert_eq!(rt; sink.faults(), 2);
    let mut writer = StdWriter::File(StdSink::new(Tired { calls: 0 }));
    assert_eq!(rt; writer.flush(), Err(Failed));
    assert_eq!(rt; writer.write(TEXT), Ok(1));
    let mut source = StdSource::new(Tired { calls: 0 });
    let mut buf = [0u8; 4];
    assert_eq!(rt; source.read(&mut buf), Err(Failed));
    assert_eq!(rt; source.read(&mut buf), Ok(1));
    assert_eq!(rt; source.read(&mut buf), Ok(0));
    assert_eq!(rt; source.faults(), 1);
}

struct ReadRow {
    piece: usize,
    fails: &'static [u64],
    room: usize,
    answers: &'static [Result<usize, Failed>],
}

// Six bytes, read until the answers are used up.
const READ_ROWS: [ReadRow; 5] = [
    ReadRow {
        piece: 9,
        fails: &[],
        room: 8,
        answers: &[Ok(6), Ok(0), Ok(0)],
    },
    ReadRow {
        piece: 9,
        fails: &[],
        room: 4,
        answers: &[Ok(4), Ok(2), Ok(0)],
    },
    ReadRow {
        piece: 4,
        fails: &[2, 4],
        room: 8,
        answers: &[Ok(4), Err(Failed), Ok(2), Err(Failed), Ok(0)],
    },
    ReadRow {
        piece: 1,
        fails: &[1],
        room: 2,
        answers: &[Err(Failed), Ok(1), Ok(1)],
    },
    ReadRow {
        piece: 3,
        fails: &[],
        room: 0,
        answers: &[Ok(0), Ok(0)],
    },
];

#[test]
fn a_source_in_memory_gives_short_reads_and_faults(rt: HostRuntime) {
    for row in &READ_ROWS {
        let mut faults = 0u64;
        let mut source = MemSource::in_pieces(b"abcdef", row.piece.max(1), row.fails);
        let mut buf = [0u8; 8];
        let mut taken = 0usize;
        for answer in row.answers {
            let found = source.read(&mut buf[..row.room.min(8)]);
            assert_eq!(rt; found, *answer);
            match found {
                Ok(count) => taken = taken.saturating_add(count),
                Err(Failed) => faults = faults.saturating_add(1),
            }
            assert_eq!(rt; source.left().len().saturating_add(taken), 6);
            assert_eq!(rt; source.faults(), faults);
        }
    }
}

enum Call {
    Write(&'static [u8], Result<usize, Failed>),
    Flush(Result<(), Failed>),
}

struct WriteRow {
    room: usize,
    fails: &'static [u64],
    calls: &'static [Call],
    written: &'static [u8],
    flushed: &'static [u8],
    faults: u64,
}

const WRITE_ROWS: [WriteRow; 4] = [
    WriteRow {
        room: 6,
        fails: &[],
        calls: &[
            Call::Write(b"abc", Ok(3)),
            Call::Flush(Ok(())),
            Call::Write(b"def", Ok(3)),
        ],
        written: b"abcdef",
        flushed: b"abc",
        faults: 0,
    },
    WriteRow {
        room: 5,
        fails: &[],
        calls: &[
            Call::Write(b"abc", Ok(3)),
            Call::Write(b"def", Err(Failed)),
            Call::Write(b"de", Ok(2)),
            Call::Write(b"", Ok(0)),
            Call::Write(b"f", Err(Failed)),
            Call::Flush(Ok(())),
        ],
        written: b"abcde",
        flushed: b"abcde",
        faults: 2,
    },
    WriteRow {
        room: 9,
        fails: &[2, 3],
        calls: &[
            Call::Write(b"abc", Ok(3)),
            Call::Flush(Err(Failed)),
            Call::Write(b"def", Err(Failed)),
            Call::Flush(Ok(())),
            Call::Write(b"g", Ok(1)),
        ],
        written: b"abcg",
        flushed: b"abc",
        faults: 2,
    },
    WriteRow {
        room: 0,
        fails: &[],
        calls: &[
            Call::Write(b"", Ok(0)),
            Call::Write(b"a", Err(Failed)),
            Call::Flush(Ok(())),
        ],
        written: b"",
        flushed: b"",
        faults: 1,
    },
];

#[test]
fn a_sink_in_memory_keeps_to_its_room_and_its_list(rt: HostRuntime) -> Result<(), Fail> {
    for row in &WRITE_ROWS {
        let mut sink = MemSink::new(rt.alloc(), row.room, row.fails)?;
        for call in row.calls {
            match call {
                Call::Write(piece, answer) => assert_eq!(rt; sink.write(piece), *answer),
                Call::Flush(answer) => assert_eq!(rt; sink.flush(), *answer),
            }
        }
        assert!(rt; is_same(sink.bytes(), row.written));
        assert!(rt; is_same(sink.flushed_bytes(), row.flushed));
        assert!(rt; sink.target().is_none());
        assert_eq!(rt; sink.faults(), row.faults);
    }
    Ok(())
}

#[test]
fn a_sink_in_memory_takes_pieces(rt: HostRuntime) -> Result<(), Fail> {
    let mut sink = MemSink::in_pieces(rt.alloc(), 5, 2, &[3])?;
    assert_eq!(rt; sink.write(b"abc"), Ok(2));
    assert_eq!(rt; sink.write(b"c"), Ok(1));
    assert_eq!(rt; sink.write(b"d"), Err(Failed));
    assert_eq!(rt; sink.write(b"def"), Ok(2));
    assert_eq!(rt; sink.write(b""), Ok(0));
    assert_eq!(rt; sink.write(b"f"), Err(Failed));
    assert!(rt; is_same(sink.bytes(), b"abcde"));
    assert_eq!(rt; sink.faults(), 2);
    Ok(())
}

static KNOWN: [MemFile<'static>; 3] = [
    MemFile {
        path: "a.cnf",
        bytes: TEXT,
        fails: &[],
    },
    MemFile {
        path: "b.cnf",
        bytes: b"0",
        fails: &[1],
    },
    MemFile {
        path: "a.cnf",
        bytes: b"hidden",
        fails: &[],
    },
];

// What is read from a path: the bytes, and how often the reader failed.
fn read_path(
    rt: &impl Abort,
    alloc: Global,
    files: &mut MemFiles<'_>,
    path: &str,
    bytes: &[u8],
    faults: u64,
) -> Result<(), Fail> {
    match files.open_input(path) {
        Ok(mut reader) => {
            let found = read_all(alloc, &mut reader)?;
            assert!(rt; is_same(&found, bytes));
            assert_eq!(rt; reader.faults(), faults);
        }
        Err(Failed) => assert!(rt; false, "the path is there"),
    }
    Ok(())
}

#[test]
fn a_store_in_memory_hands_out_each_sink_once(rt: HostRuntime) -> Result<(), Fail> {
    let alloc = rt.alloc();
    let mut outputs = Vec::new(alloc);
    outputs.push(MemOutput::new(alloc, "P", 8, &[])?)?;
    outputs.push(MemOutput::new(alloc, "Q", 3, &[2])?)?;
    let spare = MemSink::new(alloc, 4, &[])?;
    let mut files = MemFiles::new(alloc, &KNOWN, outputs, spare, &[5]);
    read_path(&rt, alloc, &mut files, "a.cnf", TEXT, 0)?;
    read_path(&rt, alloc, &mut files, "b.cnf", b"", 1)?;
    assert!(rt; files.open_input("c.cnf").is_err());
    match files.create_output("Q") {
        Ok(mut writer) => {
            assert!(rt; writer.target() == Some("Q"));
            assert_eq!(rt; write_all_of(&mut writer, b"abc"), Ok(()));
            assert_eq!(rt; writer.flush(), Err(Failed));
            assert!(rt; is_same(writer.bytes(), b"abc"));
        }
        Err(Failed) => assert!(rt; false, "the path has a sink"),
    }
    assert!(rt; files.create_output("P").is_err(), "the fifth call fails");
    assert!(rt; files.create_output("Q").is_err(), "it was handed out");
    assert!(rt; files.create_output("P").is_ok());
    assert_eq!(rt; files.faults(), 3);
    let mut nowhere = files.nowhere();
    assert!(rt; nowhere.target().is_none());
    assert_eq!(rt; write_all_of(&mut nowhere, b"abcd"), Ok(()));
    let mut nowhere = files.nowhere();
    assert_eq!(rt; nowhere.write(b"a"), Err(Failed));
    Ok(())
}
