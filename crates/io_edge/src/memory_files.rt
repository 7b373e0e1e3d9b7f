// A store of files in memory.
// The program never runs this: it stands for real files and streams in tests, where contracts know every byte.
ghost use Rattle.std.specs.Prelude.{◌≡◌, ◌||◌, [], None, Some, IfOk, OnOk, OnErr, IfSome, is_err, is_none, if◌then◌else◌, remove, option_map, string_bytes, unwrap_or};
ghost use Rattle.io_edge.specs.Calls.{fails_next, no_calls, after_call};
ghost use Rattle.io_edge.specs.Causes.{HasCause, one_more};
ghost use Rattle.io_edge.specs.Files.{file_state, file_states};
ghost use Rattle.io_edge.specs.Memory.{OutputState, StoreState, path_map, file_at, output_at, new_sink, IsCreated};
ghost use Rattle.io_edge.specs.Paths.{told_at, told_target, IsThere, IsEmptyWhereTold};

use crate::schedule::Schedule;
use crate::{Failed, Files, MemSink, MemSource};
use std::alloc::{AllocError, Global};
use std::marker::Model;
use std::mem;

/// A file of a store in memory. If two have one path, the first counts.
#[derive(Clone, Copy)]
pub struct MemFile<'a> {
    /// Where it stands.
    pub path: &'a str,
    /// What a reader of it gives.
    pub bytes: &'a [u8],
    /// The reads of each such reader that fail, if its first is 1.
    pub fails: &'a [u64],
}

/// A sink that waits for its path to be created.
#[derive(Drop)]
pub struct MemOutput<'a> {
    path: String,
    sink: MemSink<'a>,
}

impl<'a> Model for MemOutput<'a> {
    ghost Value = { OutputState };

    ghost view = { λ s. record { path = string_bytes s.path; room = s.sink.room; failing = s.sink.calls.failing } };

    ghost invariant = { λ s. s.sink ≡ new_sink s.sink.room s.sink.calls.failing };
}

impl<'a> MemOutput<'a> {
    /// `room` is how many bytes the sink can take in all, and `failing` which of its calls fail.
    pub fn new(
        alloc: Global,
        path: &str,
        room: usize,
        failing: &'a [u64],
    ) -> Result<Self, AllocError>
        ensures { IfOk result (λ output. output ≡ record { path = path.now; room = room; failing = failing.now }) }
    {
        Ok(MemOutput {
            path: String::from_str(alloc, path)?,
            sink: MemSink::new(alloc, room, failing)?,
        })
    }

    fn into_sink(self) -> MemSink<'a>
        ensures { result ≡ record (new_sink self.entry.room self.entry.failing) { target = Some self.entry.path } }
    {
        let MemOutput { path, sink } = self;
        sink.for_path(path)
    }
}

/// A store whose sinks were made before.
///
/// A path with no file cannot be opened, and one with no sink that waits cannot be created. Each
/// sink is handed out once. Openings and creations are numbered together from 1 on, and those that
/// `failing` lists fail.
#[derive(Drop)]
pub struct MemFiles<'a> {
    alloc: Global,
    files: &'a [MemFile<'a>],
    outputs: Vec<MemOutput<'a>>,
    spare: MemSink<'a>,
    schedule: Schedule<'a>,
    openings: u64,
    creations: u64,
}

impl<'a> Model for MemFiles<'a> {
    ghost Value = { StoreState };

    ghost view = { λ s. record {
      files = file_states s.files.now;
      outputs = s.outputs.items;
      spare_room = s.spare.room;
      spare_failing = s.spare.calls.failing;
      calls = s.schedule;
      tried = record { openings = s.openings; creations = s.creations };
    } };

    ghost invariant = { λ s. s.spare ≡ new_sink s.spare.room s.spare.calls.failing };
}

impl<'a> MemFiles<'a> {
    /// `spare` is what the first call of `nowhere` hands out. Later calls hand out sinks with no
    /// room.
    pub fn new(
        alloc: Global,
        files: &'a [MemFile<'a>],
        outputs: Vec<MemOutput<'a>>,
        spare: MemSink<'a>,
        failing: &'a [u64],
    ) -> Self
        requires { spare ≡ new_sink spare.room spare.calls.failing }
        ensures { result ≡ record {
          files = file_states files.now;
          outputs = outputs.entry.items;
          spare_room = spare.entry.room;
          spare_failing = spare.entry.calls.failing;
          calls = no_calls failing.now;
          tried = record { openings = 0; creations = 0 };
        } }
    {
        MemFiles {
            alloc,
            files,
            outputs,
            spare,
            schedule: Schedule::new(failing),
            openings: 0,
            creations: 0,
        }
    }

    /// How many openings and creations have failed.
    pub fn faults(&self) -> u64
        ensures { result ≡ self.now.calls.faults }
    {
        self.schedule.faults()
    }
}

fn find_file<'a>(files: &'a [MemFile<'a>], path: &str) -> Option<MemFile<'a>>
    ensures { option_map file_state result ≡ file_at (file_states files.now) path.now }
{
    for file in files {
        if file.path == path {
            return Some(*file);
        }
    }
    None
}

fn find_output(outputs: &[MemOutput<'_>], path: &str) -> Option<usize>
    ensures { result ≡ output_at outputs.now path.now }
{
    outputs
        .iter()
        .position(|output| output.path.as_str() == path)
}

impl<'a> Files for MemFiles<'a> {
    type Reader = MemSource<'a>;

    type Writer = MemSink<'a>;

    ghost contents = { λ store. Some (path_map store.files) };

    ghost faults = { λ store. store.calls.faults };

    ghost tried = { λ store. Some store.tried };

    #[tactic(auto, using(crate::proofs::Stores::bytes_at_file_at))]
    fn open_input(&mut self, path: &str) -> Result<MemSource<'a>, Failed>
        ensures left { IfOk result (λ reader. Some reader.left ≡ told_at (Some (path_map self.old.files)) path.now) }
        ensures there { OnOk result (IsThere (Some (path_map self.old.files)) path.now) }
        ensures fresh { IfOk result (λ reader. reader.calls.faults ≡ 0) }
        ensures cause { HasCause self.old.calls.faults self.new.calls.faults result }
        ensures once { OnErr result (self.new.calls.faults ≡ one_more self.old.calls.faults) }
        ensures fails { is_err result ≡ (fails_next self.old.calls || is_none (file_at self.old.files path.now)) }
        ensures opened { IfOk result (λ reader. IfSome (file_at self.old.files path.now) (λ file. reader ≡ record { left = file.bytes; piece = usize.MAX; calls = no_calls file.failing })) }
        ensures after { self.new ≡ record self.old { calls = after_call self.old.calls (is_err result); tried = record self.old.tried { openings = one_more self.old.tried.openings } } }
    {
        self.openings = self.openings.saturating_add(1);
        self.schedule.next_call()?;
        match find_file(self.files, path) {
            Some(file) => Ok(MemSource::new(file.bytes, file.fails)),
            None => Err(self.schedule.fault()),
        }
    }

    #[tactic(auto, using(crate::proofs::Stores::output_found))]
    fn create_output(&mut self, path: &str) -> Result<MemSink<'a>, Failed>
        ensures written { IfOk result (λ writer. writer.written ≡ []) }
        ensures flushed { IfOk result (λ writer. writer.flushed ≡ []) }
        ensures target { IfOk result (λ writer. writer.target ≡ Some path.now) }
        ensures fresh { IfOk result (λ writer. writer.calls.faults ≡ 0) }
        ensures cause { HasCause self.old.calls.faults self.new.calls.faults result }
        ensures once { OnErr result (self.new.calls.faults ≡ one_more self.old.calls.faults) }
        ensures fails { is_err result ≡ (fails_next self.old.calls || is_none (output_at self.old.outputs path.now)) }
        ensures created { IfOk result (λ writer. IfSome (output_at self.old.outputs path.now) (λ place. IsCreated self.old.outputs place writer)) }
        ensures after { self.new ≡ record self.old {
          outputs = (if is_err result then self.old.outputs else remove self.old.outputs (unwrap_or (output_at self.old.outputs path.now) 0));
          calls = after_call self.old.calls (is_err result);
          tried = record self.old.tried { creations = one_more self.old.tried.creations };
        } }
    {
        self.creations = self.creations.saturating_add(1);
        self.schedule.next_call()?;
        match find_output(&self.outputs, path) {
            Some(place) => Ok(self.outputs.remove(place).into_sink()),
            None => Err(self.schedule.fault()),
        }
    }

    fn nowhere(&mut self) -> MemSink<'a>
        ensures spare { result ≡ new_sink self.old.spare_room self.old.spare_failing }
        ensures after { self.new ≡ record self.old { spare_room = 0; spare_failing = [] } }
    {
        mem::replace(&mut self.spare, MemSink::without_room(self.alloc))
    }
}
