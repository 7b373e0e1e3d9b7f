// A sink into memory that was taken before.
// The program never runs this: it stands for real files and streams in tests, where contracts know every byte.
ghost use Rattle.std.specs.Prelude.{◌≡◌, ◌<◌, ◌≤◌, ◌||◌, [], true, false, None, length, take, min, Some, IfOk, OnErr, is_err, nat_lt, vec_capacity, string_bytes};
ghost use Rattle.std.specs.Option.{option_map};
ghost use Rattle.std.specs.Io.{WritesAtMost};
ghost use Rattle.io_edge.specs.Bytes.{Wrote, WasFlushed};
ghost use Rattle.io_edge.specs.Calls.{fails_next};
ghost use Rattle.io_edge.specs.Causes.{HasCause, one_more};
ghost use Rattle.io_edge.specs.Memory.{SinkState, new_sink, room_left, taken_of, after_write, after_flush};

use crate::schedule::Schedule;
use crate::{Failed, Sink};
use std::alloc::{AllocError, Global};
use std::marker::Model;

/// Keeps what is written, up to a room in bytes that was taken when it was made. Each write takes at most `piece` bytes.
///
/// If what a write would take does not fit into what is left of the room, it takes nothing, and is a fault.
/// Writes and flushes are numbered together from 1 on, and those that `failing` lists fail.
#[derive(Drop)]
pub struct MemSink<'a> {
    path: Option<String>,
    bytes: Vec<u8>,
    flushed: usize,
    room: usize,
    piece: usize,
    schedule: Schedule<'a>,
}

impl<'a> Model for MemSink<'a> {
    ghost Value = { SinkState };

    ghost view = { λ s. record {
      target = option_map string_bytes s.path;
      written = s.bytes.items;
      flushed = take s.flushed s.bytes.items;
      room = s.room;
      piece = s.piece;
      calls = s.schedule;
    } };

    ghost invariant = { λ s. (length s.bytes.items ≤ s.room) × (s.room ≤ vec_capacity s.bytes) × (s.flushed ≤ length s.bytes.items) × (0 < s.piece) };
}

impl<'a> MemSink<'a> {
    /// `room` is how many bytes it can take in all. Each write takes a whole piece. All memory is taken here.
    pub fn new(alloc: Global, room: usize, failing: &'a [u64]) -> Result<Self, AllocError>
        ensures { IfOk result (λ sink. sink ≡ new_sink room failing.now) }
    {
        MemSink::in_pieces(alloc, room, usize::MAX, failing)
    }

    /// `room` is how many bytes it can take in all, and each write takes at most `piece` of them. All memory is taken here.
    pub fn in_pieces(
        alloc: Global,
        room: usize,
        piece: usize,
        failing: &'a [u64],
    ) -> Result<Self, AllocError>
        requires { 0 < piece }
        ensures { IfOk result (λ sink. sink ≡ record (new_sink room failing.now) { piece = piece }) }
    {
        Ok(MemSink {
            path: None,
            bytes: Vec::with_capacity(alloc, room)?,
            flushed: 0,
            room,
            piece,
            schedule: Schedule::new(failing),
        })
    }

    /// One with no room, for which no memory is taken.
    pub(crate) fn without_room(alloc: Global) -> Self
        ensures { result ≡ new_sink 0 [] }
    {
        MemSink {
            path: None,
            bytes: Vec::new(alloc),
            flushed: 0,
            room: 0,
            piece: usize::MAX,
            schedule: Schedule::new(&[]),
        }
    }

    /// The sink, once it is created for a path.
    pub(crate) fn for_path(mut self, path: String) -> Self
        ensures { result ≡ record self.entry { target = Some (string_bytes path) } }
    {
        self.path = Some(path);
        self
    }

    /// What was written.
    pub fn bytes(&self) -> &[u8]
        ensures { result.now ≡ self.now.written }
    {
        self.bytes.as_slice()
    }

    /// What had been written when a flush last went well.
    pub fn flushed_bytes(&self) -> &[u8]
        ensures { result.now ≡ self.now.flushed }
    {
        &self.bytes[..self.flushed]
    }

    /// The path that it was created for.
    pub fn target(&self) -> Option<&str>
        ensures { option_map (λ path. path.now) result ≡ self.now.target }
    {
        match &self.path {
            Some(path) => Some(path.as_str()),
            None => None,
        }
    }

    /// How many writes and flushes have failed.
    pub fn faults(&self) -> u64
        ensures { result ≡ self.now.calls.faults }
    {
        self.schedule.faults()
    }
}

impl<'a> Sink for MemSink<'a> {
    ghost written = { λ sink. Some sink.written };

    ghost flushed = { λ sink. Some sink.flushed };

    ghost target = { λ sink. sink.target };

    ghost faults = { λ sink. sink.calls.faults };

    fn is_nowhere(&self) -> bool
        ensures known { result ≡ false }
        ensures untold { result ≡ true → Some self.now.written ≡ None }
    {
        false
    }

    fn write(&mut self, bytes: &[u8]) -> Result<usize, Failed>
        ensures bound { WritesAtMost result bytes.now }
        ensures some { IfOk result (λ n. 0 < length bytes.now → 0 < n) }
        ensures bytes { Wrote (Some self.old.written) (Some self.new.written) result bytes.now }
        ensures flushed { self.new.flushed ≡ self.old.flushed }
        ensures target { self.new.target ≡ self.old.target }
        ensures cause { HasCause self.old.calls.faults self.new.calls.faults result }
        ensures once { OnErr result (self.new.calls.faults ≡ one_more self.old.calls.faults) }
        ensures fails { is_err result ≡ (fails_next self.old.calls || nat_lt (room_left self.old) (length (taken_of self.old bytes.now))) }
        ensures size { IfOk result (λ n. n ≡ min (length bytes.now) self.old.piece) }
        ensures after { self.new ≡ after_write self.old bytes.now (is_err result) }
    {
        self.schedule.next_call()?;
        let count = bytes.len().min(self.piece);
        let taken = &bytes[..count];
        let room_left = self.room - self.bytes.len();
        if room_left < count || self.bytes.extend_from_slice(taken).is_err() {
            return Err(self.schedule.fault());
        }
        Ok(count)
    }

    fn flush(&mut self) -> Result<(), Failed>
        ensures bytes { self.new.written ≡ self.old.written }
        ensures flushed { WasFlushed (Some self.new.written) (Some self.old.flushed) (Some self.new.flushed) result }
        ensures target { self.new.target ≡ self.old.target }
        ensures cause { HasCause self.old.calls.faults self.new.calls.faults result }
        ensures once { OnErr result (self.new.calls.faults ≡ one_more self.old.calls.faults) }
        ensures fails { is_err result ≡ fails_next self.old.calls }
        ensures after { self.new ≡ after_flush self.old (is_err result) }
    {
        self.schedule.next_call()?;
        self.flushed = self.bytes.len();
        Ok(())
    }
}
