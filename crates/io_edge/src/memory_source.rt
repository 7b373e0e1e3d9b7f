// A source over bytes in memory.
// The program never runs this: it stands for real files and streams in tests, where contracts know every byte.
ghost use Rattle.std.specs.Prelude.{◌≡◌, ◌<◌, min, length, Some, IfOk, OnErr, is_err};
ghost use Rattle.std.specs.Io.{ReadsAtMost};
ghost use Rattle.io_edge.specs.Bytes.{WasRead};
ghost use Rattle.io_edge.specs.Calls.{fails_next, has_failed, no_calls};
ghost use Rattle.io_edge.specs.Causes.{HasCause, one_more};
ghost use Rattle.io_edge.specs.Memory.{SourceState, HasRead};

use crate::schedule::Schedule;
use crate::{Failed, Source};
use std::marker::Model;

/// Gives the bytes of a slice, in pieces of at most a number of bytes each.
///
/// Its reads are numbered from 1 on, and those that `failing` lists fail.
#[derive(Drop)]
pub struct MemSource<'a> {
    left: &'a [u8],
    piece: usize,
    schedule: Schedule<'a>,
}

impl<'a> Model for MemSource<'a> {
    ghost Value = { SourceState };

    ghost view = { λ s. record { left = s.left.now; piece = s.piece; calls = s.schedule } };

    ghost invariant = { λ s. 0 < s.piece };
}

impl<'a> MemSource<'a> {
    /// Each read gives as many bytes as the buffer takes.
    pub fn new(bytes: &'a [u8], failing: &'a [u64]) -> Self
        ensures { result ≡ record { left = bytes.now; piece = usize.MAX; calls = no_calls failing.now } }
    {
        MemSource::in_pieces(bytes, usize::MAX, failing)
    }

    /// Each read gives at most `piece` bytes.
    pub fn in_pieces(bytes: &'a [u8], piece: usize, failing: &'a [u64]) -> Self
        requires { 0 < piece }
        ensures { result ≡ record { left = bytes.now; piece = piece; calls = no_calls failing.now } }
    {
        MemSource {
            left: bytes,
            piece,
            schedule: Schedule::new(failing),
        }
    }

    /// The bytes that are still to come.
    pub fn left(&self) -> &[u8]
        ensures { result.now ≡ self.now.left }
    {
        self.left
    }

    /// How many reads have failed.
    pub fn faults(&self) -> u64
        ensures { result ≡ self.now.calls.faults }
    {
        self.schedule.faults()
    }
}

impl<'a> Source for MemSource<'a> {
    ghost left = { λ source. Some source.left };

    ghost faults = { λ source. source.calls.faults };

    ghost failed = { λ source. has_failed source.calls };

    fn read(&mut self, buf: &mut [u8]) -> Result<usize, Failed>
        ensures bound { ReadsAtMost result buf.new }
        ensures bytes { WasRead (Some self.old.left) (Some self.new.left) result buf.new }
        ensures cause { HasCause self.old.calls.faults self.new.calls.faults result }
        ensures once { OnErr result (self.new.calls.faults ≡ one_more self.old.calls.faults) }
        ensures failed { has_failed self.new.calls ≡ is_err result }
        ensures fails { is_err result ≡ fails_next self.old.calls }
        ensures size { IfOk result (λ n. n ≡ min (min (length buf.new) (length self.old.left)) self.old.piece) }
        ensures after { HasRead self.old self.new result }
    {
        self.schedule.next_call()?;
        let count = buf.len().min(self.left.len()).min(self.piece);
        let (front, left) = self.left.split_at(count);
        buf[..count].copy_from_slice(front);
        self.left = left;
        Ok(count)
    }
}
