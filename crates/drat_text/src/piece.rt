// A fixed buffer between a text and the sink that it is written to.
ghost use Rattle.std.specs.Prelude.{◌≡◌, ◌+◌, ◌-◌, ◌^◌, ◌≤◌, ◌++◌, [], IsTrue, ◌↔◌, min, length, codes, IfOk, IfErr, OnOk, OnErr};
ghost use Rattle.io_edge.specs.Bytes.{GrowsBy};
ghost use Rattle.io_edge.specs.Causes.{HasCause};
ghost use Rattle.drat_text.specs.PieceCut.{PieceWasCut};

use io_edge::{Sink, WriteStop, write_all_of};
use std::marker::Model;

/// How many bytes a piece has room for: the most that are handed over at once.
pub const CAPACITY: usize = 4096;

/// The bytes of a text that were put last and are still to be handed over, so that a text that is made of short words
/// is written in few calls. It takes no memory but its own.
#[derive(Drop)]
pub struct Piece {
    bytes: [u8; CAPACITY],
    len: usize,
}

impl Model for Piece {
    ghost use Rattle.std.specs.Prelude.{◌≤◌, List, ℕ, take};
    ghost use Rattle.drat_text.specs.declared.piece.TheConstants.{CAPACITY};

    ghost Value = { List ℕ };

    ghost view = { λ piece. take piece.len piece.bytes };

    ghost invariant = { λ piece. piece.len ≤ CAPACITY };
}

impl Piece {
    /// No bytes.
    pub fn new() -> Piece
        ensures { result ≡ [] }
    {
        Piece {
            bytes: [0; CAPACITY],
            len: 0,
        }
    }

    /// Whether this many bytes more have room.
    pub fn has_room(&self, count: usize) -> bool
        ensures { IsTrue result ↔ (length self.now + count ≤ CAPACITY) }
    {
        count <= CAPACITY - self.len
    }

    /// Adds the bytes.
    pub fn push_bytes(&mut self, bytes: &[u8])
        requires { length self.old + length bytes.now ≤ CAPACITY }
        ensures { self.new ≡ self.old ++ bytes.now }
    {
        let end = self.len + bytes.len();
        self.bytes[self.len..end].copy_from_slice(bytes);
        self.len = end;
    }

    /// Writes the bytes and empties the piece. `taken` bytes of the text were written before, and the answer adds the
    /// piece's. At `WriteStop` the sink failed and has exactly the first `taken` bytes of the text, and the piece is as
    /// it was. A count past `usize::MAX` stands still there.
    pub fn write_to<S: Sink>(&mut self, sink: &mut S, taken: usize) -> Result<usize, WriteStop>
        ensures all { OnOk result (GrowsBy (S.written sink.old) (S.written sink.new) self.old) }
        ensures empty { OnOk result (self.new ≡ []) }
        ensures count { IfOk result (λ count. count ≡ min (taken + length self.old) (2 ^ 64 - 1)) }
        ensures part { IfErr result (λ stop. PieceWasCut taken (S.written sink.old) (S.written sink.new) self.old stop.taken) }
        ensures kept { OnErr result (self.new ≡ self.old) }
        ensures flushed { S.flushed sink.new ≡ S.flushed sink.old }
        ensures target { S.target sink.new ≡ S.target sink.old }
        ensures cause { HasCause (S.faults sink.old) (S.faults sink.new) result }
    {
        if let Err(stop) = write_all_of(sink, self.as_slice()) {
            let taken = taken.saturating_add(stop.taken);
            return Err(WriteStop { taken });
        }
        let count = taken.saturating_add(self.as_slice().len());
        self.clear();
        Ok(count)
    }

    fn as_slice(&self) -> &[u8]
        ensures { result.now ≡ self.now }
    {
        &self.bytes[..self.len]
    }

    fn clear(&mut self)
        ensures { self.new ≡ [] }
    {
        self.len = 0;
    }
}
