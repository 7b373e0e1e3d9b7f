// Reading a formula from a source, in pieces.
ghost use Rattle.std.specs.Prelude.{◌≡◌, ◌≢◌, ◌≤◌, Err, IfOk, OnErr, true, is_err};
ghost use Rattle.std.specs.Io.{ReadsAtMost};
ghost use Rattle.io_edge.specs.Bytes.{WasRead};
ghost use Rattle.io_edge.specs.Causes.{HasCause, one_more};
ghost use Rattle.dimacs_read.specs.Answer.{IsAnswer, IsReadNoFurther};
ghost use Rattle.dimacs_read.specs.Input.{IsInRange};
ghost use Rattle.dimacs_read.specs.declared.stop.ReadStop.TheVariants.{ReadFault};

use crate::reader::Reader;
use crate::stop::ReadStop;
use io_edge::{Failed, Source};
use sat_words::Formula;
use std::alloc::Global;

/// The most bytes of an input.
const LIMIT: usize = 1 << 33;

/// How many bytes are asked for at once, at most.
const BUFFER: usize = 1 << 16;

/// Reads the next piece, by one read.
fn read_piece<S: Source>(source: &mut S, buf: &mut [u8]) -> Result<usize, Failed>
    ensures bound { ReadsAtMost result buf.new }
    ensures bytes { WasRead (S.left source.old) (S.left source.new) result buf.new }
    ensures cause { HasCause (S.faults source.old) (S.faults source.new) result }
    ensures once { OnErr result (S.faults source.new ≡ one_more (S.faults source.old)) }
    ensures failed { S.failed source.new ≡ is_err result }
{
    source.read(buf)
}

/// Reads a formula in DIMACS CNF, to the end of the source or to the `%` that ends the formula.
///
/// The first bad place of the input decides. As soon as the bytes taken determine the answer, no further byte is asked
/// for. No line and no token is held whole: a number may have any length, and only its value counts. After an answer
/// the source stands after the last piece that was read.
pub fn read<S: Source>(alloc: Global, source: &mut S) -> Result<Formula, ReadStop>
    ensures answer { IsAnswer (S.left source.old) (S.left source.new) result }
    ensures rest { IsReadNoFurther (S.left source.old) (S.left source.new) }
    // Also if the text of the source is not known.
    ensures range { IfOk result IsInRange }
    // One read failed, and it was the last one.
    ensures fault { result ≡ Err ReadFault → S.faults source.new ≡ one_more (S.faults source.old) }
    ensures failed { result ≡ Err ReadFault → S.failed source.new ≡ true }
    ensures later { S.faults source.old ≤ S.faults source.new }
    ensures quiet { result ≢ Err ReadFault → S.faults source.new ≡ S.faults source.old }
{
    let mut reader = Reader::new(alloc);
    let mut buffer = [0u8; BUFFER];
    let mut taken = 0;
    loop {
        match read_piece(source, &mut buffer) {
            Err(Failed) => return Err(ReadStop::ReadFault),
            Ok(0) => return reader.finish(alloc),
            Ok(count) => {
                let room = LIMIT - taken;
                if count > room {
                    return reader.finish_at(alloc, &buffer[..room], buffer[room]);
                }
                if let Err(stop) = reader.take_bytes(alloc, &buffer[..count]) {
                    return reader.answer(stop);
                }
                taken += count;
            }
        }
    }
}
