// The line on standard error.
use crate::report::CallEnd;
use dimacs_read::Code;
use io_edge::{Sink, WriteStop, write_all_of};
use itoa::Buffer;
use sat_words::NoRoom;

/// Writes the line that names a bad place.
fn put_bad_place<E: Sink>(err: &mut E, code: Code, line: u64) -> Result<(), WriteStop> {
    let mut digits = Buffer::new();
    write_all_of(err, b"gimsatul: input line ")?;
    write_all_of(err, digits.format(line).as_bytes())?;
    write_all_of(err, b": ")?;
    write_all_of(err, code.name().as_bytes())?;
    write_all_of(err, b"\n")
}

/// Writes the line that says how much room was needed, and how much there is.
fn put_no_room<E: Sink>(err: &mut E, lack: NoRoom) -> Result<(), WriteStop> {
    let mut digits = Buffer::new();
    write_all_of(err, b"gimsatul: no room: need ")?;
    write_all_of(err, digits.format(lack.need).as_bytes())?;
    write_all_of(err, b", largest hole ")?;
    write_all_of(err, digits.format(lack.largest).as_bytes())?;
    write_all_of(err, b"\n")
}

/// Writes why there is no answer. If there is one, writes nothing.
pub fn put_message<E: Sink>(err: &mut E, end: &CallEnd) -> Result<(), WriteStop> {
    match end {
        CallEnd::Satisfiable(_) | CallEnd::Unsatisfiable | CallEnd::Unknown => Ok(()),
        CallEnd::Usage => write_all_of(err, b"gimsatul: bad command line\n"),
        CallEnd::BadInput { code, line } => put_bad_place(err, *code, *line),
        CallEnd::CannotOpen => write_all_of(err, b"gimsatul: cannot open input\n"),
        CallEnd::CannotCreate => write_all_of(err, b"gimsatul: cannot create proof\n"),
        CallEnd::ReadFault => write_all_of(err, b"gimsatul: read fault\n"),
        CallEnd::WriteFault => write_all_of(err, b"gimsatul: write fault\n"),
        CallEnd::ProofFault => write_all_of(err, b"gimsatul: proof fault\n"),
        CallEnd::Room(lack) => put_no_room(err, *lack),
        CallEnd::Memory => write_all_of(err, b"gimsatul: out of memory\n"),
    }
}
