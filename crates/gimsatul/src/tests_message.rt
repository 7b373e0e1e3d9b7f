// The line on standard error.
use io_edge::MemSink;
use sat_words::NoRoom;
use std::process::Abort;
use std::test::Fail;
use top_call::{CallEnd, put_message};

#[test]
fn the_line_if_there_is_no_room(rt: HostRuntime) -> Result<(), Fail> {
    let alloc = rt.alloc();
    let full = CallEnd::Room(NoRoom {
        need: (1 << 48) + 1,
        largest: 1 << 48,
    });
    let line = "gimsatul: no room: need 281474976710657, largest hole 281474976710656\n";
    let mut err = MemSink::new(alloc, 256, &[])?;
    assert!(rt; put_message(&mut err, &full).is_ok());
    assert!(rt; err.bytes() == line.as_bytes());
    Ok(())
}
