// The words of a clause that is deleted are used again, and every other clause reads as before.
use crate::reduction::open_row;
use crate::reusing::reuse_words;
use std::test::Fail;

// The start clause has the words 0 to 4, and each copy as many; the fourth copy has those of the second.
#[test]
fn freed_words_are_used_again(rt: HostRuntime) -> Result<(), Fail> {
    let alloc = rt.alloc();
    let mut port = open_row(alloc)?;
    let read = reuse_words(alloc, &mut port)?;
    assert!(rt;
        read.as_slice() == [(5, 3, true), (15, 5, true), (10, 6, true), (20, 7, true)].as_slice()
    );
    let (end, sink) = port.into_lines().finish();
    assert!(rt; end == Ok(()));
    assert!(rt;
        sink.bytes() == b"1 2 3 0\n1 2 3 0\n1 2 3 0\nd 1 2 3 0\n1 2 3 0\n1 2 3 0\n".as_slice()
    );
    Ok(())
}
