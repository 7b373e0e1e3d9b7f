// Which clauses rings hand each other, and in which of four classes.
ghost use Rattle.std.specs.Prelude.{◌≡◌};
ghost use Rattle.ring_port.specs.Exchange.{class_of};

/// The class of a clause with this many literals and this glue, from 0, the best: 0 for two literals; for more 1 and 2 are
/// their glue, and 3 is a glue of 3 to 6. All others have none, and are not offered.
pub fn class_of(size: u32, glue: u32) -> Option<u8>
    ensures { result ≡ class_of size glue }
{
    if size == 2 {
        return Some(0);
    }
    if size < 2 {
        return None;
    }
    match glue {
        1 => Some(1),
        2 => Some(2),
        3..=6 => Some(3),
        _ => None,
    }
}
