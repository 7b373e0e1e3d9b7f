// Kinds of bytes, and digits.
ghost use Rattle.std.specs.Prelude.{◌≡◌, ◌+◌, ◌-◌, ◌*◌, ◌<◌, ◌≤◌, ◌^◌, ◌||◌, min};
ghost use Rattle.dimacs_read.specs.Grammar.{is_blank, is_newline};
ghost use Rattle.dimacs_read.specs.Bytes.{IsKind};

/// What a byte is to the format.
#[derive(Clone, Copy)]
pub(crate) enum ByteKind {
    Newline,
    Blank,
    /// A digit, by its value.
    Digit(u64),
    Other,
}

/// What the byte is.
pub(crate) fn kind_of(byte: u8) -> ByteKind
    ensures { IsKind byte result }
{
    match byte {
        b'\n' => ByteKind::Newline,
        b'\t' | b'\r' | b' ' => ByteKind::Blank,
        b'0'..=b'9' => ByteKind::Digit(u64::from(byte - b'0')),
        _ => ByteKind::Other,
    }
}

/// The value with one more digit after it; `u64::MAX` also stands for more.
pub(crate) fn with_digit(value: u64, digit: u64) -> u64
    requires { digit < 10 }
    ensures { result ≡ min (10 * value + digit) (2 ^ 64 - 1) }
{
    value.saturating_mul(10).saturating_add(digit)
}

/// Whether the byte ends a token.
pub(crate) fn is_separator(byte: u8) -> bool
    ensures { result ≡ (is_blank byte || is_newline byte) }
{
    matches!(byte, b'\n' | b'\t' | b'\r' | b' ')
}
