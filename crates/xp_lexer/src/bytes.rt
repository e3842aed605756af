//! The classes of bytes.
ghost use Rattle.std.specs.Prelude.{◌≡◌, ◌<◌, slice_index, true};
ghost use Rattle.xp_lexer.specs.Bytes as spec;

/// The byte at `at`, or 0 past the end.
pub fn byte(z: &[u8], at: usize) -> u8
    ensures { result ≡ slice_index z.now at }
{
    z.get(at).copied().unwrap_or(0)
}

pub fn is_space(b: u8) -> bool
    ensures { result ≡ spec.is_space b }
{
    b == b' ' || (9 <= b && b <= 13)
}

pub fn is_decimal(b: u8) -> bool
    ensures { result ≡ spec.is_decimal b }
{
    char::from(b).is_digit(10)
}

pub fn begins_name(b: u8) -> bool
    ensures { result ≡ spec.begins_name b }
{
    b.is_ascii_alphabetic() || b == b'_'
}

pub fn is_name_byte(b: u8) -> bool
    ensures { result ≡ spec.is_name_byte b }
{
    b.is_ascii_alphanumeric() || b == b'_'
}

/// A comment begins with these two bytes.
pub fn opens_comment(b: u8, next: u8) -> bool
    ensures { result ≡ spec.opens_comment b next }
{
    (b == b'-' && next == b'-') || (b == b'/' && next == b'*')
}
