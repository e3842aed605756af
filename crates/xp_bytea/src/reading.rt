//! The bytes that a text of bytea is.
ghost use Rattle.std.specs.Prelude.{◌≡◌, ◌<◌, ◌≤◌, IfSome, length};
ghost use Rattle.xp_base.specs.OrMemory.{OrMemory};
ghost use Rattle.xp_bytea.specs.Texts.{begins_hex as begins_hex_so, bytes_in, escaped as escaped_so, octal_digit as octal_digit_so, of_octal as of_octal_so, piece as piece_so};
ghost use Rattle.xp_characters.specs.Faults.{is_memory};

use crate::encoding::from_digits;
use crate::parts::behind;
use std::alloc::Global;
use xp_base::{Byts, EvalError};
use xp_characters::TextFault;

const BACKSLASH: u8 = b'\\';

/// The value of an octal digit.
fn octal_digit(c: u8) -> Option<u8>
    ensures value { result ≡ octal_digit_so c }
    ensures bound { IfSome result (λ d. d < 8) }
{
    if c < b'0' || c > b'7' {
        return None;
    }
    Some(c - b'0')
}

/// The byte that three octal digits write.
fn of_octal(a: u8, b: u8, c: u8) -> Option<u8>
    ensures { result ≡ of_octal_so a b c }
{
    let (Some(high), Some(middle), Some(low)) = (octal_digit(a), octal_digit(b), octal_digit(c))
    else {
        return None;
    };
    if high > 3 {
        return None;
    }
    Some(high * 64 + middle * 8 + low)
}

/// The first byte of a text that is escaped, and how many characters write it.
fn piece(text: &[u8]) -> Option<(u8, usize)>
    requires { 0 < length text.now }
    ensures value { result ≡ piece_so text.now }
    ensures within { IfSome result (λ r. r.1 ≤ length text.now) }
    ensures some { IfSome result (λ r. 0 < r.1) }
{
    if text[0] != BACKSLASH {
        return Some((text[0], 1));
    }
    if text.len() > 1 && text[1] == BACKSLASH {
        return Some((BACKSLASH, 2));
    }
    if text.len() < 4 {
        return None;
    }
    match of_octal(text[1], text[2], text[3]) {
        Some(byte) => Some((byte, 4)),
        None => None,
    }
}

/// The bytes of a text in which a backslash escapes itself or stands before three octal digits.
fn escaped(alloc: Global, text: &[u8]) -> Result<Byts, TextFault>
    ensures { OrMemory is_memory (escaped_so text.now) result }
{
    let mut bytes = Byts::new(alloc);
    let mut rest = text;
    while !rest.is_empty() {
        let Some((byte, taken)) = piece(rest) else {
            return Err(TextFault::Raised(EvalError::BadText));
        };
        bytes.append(&[byte])?;
        rest = behind(rest, taken);
    }
    Ok(bytes)
}

fn begins_hex(text: &[u8]) -> bool
    ensures { result ≡ begins_hex_so text.now }
{
    text.len() > 1 && text[0] == BACKSLASH && text[1] == b'x'
}

/// The bytes that a text is: `\x` and hexadecimal digits, or characters in which a backslash
/// escapes.
pub fn read_bytea(alloc: Global, text: &[u8]) -> Result<Byts, TextFault>
    ensures { OrMemory is_memory (bytes_in text.now) result }
{
    if begins_hex(text) {
        return from_digits(alloc, &text[2..], EvalError::BadText);
    }
    escaped(alloc, text)
}
