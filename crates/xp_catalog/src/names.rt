//! How names, letters and flags are spelled.
ghost use Rattle.std.specs.Prelude.{◌≡◌, IfOk, ◌==◌};
ghost use Rattle.std.specs.List.{list_all, list_any};
ghost use Rattle.std.specs.Str.{IsAscii};
ghost use Rattle.xp_catalog.specs.Spelling.{is_among, is_digit, is_flag, is_letter_of, is_name, is_name_byte, is_type_name, letters_of, number_names, is_pseudo_name, plain_names, pseudo_type, range_names, text_names};

use crate::PseudoType;
use std::alloc::Global;
use xp_base::{Memory, Name};

fn is_digit(b: u8) -> bool
    ensures { result ≡ is_digit b }
{
    b'0' <= b && b <= b'9'
}

fn is_name_byte(b: u8) -> bool
    ensures { result ≡ is_name_byte b }
{
    (b'a' <= b && b <= b'z') || is_digit(b) || b == b'_'
}

fn has_name_bytes(name: &[u8]) -> bool
    ensures { result ≡ list_all is_name_byte name.now }
{
    name.iter().all(|b| is_name_byte(*b))
}

/// Whether the bytes are a name of 1 to 63 lower-case letters, digits and `_`.
pub fn is_name(name: &[u8]) -> bool
    ensures { result ≡ is_name name.now }
{
    if name.is_empty() {
        return false;
    }
    let first = name[0];
    name.len() <= 63 && has_name_bytes(name) && !is_digit(first)
}

/// The pseudo-type of that name.
pub fn pseudo_type(name: &[u8]) -> Option<PseudoType>
    ensures { result ≡ pseudo_type name.now }
{
    if name == b"any".as_slice() {
        Some(PseudoType::Any)
    } else if name == b"anyelement".as_slice() {
        Some(PseudoType::AnyElement)
    } else if name == b"anyarray".as_slice() {
        Some(PseudoType::AnyArray)
    } else if name == b"anynonarray".as_slice() {
        Some(PseudoType::AnyNonArray)
    } else if name == b"anyrange".as_slice() {
        Some(PseudoType::AnyRange)
    } else if name == b"anycompatible".as_slice() {
        Some(PseudoType::AnyCompatible)
    } else if name == b"anycompatiblearray".as_slice() {
        Some(PseudoType::AnyCompatibleArray)
    } else if name == b"anycompatiblenonarray".as_slice() {
        Some(PseudoType::AnyCompatibleNonArray)
    } else if name == b"anycompatiblerange".as_slice() {
        Some(PseudoType::AnyCompatibleRange)
    } else {
        None
    }
}

/// Whether the bytes name a pseudo-type.
pub fn is_pseudo(name: &[u8]) -> bool
    ensures { result ≡ is_pseudo_name name.now }
{
    pseudo_type(name).is_some()
}

/// Whether the bytes are a name that only a record of a range may give.
pub fn is_range(name: &[u8]) -> bool
    ensures { result ≡ is_among range_names name.now }
{
    name == b"int4range".as_slice()
        || name == b"int8range".as_slice()
        || name == b"daterange".as_slice()
}

/// Whether the bytes are a name that only a record of a plain type may give.
pub fn is_plain(name: &[u8]) -> bool
    ensures { result ≡ is_among plain_names name.now }
{
    name == b"bool".as_slice()
        || is_number_type(name)
        || is_text_type(name)
        || name == b"bytea".as_slice()
        || name == b"date".as_slice()
}

/// Whether the bytes may name a type, a range or a domain.
pub fn is_type_name(name: &[u8]) -> bool
    ensures { result ≡ is_type_name name.now }
{
    is_name(name) && name != b"unknown".as_slice()
}

fn is_number_type(name: &[u8]) -> bool
    ensures { result ≡ is_among number_names name.now }
{
    name == b"int2".as_slice()
        || name == b"int4".as_slice()
        || name == b"int8".as_slice()
        || name == b"numeric".as_slice()
}

/// Whether the bytes name one of the three texts.
pub fn is_text_type(name: &[u8]) -> bool
    ensures { result ≡ is_among text_names name.now }
{
    name == b"text".as_slice() || name == b"varchar".as_slice() || name == b"bpchar".as_slice()
}

fn letters_of(name: &[u8]) -> &'static [u8]
    ensures { result.now ≡ letters_of name.now }
{
    if is_pseudo(name) {
        b"P"
    } else if name == b"bool".as_slice() {
        b"B"
    } else if is_number_type(name) {
        b"N"
    } else if is_text_type(name) {
        b"S"
    } else if name == b"bytea".as_slice() {
        b"U"
    } else if name == b"date".as_slice() {
        b"D"
    } else {
        b"BCDEGINSTUVZ"
    }
}

/// Whether the byte is one of the bytes.
fn has_byte(bytes: &[u8], byte: u8) -> bool
    ensures { result ≡ list_any (λ b. b == byte) bytes.now }
{
    bytes.iter().any(|b| *b == byte)
}

/// Whether the letter is that of a category that a type of that name may have.
pub fn is_letter_of(name: &[u8], letter: u8) -> bool
    ensures { result ≡ is_letter_of name.now letter }
{
    has_byte(letters_of(name), letter)
}

/// Whether the bytes are `t` or `f`.
pub fn is_flag(flag: &[u8]) -> bool
    ensures { result ≡ is_flag flag.now }
{
    flag == b"t".as_slice() || flag == b"f".as_slice()
}

/// A copy of bytes that are ASCII.
pub fn new_name(alloc: Global, bytes: &[u8]) -> Result<Name, Memory>
    requires { IsAscii bytes.now }
    ensures { IfOk result (λ name. name ≡ bytes.now) }
{
    Ok(Name::from_string(String::from_utf8_lossy(alloc, bytes)?))
}
