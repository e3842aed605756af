//! The text forms of the integer types (manual 8.1.1).
ghost use Rattle.std.specs.Prelude.{◌≡◌, ◌≤◌, IfOk, IsTrue, Some, length, option_map, slice_index, true};
ghost use Rattle.std.specs.Char.{is_digit};
ghost use Rattle.xp_io.specs.Integers as spec;
ghost use Rattle.xp_io.specs.inner.Digits.{capped, read};
ghost use Rattle.xp_lexer.specs.Meaning.{base_of};
ghost use Rattle.xp_value.specs.Representation.{has_bits};

use crate::space::trimmed;
use xp_base::{EvalError, is_sign};

/// The byte at a place, or 0 where there is none.
fn byte(text: &[u8], at: usize) -> u8
    ensures { result ≡ slice_index text.now at }
{
    match text.get(at) {
        Some(b) => *b,
        None => 0,
    }
}

fn is_digit(b: u8, base: u32) -> bool
    requires low { 2 ≤ base }
    requires high { base ≤ 16 }
    ensures { result ≡ is_digit b base }
{
    char::from(b).is_digit(base)
}

/// The base that the letter behind a 0 names, or 10.
fn base_of(letter: u8) -> u32
    ensures value { result ≡ base_of letter }
    ensures low { 2 ≤ result }
    ensures high { result ≤ 16 }
{
    match letter {
        b'x' | b'X' => 16,
        b'o' | b'O' => 8,
        b'b' | b'B' => 2,
        _ => 10,
    }
}

/// The number that the digits write, each of which may have one underscore before it. A number
/// past the greatest u64 counts as that one.
fn digits(base: u32, mut text: &[u8]) -> Option<u64>
    requires low { 2 ≤ base }
    requires high { base ≤ 16 }
    ensures { result ≡ read base 0 text.entry.now }
{
    let mut value = 0u64;
    while let [b, rest @ ..] = text {
        match char::from(*b).to_digit(base) {
            Some(digit) => {
                value = value
                    .saturating_mul(u64::from(base))
                    .saturating_add(u64::from(digit));
            }
            None if *b == b'_' && is_digit(byte(rest, 0), base) => {}
            None => return None,
        }
        text = rest;
    }
    Some(value)
}

/// Whether 0 and the letter of a base stand in front.
fn names_base(text: &[u8]) -> bool
    ensures value { result ≡ spec.names_base text.now }
    ensures long { IsTrue result → 2 ≤ length text.now }
{
    byte(text, 0) == b'0' && base_of(byte(text, 1)) != 10
}

/// The number of the digits behind the letter of a base.
#[tactic(auto, using(crate::proofs::Digits::read_number))]
fn based_number(base: u32, text: &[u8]) -> Option<u64>
    requires low { 2 ≤ base }
    requires high { base ≤ 16 }
    ensures { result ≡ option_map capped (spec.based_number base text.now) }
{
    if text.is_empty() {
        None
    } else {
        digits(base, text)
    }
}

#[tactic(auto, using(crate::proofs::Digits::read_number))]
fn decimal_number(text: &[u8]) -> Option<u64>
    ensures { result ≡ option_map capped (spec.decimal_number text.now) }
{
    if is_digit(byte(text, 0), 10) {
        digits(10, text)
    } else {
        None
    }
}

/// The whole number that the text is. One past the greatest u64 counts as that one.
fn whole_number(text: &[u8]) -> Option<u64>
    ensures { result ≡ option_map capped (spec.whole_number text.now) }
{
    if names_base(text) {
        based_number(base_of(byte(text, 1)), &text[2..])
    } else {
        decimal_number(text)
    }
}

/// The integer of that size, where so many bits have it.
fn within(width: u32, is_minus: bool, size: u64) -> Result<i64, EvalError>
    requires low { 1 ≤ width }
    requires high { width ≤ 64 }
    ensures value { result ≡ spec.within width (Some (spec.with_sign is_minus size)) }
    ensures fits { IfOk result (λ n. has_bits width n ≡ true) }
{
    let limit = 1u64 << (width - 1);
    if is_minus && size <= limit {
        Ok((-i128::from(size)) as i64)
    } else if !is_minus && size < limit {
        Ok(size as i64)
    } else {
        Err(EvalError::OutOfRange)
    }
}

/// The text without the sign in front.
fn unsigned(text: &[u8]) -> &[u8]
    ensures { result.now ≡ spec.unsigned text.now }
{
    if is_sign(byte(text, 0)) {
        &text[1..]
    } else {
        text
    }
}

/// The integer of so many bits that the text is.
#[tactic(auto, using(crate::proofs::Widths::capped_none, crate::proofs::Widths::capped_some))]
pub fn input_integer(width: u32, text: &[u8]) -> Result<i64, EvalError>
    requires low { 1 ≤ width }
    requires high { width ≤ 64 }
    ensures value { result ≡ spec.input_integer width text.now }
    ensures fits { IfOk result (λ n. has_bits width n ≡ true) }
{
    let number = trimmed(text);
    match whole_number(unsigned(number)) {
        Some(size) => within(width, byte(number, 0) == b'-', size),
        None => Err(EvalError::BadText),
    }
}
