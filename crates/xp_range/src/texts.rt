//! The parts of a range's text, and the text of a range whose bounds have theirs.
ghost use Rattle.std.specs.Prelude.{◌≡◌, ◌++◌, ◌==◌, Ok, OnErr, OnOk, option_map};
ghost use Rattle.std.specs.List.{list_all, position};
ghost use Rattle.xp_base.specs.FromLeft.{and_then};
ghost use Rattle.xp_range.specs.Constructors.{flags_named};
ghost use Rattle.xp_range.specs.Texts.{bounds_in, is_plain, opening, parts_of, split, text_with};

use crate::bounds::{isempty, lower};
use crate::constructors::{Flags, flags_named};
use std::alloc::Global;
use xp_base::{Byts, EvalError, Memory};
use xp_value::Range;

/// What stands in a range's text; an infinite bound's text is empty.
#[derive(Clone, Copy, Debug)]
pub struct RangeText<'a> {
    pub flags: Flags,
    pub lower: &'a [u8],
    pub upper: &'a [u8],
}

/// Whether the byte may stand in a bound's text.
fn is_plain(byte: u8) -> bool
    ensures { result ≡ is_plain byte }
{
    !matches!(byte, b'[' | b']' | b'(' | b')' | b',' | b'"' | b'\\')
}

fn all_plain(text: &[u8]) -> bool
    ensures { result ≡ list_all is_plain text.now }
{
    text.iter().all(|byte| is_plain(*byte))
}

/// The place of the first comma.
fn comma_in(text: &[u8]) -> Option<usize>
    ensures { result ≡ position (λ b. b == 44) text.now }
{
    text.iter().position(|byte| *byte == b',')
}

/// The texts of two bounds round a comma.
fn bounds_in(text: &[u8]) -> Option<(&[u8], &[u8])>
    ensures { option_map (λ b. (b.0.now, b.1.now)) result ≡ bounds_in text.now }
{
    let comma = comma_in(text)?;
    let (lower, upper) = (&text[..comma], &text[comma + 1..]);
    if all_plain(lower) && all_plain(upper) {
        Some((lower, upper))
    } else {
        None
    }
}

/// The parts of the text of a range that isn't spelled as empty.
fn parts_of(text: &[u8]) -> Option<RangeText<'_>>
    ensures { option_map (λ parts. (parts.flags, parts.lower.now, parts.upper.now)) result ≡ parts_of text.now }
{
    if text.len() < 2 {
        return None;
    }
    let last = text.len() - 1;
    let flags = flags_named(&[text[0], text[last]])?;
    let (lower, upper) = bounds_in(&text[1..last])?;
    Some(RangeText {
        flags,
        lower,
        upper,
    })
}

/// The parts of a range's text without white space at its ends; the empty range has none.
pub fn split_range(text: &[u8]) -> Result<Option<RangeText<'_>>, EvalError>
    ensures { and_then result (λ found. Ok (option_map (λ parts. (parts.flags, parts.lower.now, parts.upper.now)) found)) ≡ split text.now }
{
    if text.eq_ignore_ascii_case(b"empty") {
        return Ok(None);
    }
    match parts_of(text) {
        Some(parts) => Ok(Some(parts)),
        None => Err(EvalError::BadText),
    }
}

/// The bracket before a lower bound.
fn opening(lower: Option<i64>) -> u8
    ensures { result ≡ opening lower }
{
    match lower {
        None => b'(',
        Some(_) => b'[',
    }
}

/// Adds the text of a range whose bounds have these texts; an infinite bound's is empty.
pub fn write_range(
    alloc: Global,
    range: Range,
    lower_text: &[u8],
    upper_text: &[u8],
    out: &mut Byts,
) -> Result<(), Memory>
    ensures ok { OnOk result (out.new ≡ out.old ++ text_with range lower_text.now upper_text.now) }
    ensures err { OnErr result (out.new ≡ out.old) }
{
    if isempty(range) {
        return out.append(b"empty");
    }
    let mut text = Byts::new(alloc);
    text.append(&[opening(lower(range))])?;
    text.append(lower_text)?;
    text.append(b",")?;
    text.append(upper_text)?;
    text.append(b")")?;
    out.append(text.as_slice())
}
