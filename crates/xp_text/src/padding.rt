//! Texts brought to a length.
ghost use Rattle.std.specs.Prelude.{◌≡◌, ◌+◌, ◌*◌, ◌-◌, ◌^◌, ◌∷◌, [], ◌++◌, OnOk, length, min, string_bytes};
ghost use Rattle.std.specs.Str.{chars, encode_utf8_all};
ghost use Rattle.xp_base.specs.OrMemory.{OrMemory};
ghost use Rattle.xp_characters.specs.Faults.{is_memory, limited};
ghost use Rattle.xp_text.specs.Made.{repeated, times};
ghost use Rattle.xp_text.specs.Parts.{lpad as lpad_of, padding as padding_of, rpad as rpad_of};

use crate::counts::at_least_none;
use crate::joining::put_copies;
use crate::measures::length_text;
use std::alloc::{AllocError, Global};
use xp_base::Txt;
use xp_characters::{TextFault, check_size, split_characters};

/// A fill so many times, and a part of it behind that.
#[derive(Clone, Copy)]
struct Padding<'a> {
    fill: &'a str,
    copies: usize,
    part: &'a str,
}

/// So many characters of a fill.
fn filled(fill: &str, count: usize) -> Padding<'_>
    ensures { encode_utf8_all (padding_of (chars fill.now) count) ≡ repeated result.copies result.fill.now ++ result.part.now }
{
    let size = length_text(fill);
    if size == 0 {
        return Padding {
            fill,
            copies: 0,
            part: "",
        };
    }
    let (part, _) = split_characters(fill, count % size);
    Padding {
        fill,
        copies: count / size,
        part,
    }
}

/// How many bytes, or the greatest number where there are more.
fn padding_size(padding: &Padding<'_>) -> usize
    ensures { result ≡ min (length (repeated padding.now.copies padding.now.fill.now ++ padding.now.part.now)) (2 ^ 64 - 1) }
{
    padding
        .fill
        .len()
        .saturating_mul(padding.copies)
        .saturating_add(padding.part.len())
}

fn put_padding(out: &mut String, padding: &Padding<'_>) -> Result<(), AllocError>
    ensures { OnOk result (string_bytes out.new ≡ string_bytes out.old ++ (repeated padding.now.copies padding.now.fill.now ++ padding.now.part.now)) }
{
    put_copies(out, padding.fill, padding.copies)?;
    out.push_str(padding.part)
}

/// At so many characters with the fill before them.
fn filled_before(alloc: Global, a: &str, count: usize, fill: &str) -> Result<Txt, TextFault>
    ensures { OrMemory is_memory (limited (encode_utf8_all (lpad_of (chars a.now) count (chars fill.now)))) result }
{
    let (front, _) = split_characters(a, count);
    let padding = filled(fill, count.saturating_sub(length_text(a)));
    check_size(padding_size(&padding).saturating_add(front.len()))?;
    let mut text = String::new(alloc);
    put_padding(&mut text, &padding)?;
    text.push_str(front)?;
    Ok(Txt::from_string(text))
}

/// At so many characters with the fill behind them.
fn filled_behind(alloc: Global, a: &str, count: usize, fill: &str) -> Result<Txt, TextFault>
    ensures { OrMemory is_memory (limited (encode_utf8_all (rpad_of (chars a.now) count (chars fill.now)))) result }
{
    let (front, _) = split_characters(a, count);
    let padding = filled(fill, count.saturating_sub(length_text(a)));
    check_size(padding_size(&padding).saturating_add(front.len()))?;
    let mut text = String::from_str(alloc, front)?;
    put_padding(&mut text, &padding)?;
    Ok(Txt::from_string(text))
}

/// At n characters with the fill before them.
pub fn lpad_fill(alloc: Global, a: &str, n: i32, fill: &str) -> Result<Txt, TextFault>
    ensures { OrMemory is_memory (limited (encode_utf8_all (lpad_of (chars a.now) (times n) (chars fill.now)))) result }
{
    filled_before(alloc, a, at_least_none(n), fill)
}

/// At n characters with the fill behind them.
pub fn rpad_fill(alloc: Global, a: &str, n: i32, fill: &str) -> Result<Txt, TextFault>
    ensures { OrMemory is_memory (limited (encode_utf8_all (rpad_of (chars a.now) (times n) (chars fill.now)))) result }
{
    filled_behind(alloc, a, at_least_none(n), fill)
}

/// At n characters with spaces before them.
pub fn lpad(alloc: Global, a: &str, n: i32) -> Result<Txt, TextFault>
    ensures { OrMemory is_memory (limited (encode_utf8_all (lpad_of (chars a.now) (times n) (32 ∷ [])))) result }
{
    filled_before(alloc, a, at_least_none(n), " ")
}

/// At n characters with spaces behind them.
pub fn rpad(alloc: Global, a: &str, n: i32) -> Result<Txt, TextFault>
    ensures { OrMemory is_memory (limited (encode_utf8_all (rpad_of (chars a.now) (times n) (32 ∷ [])))) result }
{
    filled_behind(alloc, a, at_least_none(n), " ")
}
