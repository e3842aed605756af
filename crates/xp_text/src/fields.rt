//! Texts between delimiters.
ghost use Rattle.std.specs.Prelude.{◌≡◌, ◌+◌, ◌<◌, ◌≤◌, [], ◌∷◌, ◌++◌, IfSome, MatchOption, length, slice_index_or, string_bytes, OnOk, IfErr, false};
ghost use Rattle.std.specs.Str.{chars, encode_utf8_all};
ghost use Rattle.xp_base.specs.OrMemory.{OrMemory};
ghost use Rattle.xp_base.specs.declared.limits.TheConstants.{VALUE_LIMIT};
ghost use Rattle.xp_characters.specs.Characters.{over};
ghost use Rattle.xp_characters.specs.Faults.{is_memory, limited, too_large};
ghost use Rattle.xp_text.specs.Fields.{field_place as field_place_of, fields, replace as replace_of, split_part as split_part_of};

use crate::finding::around;
use crate::owned::owned;
use std::alloc::Global;
use xp_base::{EvalError, Txt};
use xp_characters::{TextFault, check_size};

/// The first field and what stands behind its delimiter, where there is one that isn't empty.
fn cut<'a>(a: &'a str, delimiter: &str) -> Option<(&'a str, &'a str)>
    ensures cases { MatchOption result (fields (chars delimiter.now) (chars a.now) ≡ chars a.now ∷ []) (λ r. fields (chars delimiter.now) (chars a.now) ≡ chars r.0.now ∷ fields (chars delimiter.now) (chars r.1.now)) }
    ensures shorter { IfSome result (λ r. length r.1.now < length a.now) }
{
    if delimiter.is_empty() {
        return None;
    }
    match around(a, delimiter) {
        Some((field, behind)) => Some((field, behind)),
        None => None,
    }
}

/// Adds a piece, where the text with it isn't too large.
fn put(out: &mut String, piece: &str) -> Result<(), TextFault>
    ensures ok { OnOk result (string_bytes out.new ≡ string_bytes out.old ++ encode_utf8_all (chars piece.now)) }
    ensures within { OnOk result (length (string_bytes out.new) ≤ VALUE_LIMIT) }
    ensures large { IfErr result (λ e. is_memory e ≡ false → (e ≡ too_large) × (VALUE_LIMIT < length (string_bytes out.old) + length (encode_utf8_all (chars piece.now)))) }
{
    check_size(out.len().saturating_add(piece.len()))?;
    out.push_str(piece)?;
    Ok(())
}

/// Each occurrence of `old` by `new`, from left to right.
pub fn replace(alloc: Global, a: &str, old: &str, new: &str) -> Result<Txt, TextFault>
    ensures { OrMemory is_memory (limited (encode_utf8_all (replace_of (chars a.now) (chars old.now) (chars new.now)))) result }
{
    let mut text = String::new(alloc);
    let mut rest = a;
    while let Some((field, behind)) = cut(rest, old) {
        put(&mut text, field)?;
        put(&mut text, new)?;
        rest = behind;
    }
    put(&mut text, rest)?;
    Ok(Txt::from_string(text))
}

fn count_fields(a: &str, delimiter: &str) -> usize
    ensures value { result ≡ length (fields (chars delimiter.now) (chars a.now)) }
{
    let mut count = 1;
    let mut rest = a;
    while let Some((_, behind)) = cut(rest, delimiter) {
        count += 1;
        rest = behind;
    }
    count
}

/// The field behind so many others, empty where there is none.
fn field<'a>(a: &'a str, delimiter: &str, place: usize) -> &'a str
    ensures { chars result.now ≡ slice_index_or (fields (chars delimiter.now) (chars a.now)) place [] }
{
    let mut rest = a;
    for _ in 0..place {
        let Some((_, behind)) = cut(rest, delimiter) else {
            return "";
        };
        rest = behind;
    }
    match cut(rest, delimiter) {
        Some((field, _)) => field,
        None => rest,
    }
}

/// How many of so many fields stand before the one that n names; as many as there are, where it
/// names none.
fn field_place(count: usize, n: i32) -> usize
    ensures { result ≡ field_place_of count n }
{
    let distance = n.unsigned_abs() as usize;
    if n >= 0 {
        distance.saturating_sub(1)
    } else if distance <= count {
        count - distance
    } else {
        count
    }
}

/// The field n, which counts from 1, below 0 from the end.
pub fn split_part(alloc: Global, a: &str, delimiter: &str, n: i32) -> Result<Txt, TextFault>
    ensures { OrMemory is_memory (split_part_of a.now delimiter.now n) result }
{
    if n == 0 {
        return Err(TextFault::Raised(EvalError::BadParameter));
    }
    let place = field_place(count_fields(a, delimiter), n);
    let text = owned(alloc, field(a, delimiter, place))?;
    Ok(text)
}
