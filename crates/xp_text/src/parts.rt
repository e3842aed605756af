//! Parts of texts, by the places of their characters.
ghost use Rattle.std.specs.Prelude.{◌≡◌, IfOk, drop, take};
ghost use Rattle.std.specs.Str.{chars, encode_utf8_all};
ghost use Rattle.xp_base.specs.OrMemory.{OrMemory};
ghost use Rattle.xp_characters.specs.Characters.{over};
ghost use Rattle.xp_characters.specs.Faults.{changed, is_memory};
ghost use Rattle.xp_characters.specs.Places.{from, substr as substr_of};
ghost use Rattle.xp_text.specs.Parts.{before_last as before_last_of, first_count as first_count_of, left as left_of, right as right_of};

use crate::measures::length_text;
use crate::owned::owned;
use std::alloc::Global;
use xp_base::{EvalError, Memory, Txt};
use xp_characters::{TextFault, before, split_characters};

/// So many characters behind the first ones.
fn part(a: &str, start: usize, count: usize) -> &str
    ensures { chars result.now ≡ take count (drop start (chars a.now)) }
{
    let (_, back) = split_characters(a, start);
    let (front, _) = split_characters(back, count);
    front
}

/// From the place n on, which counts from 1.
pub fn substr_text(alloc: Global, a: &str, n: i32) -> Result<Txt, Memory>
    ensures { IfOk result (λ text. text ≡ over (λ cs. from cs n) a.now) }
{
    let (_, back) = split_characters(a, before(i64::from(n)));
    owned(alloc, back)
}

/// So many places from the place n on.
pub fn substr_text_count(alloc: Global, a: &str, n: i32, count: i32) -> Result<Txt, TextFault>
    ensures { OrMemory is_memory (changed encode_utf8_all (substr_of (chars a.now) n count)) result }
{
    if count < 0 {
        return Err(TextFault::Raised(EvalError::Substring));
    }
    let start = before(i64::from(n));
    let end = before(i64::from(n) + i64::from(count));
    let text = owned(alloc, part(a, start, end.saturating_sub(start)))?;
    Ok(text)
}

fn first_count(size: usize, n: i32) -> usize
    ensures { result ≡ first_count_of size n }
{
    let distance = n.unsigned_abs() as usize;
    if n < 0 {
        size.saturating_sub(distance)
    } else {
        distance
    }
}

/// The first n characters; below 0, all but the last ones.
pub fn left(alloc: Global, a: &str, n: i32) -> Result<Txt, Memory>
    ensures { IfOk result (λ text. text ≡ over (λ cs. left_of cs n) a.now) }
{
    let (front, _) = split_characters(a, first_count(length_text(a), n));
    owned(alloc, front)
}

fn before_last(size: usize, n: i32) -> usize
    ensures { result ≡ before_last_of size n }
{
    let distance = n.unsigned_abs() as usize;
    if n < 0 {
        distance
    } else {
        size.saturating_sub(distance)
    }
}

/// The last n characters; below 0, all but the first ones.
pub fn right(alloc: Global, a: &str, n: i32) -> Result<Txt, Memory>
    ensures { IfOk result (λ text. text ≡ over (λ cs. right_of cs n) a.now) }
{
    let (_, back) = split_characters(a, before_last(length_text(a), n));
    owned(alloc, back)
}
