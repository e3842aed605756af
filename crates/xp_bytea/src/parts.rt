//! Byte strings joined, measured and taken apart.
ghost use Rattle.std.specs.Prelude.{◌≡◌, ◌++◌, ◌+◌, ◌≤◌, IfOk, drop, length, take};
ghost use Rattle.xp_base.specs.OrMemory.{OrMemory};
ghost use Rattle.xp_characters.specs.Faults.{is_memory, limited};
ghost use Rattle.xp_characters.specs.Places.{from, substr as substr_of};
ghost use Rattle.xp_characters.specs.Search.{begins, strpos as strpos_of};

use std::alloc::Global;
use xp_base::{Byts, EvalError, Memory};
use xp_characters::{TextFault, before, check_size};

/// `a || b`.
pub fn cat_bytea(alloc: Global, a: &[u8], b: &[u8]) -> Result<Byts, TextFault>
    ensures { OrMemory is_memory (limited (a.now ++ b.now)) result }
{
    check_size(a.len().saturating_add(b.len()))?;
    let mut bytes = Byts::new(alloc);
    bytes.append(a)?;
    bytes.append(b)?;
    Ok(bytes)
}

/// How many bytes.
pub fn length_bytea(a: &[u8]) -> usize
    ensures { result ≡ length a.now }
{
    a.len()
}

/// How many bytes.
pub fn octet_length_bytea(a: &[u8]) -> usize
    ensures { result ≡ length a.now }
{
    a.len()
}

fn owned(alloc: Global, part: &[u8]) -> Result<Byts, Memory>
    ensures { IfOk result (λ bytes. bytes ≡ part.now) }
{
    let mut bytes = Byts::new(alloc);
    bytes.append(part)?;
    Ok(bytes)
}

/// What stands behind so many bytes.
pub fn behind(a: &[u8], count: usize) -> &[u8]
    ensures { result.now ≡ drop count a.now }
{
    &a[count.min(a.len())..]
}

/// So many bytes behind the first ones.
fn part(a: &[u8], start: usize, count: usize) -> &[u8]
    ensures { result.now ≡ take count (drop start a.now) }
{
    let back = behind(a, start);
    &back[..count.min(back.len())]
}

/// From the place n on, which counts from 1.
pub fn substr_bytea(alloc: Global, a: &[u8], n: i32) -> Result<Byts, Memory>
    ensures { IfOk result (λ bytes. bytes ≡ from a.now n) }
{
    owned(alloc, behind(a, before(i64::from(n))))
}

/// So many places from the place n on.
pub fn substr_bytea_count(alloc: Global, a: &[u8], n: i32, count: i32) -> Result<Byts, TextFault>
    ensures { OrMemory is_memory (substr_of a.now n count) result }
{
    if count < 0 {
        return Err(TextFault::Raised(EvalError::Substring));
    }
    let start = before(i64::from(n));
    let end = before(i64::from(n) + i64::from(count));
    let bytes = owned(alloc, part(a, start, end.saturating_sub(start)))?;
    Ok(bytes)
}

fn begins_with(a: &[u8], part: &[u8]) -> bool
    ensures { result ≡ begins a.now part.now }
{
    a.starts_with(part)
}

/// The place of the first occurrence, which counts from 1; 0 where there is none.
pub fn strpos_bytea(a: &[u8], part: &[u8]) -> usize
    ensures value { result ≡ strpos_of a.now part.now }
    ensures bound { result ≤ length a.now + 1 }
{
    for i in 0..a.len() + 1 {
        if begins_with(behind(a, i), part) {
            return i + 1;
        }
    }
    0
}
