//! Texts one behind the other.
ghost use Rattle.std.specs.Prelude.{◌≡◌, ◌++◌, OnOk, string_bytes};
ghost use Rattle.xp_base.specs.OrMemory.{OrMemory};
ghost use Rattle.xp_text.specs.Made.{repeated, times};
ghost use Rattle.xp_characters.specs.Faults.{is_memory, limited};

use crate::counts::at_least_none;
use std::alloc::{AllocError, Global};
use xp_base::Txt;
use xp_characters::{TextFault, check_size};

/// `a || b`.
pub fn cat_text(alloc: Global, a: &str, b: &str) -> Result<Txt, TextFault>
    ensures { OrMemory is_memory (limited (a.now ++ b.now)) result }
{
    check_size(a.len().saturating_add(b.len()))?;
    let mut text = String::with_capacity(alloc, a.len() + b.len())?;
    text.push_str(a)?;
    text.push_str(b)?;
    Ok(Txt::from_string(text))
}

/// A text, and another argument that was cast to text.
pub fn textany(alloc: Global, a: &str, b: &str) -> Result<Txt, TextFault>
    ensures { OrMemory is_memory (limited (a.now ++ b.now)) result }
{
    cat_text(alloc, a, b)
}

/// Another argument, which was cast to text, and a text.
pub fn anytext(alloc: Global, a: &str, b: &str) -> Result<Txt, TextFault>
    ensures { OrMemory is_memory (limited (a.now ++ b.now)) result }
{
    cat_text(alloc, a, b)
}

/// Adds the text so many times.
pub fn put_copies(out: &mut String, a: &str, count: usize) -> Result<(), AllocError>
    ensures { OnOk result (string_bytes out.new ≡ string_bytes out.old ++ repeated count a.now) }
{
    for _ in 0..count {
        out.push_str(a)?;
    }
    Ok(())
}

/// The text so many times.
fn copies(alloc: Global, a: &str, count: usize) -> Result<Txt, TextFault>
    ensures { OrMemory is_memory (limited (repeated count a.now)) result }
{
    let mut text = String::new(alloc);
    if a.is_empty() {
        return Ok(Txt::from_string(text));
    }
    check_size(a.len().saturating_mul(count))?;
    put_copies(&mut text, a, count)?;
    Ok(Txt::from_string(text))
}

/// The text so many times; below 1 it is empty.
pub fn repeat(alloc: Global, a: &str, n: i32) -> Result<Txt, TextFault>
    ensures { OrMemory is_memory (limited (repeated (times n) a.now)) result }
{
    copies(alloc, a, at_least_none(n))
}
