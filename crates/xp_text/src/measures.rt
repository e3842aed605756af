//! Lengths of texts, and their characters' code points.
ghost use Rattle.std.specs.Prelude.{◌≡◌, ◌≤◌, length};
ghost use Rattle.std.specs.Str.{chars};
ghost use Rattle.xp_base.specs.OrMemory.{OrMemory};
ghost use Rattle.xp_text.specs.Made.{character as character_of, chr as chr_of, first_code};
ghost use Rattle.xp_characters.specs.Faults.{is_memory};
ghost use Rattle.xp_value.specs.Order.{unpadded as unpadded_of};

use std::alloc::Global;
use xp_base::{EvalError, Txt};
use xp_characters::{TextFault, first_character};
use xp_value::unpadded;

/// How many characters.
pub fn length_text(a: &str) -> usize
    ensures value { result ≡ length (chars a.now) }
    ensures bound { result ≤ length a.now }
{
    a.chars().count()
}

/// How many characters, without the spaces at the end.
pub fn length_bpchar(a: &str) -> usize
    ensures value { result ≡ length (chars (unpadded_of a.now)) }
    ensures bound { result ≤ length a.now }
{
    length_text(unpadded(a))
}

/// How many bytes.
pub fn octet_length_text(a: &str) -> usize
    ensures { result ≡ length a.now }
{
    a.len()
}

/// How many bytes, those of the spaces at the end too.
pub fn octet_length_bpchar(a: &str) -> usize
    ensures { result ≡ length a.now }
{
    a.len()
}

/// The code point of the first character, 0 where there is none.
pub fn ascii(a: &str) -> u32
    ensures { result ≡ first_code (chars a.now) }
{
    match first_character(a) {
        Some((first, _)) => u32::from(first),
        None => 0,
    }
}

/// The character with that code point, where it is one and not 0.
fn character(n: i32) -> Option<char>
    ensures { result ≡ character_of n }
{
    if n <= 0 {
        return None;
    }
    char::from_u32(n as u32)
}

/// The text of the one character with that code point.
pub fn chr(alloc: Global, n: i32) -> Result<Txt, TextFault>
    ensures { OrMemory is_memory (chr_of n) result }
{
    let Some(c) = character(n) else {
        return Err(TextFault::Raised(EvalError::BadParameter));
    };
    let mut text = String::new(alloc);
    text.push(c)?;
    Ok(Txt::from_string(text))
}
