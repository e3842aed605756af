//! Letters, and characters in the other order.
ghost use Rattle.std.specs.Prelude.{◌≡◌, IfOk, map, reverse as reversed};
ghost use Rattle.std.specs.Char.{to_ascii_lowercase, to_ascii_uppercase};
ghost use Rattle.xp_characters.specs.Characters.{over};

use std::alloc::Global;
use xp_base::{Memory, Txt};
use xp_characters::last_character;

/// With capitals in place of small ASCII letters.
pub fn upper(alloc: Global, a: &str) -> Result<Txt, Memory>
    ensures { IfOk result (λ text. text ≡ map to_ascii_uppercase a.now) }
{
    let mut text = String::from_str(alloc, a)?;
    text.make_ascii_uppercase();
    Ok(Txt::from_string(text))
}

/// With small letters in place of ASCII capitals.
pub fn lower(alloc: Global, a: &str) -> Result<Txt, Memory>
    ensures { IfOk result (λ text. text ≡ map to_ascii_lowercase a.now) }
{
    let mut text = String::from_str(alloc, a)?;
    text.make_ascii_lowercase();
    Ok(Txt::from_string(text))
}

/// The characters, the last first.
pub fn reverse(alloc: Global, a: &str) -> Result<Txt, Memory>
    ensures { IfOk result (λ text. text ≡ over reversed a.now) }
{
    let mut text = String::with_capacity(alloc, a.len())?;
    let mut rest = a;
    while let Some((front, last)) = last_character(rest) {
        text.push(last)?;
        rest = front;
    }
    Ok(Txt::from_string(text))
}
