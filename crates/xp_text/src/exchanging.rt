//! Characters put in the place of others.
ghost use Rattle.std.specs.Prelude.{◌≡◌, ◌++◌, OnOk, drop, string_bytes, take};
ghost use Rattle.std.specs.Option.{option_to_list};
ghost use Rattle.std.specs.Str.{chars, encode_utf8_all};
ghost use Rattle.xp_base.specs.OrMemory.{OrMemory};
ghost use Rattle.xp_characters.specs.Faults.{is_memory, limited};
ghost use Rattle.xp_text.specs.Sets.{exchanged as exchanged_to, translate as translate_of};

use std::alloc::{AllocError, Global};
use xp_base::Txt;
use xp_characters::{TextFault, check_size, first_character, split_characters};

/// What stands behind the first character.
fn behind_first(text: &str) -> &str
    ensures { chars result.now ≡ drop 1 (chars text.now) }
{
    let (_, rest) = split_characters(text, 1);
    rest
}

fn first(text: &str) -> Option<char>
    ensures { option_to_list result ≡ take 1 (chars text.now) }
{
    match first_character(text) {
        Some((c, _)) => Some(c),
        None => None,
    }
}

/// The character that takes the place of this one, if one does.
fn exchanged(old: &str, new: &str, c: char) -> Option<char>
    ensures { option_to_list result ≡ exchanged_to (chars old.now) (chars new.now) c }
{
    let mut places = old;
    let mut values = new;
    while let Some((place, others)) = first_character(places) {
        if place == c {
            return first(values);
        }
        places = others;
        values = behind_first(values);
    }
    Some(c)
}

fn put(out: &mut String, c: Option<char>) -> Result<(), AllocError>
    ensures { OnOk result (string_bytes out.new ≡ string_bytes out.old ++ encode_utf8_all (option_to_list c)) }
{
    match c {
        Some(c) => out.push(c),
        None => Ok(()),
    }
}

/// Each character that stands in `old` by the one at its first place there in `new`, or by none.
pub fn translate(alloc: Global, a: &str, old: &str, new: &str) -> Result<Txt, TextFault>
    ensures { OrMemory is_memory (limited (encode_utf8_all (translate_of (chars a.now) (chars old.now) (chars new.now)))) result }
{
    let mut text = String::with_capacity(alloc, a.len())?;
    let mut rest = a;
    while let Some((c, others)) = first_character(rest) {
        put(&mut text, exchanged(old, new, c))?;
        rest = others;
    }
    check_size(text.len())?;
    Ok(Txt::from_string(text))
}
