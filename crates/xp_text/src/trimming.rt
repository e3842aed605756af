//! Texts without the characters of a set at their ends.
ghost use Rattle.std.specs.Prelude.{◌≡◌, [], ◌∷◌, IfOk};
ghost use Rattle.std.specs.Str.{chars};
ghost use Rattle.xp_characters.specs.Characters.{over};
ghost use Rattle.xp_text.specs.Sets.{btrim as btrim_of, is_in as is_in_set, ltrim as ltrim_of, rtrim as rtrim_of};

use crate::owned::owned;
use std::alloc::Global;
use xp_base::{Memory, Txt};
use xp_characters::{first_character, last_character};

fn is_in(set: &str, c: char) -> bool
    ensures { result ≡ is_in_set (chars set.now) c }
{
    let mut rest = set;
    while let Some((first, others)) = first_character(rest) {
        if first == c {
            return true;
        }
        rest = others;
    }
    false
}

/// From the first character on that isn't in the set.
fn behind_first<'a>(a: &'a str, set: &str) -> &'a str
    ensures { chars result.now ≡ ltrim_of (chars set.now) (chars a.now) }
{
    let mut rest = a;
    while let Some((first, others)) = first_character(rest) {
        if !is_in(set, first) {
            return rest;
        }
        rest = others;
    }
    rest
}

/// Up to the last character that isn't in the set.
fn before_last<'a>(a: &'a str, set: &str) -> &'a str
    ensures { chars result.now ≡ rtrim_of (chars set.now) (chars a.now) }
{
    let mut rest = a;
    while let Some((others, last)) = last_character(rest) {
        if !is_in(set, last) {
            return rest;
        }
        rest = others;
    }
    rest
}

/// Without the set's characters at the start.
pub fn ltrim_set(alloc: Global, a: &str, set: &str) -> Result<Txt, Memory>
    ensures { IfOk result (λ text. text ≡ over (ltrim_of (chars set.now)) a.now) }
{
    owned(alloc, behind_first(a, set))
}

/// Without the set's characters at the end.
pub fn rtrim_set(alloc: Global, a: &str, set: &str) -> Result<Txt, Memory>
    ensures { IfOk result (λ text. text ≡ over (rtrim_of (chars set.now)) a.now) }
{
    owned(alloc, before_last(a, set))
}

/// Without the set's characters at both ends.
pub fn btrim_set(alloc: Global, a: &str, set: &str) -> Result<Txt, Memory>
    ensures { IfOk result (λ text. text ≡ over (btrim_of (chars set.now)) a.now) }
{
    owned(alloc, before_last(behind_first(a, set), set))
}

/// Without spaces at the start.
pub fn ltrim(alloc: Global, a: &str) -> Result<Txt, Memory>
    ensures { IfOk result (λ text. text ≡ over (ltrim_of (32 ∷ [])) a.now) }
{
    ltrim_set(alloc, a, " ")
}

/// Without spaces at the end.
pub fn rtrim(alloc: Global, a: &str) -> Result<Txt, Memory>
    ensures { IfOk result (λ text. text ≡ over (rtrim_of (32 ∷ [])) a.now) }
{
    rtrim_set(alloc, a, " ")
}

/// Without spaces at both ends.
pub fn btrim(alloc: Global, a: &str) -> Result<Txt, Memory>
    ensures { IfOk result (λ text. text ≡ over (btrim_of (32 ∷ [])) a.now) }
{
    btrim_set(alloc, a, " ")
}
