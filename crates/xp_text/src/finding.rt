//! Texts within texts.
ghost use Rattle.std.specs.Prelude.{◌≡◌, ◌∷◌, [], ◌++◌, ◌+◌, ◌<◌, ◌≤◌, ◌==◌, IfSome, MatchOption, None, Some, length};
ghost use Rattle.std.specs.List.{starts_with as begins_with};
ghost use Rattle.std.specs.Str.{chars};
ghost use Rattle.xp_characters.specs.Search.{first_at, strpos as strpos_of};

use crate::measures::length_text;

/// What stands before and behind the first occurrence of a text in another.
pub fn around<'a>(a: &'a str, part: &str) -> Option<(&'a str, &'a str)>
    ensures place { MatchOption result (first_at (chars a.now) (chars part.now) ≡ None) (λ r. first_at (chars a.now) (chars part.now) ≡ Some (length (chars r.0.now))) }
    ensures characters { IfSome result (λ r. chars a.now ≡ chars r.0.now ++ (chars part.now ++ chars r.1.now)) }
    ensures bytes { IfSome result (λ r. a.now ≡ r.0.now ++ (part.now ++ r.1.now)) }
{
    match a.split_once(part) {
        Some((front, back)) => Some((front, back)),
        None => None,
    }
}

/// The place of the first occurrence, which counts from 1; 0 where there is none.
pub fn strpos_text(a: &str, part: &str) -> usize
    ensures value { result ≡ strpos_of (chars a.now) (chars part.now) }
    ensures bound { result ≤ length a.now + 1 }
{
    match around(a, part) {
        Some((front, _)) => length_text(front) + 1,
        None => 0,
    }
}

/// Whether a text begins with another; so do their characters where their bytes do.
pub fn starts_with(a: &str, part: &str) -> bool
    ensures { result ≡ begins_with (λ x y. x == y) a.now part.now }
{
    a.starts_with(part)
}
