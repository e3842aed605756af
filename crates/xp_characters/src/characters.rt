//! The characters of a text, one after another.
ghost use Rattle.std.specs.Prelude.{◌≡◌, [], ◌∷◌, ◌++◌, ◌-◌, ◌<◌, ◌≤◌, MatchOption, IfSome, drop, length, take};
ghost use Rattle.std.specs.Char.{encode_utf8};
ghost use Rattle.std.specs.Str.{chars, encode_utf8_all};

/// The first character, and what stands behind it.
pub fn first_character(text: &str) -> Option<(char, &str)>
    ensures cases { MatchOption result (chars text.now ≡ []) (λ r. chars text.now ≡ r.0 ∷ chars r.1.now) }
    ensures bytes { MatchOption result (text.now ≡ []) (λ r. text.now ≡ encode_utf8 r.0 ++ r.1.now) }
    ensures shorter { IfSome result (λ r. length r.1.now < length text.now) }
{
    let mut rest = text.chars();
    let first = rest.next()?;
    Some((first, rest.as_str()))
}

/// The last character, behind what stands before it.
pub fn last_character(text: &str) -> Option<(&str, char)>
    ensures cases { MatchOption result (chars text.now ≡ []) (λ r. chars text.now ≡ chars r.0.now ++ r.1 ∷ []) }
    ensures bytes { MatchOption result (text.now ≡ []) (λ r. text.now ≡ r.0.now ++ encode_utf8 r.1) }
    ensures shorter { IfSome result (λ r. length r.0.now < length text.now) }
{
    let mut rest = text.chars();
    match rest.next_back() {
        Some(last) => Some((rest.as_str(), last)),
        None => None,
    }
}

/// What stands behind so many characters.
fn behind(text: &str, count: usize) -> &str
    ensures value { chars result.now ≡ drop count (chars text.now) }
    ensures end { text.now ≡ take (length text.now - length result.now) text.now ++ result.now }
    ensures shorter { length result.now ≤ length text.now }
{
    let mut back = text;
    for _ in 0..count {
        let Some((_, rest)) = first_character(back) else {
            return back;
        };
        back = rest;
    }
    back
}

/// The first characters, as many as are asked for, and those behind them.
pub fn split_characters(text: &str, count: usize) -> (&str, &str)
    ensures front { chars result.0.now ≡ take count (chars text.now) }
    ensures back { chars result.1.now ≡ drop count (chars text.now) }
    ensures bytes { result.0.now ≡ encode_utf8_all (take count (chars text.now)) }
    ensures whole { text.now ≡ result.0.now ++ result.1.now }
{
    let back = behind(text, count);
    text.split_at(text.len() - back.len())
}
