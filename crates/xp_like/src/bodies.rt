//! The operators LIKE and ILIKE, and their negations.
ghost use Rattle.std.specs.Prelude.{◌≡◌, map};
ghost use Rattle.std.specs.Char.{to_ascii_lowercase};
ghost use Rattle.std.specs.Str.{chars};
ghost use Rattle.xp_like.specs.Patterns.{ilike as ilike_so, like as like_so, negated as negated_so};

use crate::matching::matches;
use crate::parts::ends_in_escape;
use crate::units::{Characters, Folded, Octets, Units};
use xp_base::EvalError;

fn like<U: Units>(text: U, pattern: U) -> Result<bool, EvalError>
    ensures { result ≡ like_so (U.units text) (U.units pattern) }
{
    if ends_in_escape(pattern) {
        return Err(EvalError::BadEscape);
    }
    Ok(matches(pattern, text))
}

fn negated(answer: Result<bool, EvalError>) -> Result<bool, EvalError>
    ensures { result ≡ negated_so answer }
{
    match answer {
        Ok(holds) => Ok(!holds),
        Err(error) => Err(error),
    }
}

/// Whether the characters are like the pattern.
pub fn like_text(a: &str, pattern: &str) -> Result<bool, EvalError>
    ensures { result ≡ like_so (chars a.now) (chars pattern.now) }
{
    like(Characters { rest: a }, Characters { rest: pattern })
}

/// Whether they aren't.
pub fn nlike_text(a: &str, pattern: &str) -> Result<bool, EvalError>
    ensures { result ≡ negated_so (like_so (chars a.now) (chars pattern.now)) }
{
    negated(like_text(a, pattern))
}

/// Whether the characters are like the pattern, in any case of ASCII letters.
pub fn ilike_text(a: &str, pattern: &str) -> Result<bool, EvalError>
    ensures { result ≡ ilike_so (chars a.now) (chars pattern.now) }
{
    like(Folded { rest: a }, Folded { rest: pattern })
}

/// Whether they aren't.
pub fn nilike_text(a: &str, pattern: &str) -> Result<bool, EvalError>
    ensures { result ≡ negated_so (ilike_so (chars a.now) (chars pattern.now)) }
{
    negated(ilike_text(a, pattern))
}

/// Of a padded text with its padding.
pub fn like_bpchar(a: &str, pattern: &str) -> Result<bool, EvalError>
    ensures { result ≡ like_so (chars a.now) (chars pattern.now) }
{
    like_text(a, pattern)
}

/// Of a padded text with its padding.
pub fn nlike_bpchar(a: &str, pattern: &str) -> Result<bool, EvalError>
    ensures { result ≡ negated_so (like_so (chars a.now) (chars pattern.now)) }
{
    negated(like_bpchar(a, pattern))
}

/// Of a padded text with its padding.
pub fn ilike_bpchar(a: &str, pattern: &str) -> Result<bool, EvalError>
    ensures { result ≡ ilike_so (chars a.now) (chars pattern.now) }
{
    ilike_text(a, pattern)
}

/// Of a padded text with its padding.
pub fn nilike_bpchar(a: &str, pattern: &str) -> Result<bool, EvalError>
    ensures { result ≡ negated_so (ilike_so (chars a.now) (chars pattern.now)) }
{
    negated(ilike_bpchar(a, pattern))
}

/// Whether the bytes are like the pattern.
pub fn like_bytea(a: &[u8], pattern: &[u8]) -> Result<bool, EvalError>
    ensures { result ≡ like_so a.now pattern.now }
{
    like(Octets { rest: a }, Octets { rest: pattern })
}

/// Whether they aren't.
pub fn nlike_bytea(a: &[u8], pattern: &[u8]) -> Result<bool, EvalError>
    ensures { result ≡ negated_so (like_so a.now pattern.now) }
{
    negated(like_bytea(a, pattern))
}
