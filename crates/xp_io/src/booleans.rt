//! The text form of booleans (manual 8.6).
ghost use Rattle.std.specs.Prelude.{◌≡◌};
ghost use Rattle.xp_io.specs.Booleans.{input_bool, is_front, output_bool, spells_false, spells_true, truth_of};

use crate::space::trimmed;
use xp_base::EvalError;

/// Whether the word, in any case, is a front of the name with so many letters at least.
fn is_front(least: usize, name: &[u8], word: &[u8]) -> bool
    ensures { result ≡ is_front least name.now word.now }
{
    least <= word.len() && word.len() <= name.len() && name[..word.len()].eq_ignore_ascii_case(word)
}

fn spells_true(word: &[u8]) -> bool
    ensures { result ≡ spells_true word.now }
{
    is_front(1, b"true", word)
        || is_front(1, b"yes", word)
        || is_front(2, b"on", word)
        || is_front(1, b"1", word)
}

fn spells_false(word: &[u8]) -> bool
    ensures { result ≡ spells_false word.now }
{
    is_front(1, b"false", word)
        || is_front(1, b"no", word)
        || is_front(2, b"off", word)
        || is_front(1, b"0", word)
}

/// The boolean that the text is.
pub fn input_bool(text: &[u8]) -> Result<bool, EvalError>
    ensures { result ≡ input_bool text.now }
{
    let word = trimmed(text);
    if spells_true(word) {
        Ok(true)
    } else if spells_false(word) {
        Ok(false)
    } else {
        Err(EvalError::BadText)
    }
}

/// The text of a boolean.
pub fn output_bool(truth: bool) -> &'static str
    ensures { result.now ≡ output_bool truth }
{
    if truth { "t" } else { "f" }
}
