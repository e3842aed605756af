//! Unquoted names and reserved words.
ghost use Rattle.std.specs.Prelude.{◌≡◌, ◌<◌, ◌≤◌, length, take, slice_index, true, string_bytes, IfOk};
ghost use Rattle.std.specs.Str.{str_to_ascii_lowercase, IsAscii};
ghost use Rattle.xp_lexer.specs.inner.Cutting as spec;
ghost use Rattle.xp_token.specs.Lexemes.{seen};

use crate::bytes::is_name_byte;
use crate::scan_error::ScanError;
use std::alloc::Global;
use std::str;
use xp_base::Name;
use xp_token::{TokenKind, word_named};

/// How many bytes of a name stand at the front.
fn name_len(z: &[u8]) -> usize
    ensures value { result ≡ spec.name_len z.now }
    ensures within { result ≤ length z.now }
{
    for (at, b) in z.iter().enumerate() {
        if !is_name_byte(*b) {
            return at;
        }
    }
    z.len()
}

/// The bytes as a text.
pub fn ascii(bytes: &[u8]) -> &str
    requires { IsAscii bytes.now }
    ensures { result.now ≡ bytes.now }
{
    match str::from_utf8(bytes) {
        Ok(text) => text,
        Err(_) => unreachable!(),
    }
}

/// The name or reserved word at the front, and the text behind it.
#[tactic(auto, unfolding(crate::specs::inner::Cutting::name))]
pub fn name(alloc: Global, z: &[u8]) -> Result<(TokenKind, &[u8]), ScanError>
    ensures value { spec.Gives (λ x. (seen x.0, x.1.now)) result (spec.name z.now) }
{
    let (front, rest) = z.split_at(name_len(z));
    let folded = ascii(front).to_ascii_lowercase(alloc)?;
    Ok((
        match word_named(folded.as_str()) {
            Some(word) => TokenKind::Word(word),
            None => TokenKind::Name(Name::from_string(folded)),
        },
        rest,
    ))
}
