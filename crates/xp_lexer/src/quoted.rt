//! String constants and quoted names.
ghost use Rattle.std.specs.Prelude.{◌≡◌, ◌+◌, ◌<◌, ◌≤◌, ◌^◌, length, take, drop, slice_index, true, false, IfSome, IfOk, string_bytes};
ghost use Rattle.std.specs.Str.{IsUtf8};
ghost use Rattle.xp_lexer.specs.inner.Cutting as spec;
ghost use Rattle.xp_lexer.specs.Meaning as meaning;
ghost use Rattle.xp_token.specs.Lexemes.{seen};

use crate::bytes::byte;
use crate::scan_error::ScanError;
use crate::space::continued;
use std::alloc::Global;
use std::str;
use xp_base::{Name, Txt};
use xp_token::TokenKind;

/// How many bytes stand before the quote that ends what is quoted.
fn raw_len(quote: u8, mut z: &[u8]) -> Option<usize>
    ensures value { result ≡ spec.raw_len quote false 0 z.entry.now }
    ensures within { IfSome result (λ len. len < length z.entry.now) }
{
    let mut len = 0;
    let mut is_second = false;
    while let [b, tail @ ..] = z {
        if is_second {
            is_second = false;
        } else if *b == quote {
            if byte(tail, 0) != quote {
                return Some(len);
            }
            is_second = true;
        }
        len += 1;
        z = tail;
    }
    None
}

/// How many bytes stand before the first zero byte.
fn nonzero_len(raw: &[u8]) -> usize
    ensures value { result ≡ meaning.nonzero_len raw.now }
    ensures within { result ≤ length raw.now }
{
    for (at, b) in raw.iter().enumerate() {
        if *b == 0 {
            return at;
        }
    }
    raw.len()
}

/// How many bytes at the front are whole characters other than a zero byte.
fn clean_len(raw: &[u8]) -> usize
    ensures value { result ≡ meaning.clean_len raw.now }
    ensures within { result ≤ length raw.now }
    ensures clean { result ≡ length raw.now → IsUtf8 raw.now }
{
    let len = nonzero_len(raw);
    let front = &raw[..len];
    match str::from_utf8(front) {
        Ok(_) => len,
        Err(e) => e.valid_up_to(),
    }
}

/// The text with each doubled quote as one.
fn undoubled(alloc: Global, quote: u8, raw: &[u8]) -> Result<String, ScanError>
    requires text { IsUtf8 raw.now }
    requires quote { quote < 128 }
    ensures { spec.Gives string_bytes result (spec.contents quote raw.now) }
{
    let mut bytes = Vec::new(alloc);
    let mut is_second = false;
    for b in raw {
        if is_second && *b == quote {
            is_second = false;
        } else {
            bytes.push(*b)?;
            is_second = *b == quote;
        }
    }
    match String::from_utf8(bytes) {
        Ok(text) => Ok(text),
        Err(_) => unreachable!(),
    }
}

/// What is quoted, behind the opening quote, and the text behind the closing one.
#[tactic(auto, unfolding(crate::specs::inner::Cutting::part))]
fn part(alloc: Global, quote: u8, z: &[u8]) -> Result<(String, &[u8]), ScanError>
    requires quote { quote < 128 }
    requires fits { length z.now < 2 ^ 63 }
    ensures value { spec.Gives (λ x. (string_bytes x.0, x.1.now)) result (spec.part quote z.now) }
    ensures within { IfOk result (λ x. length x.1.now < length z.now) }
{
    let Some(len) = raw_len(quote, z) else {
        return Err(ScanError::Unclosed { left: z.len() + 1 });
    };
    let raw = &z[..len];
    let clean = clean_len(raw);
    if clean < len {
        return Err(ScanError::BadByte {
            left: z.len() - clean,
        });
    }
    let text = undoubled(alloc, quote, raw)?;
    Ok((text, &z[len + 1..]))
}

/// The text with all parts of the constant that follow.
#[tactic(auto, using(crate::proofs::Parts::all_parts_end, crate::proofs::Parts::all_parts_more))]
fn all_parts(alloc: Global, mut text: String, mut z: &[u8]) -> Result<(String, &[u8]), ScanError>
    requires { length z.now < 2 ^ 63 }
    ensures value { spec.Gives (λ x. (string_bytes x.0, x.1.now)) result (spec.all_parts (string_bytes text) z.entry.now) }
    ensures within { IfOk result (λ x. length x.1.now ≤ length z.entry.now) }
{
    while let Some(next) = continued(z) {
        let (more, rest) = part(alloc, b'\'', &next[1..])?;
        text.push_str(more.as_str())?;
        z = rest;
    }
    Ok((text, z))
}

/// The string constant behind this opening quote, and the text behind it.
#[tactic(auto, unfolding(crate::specs::inner::Cutting::string))]
pub fn string(alloc: Global, z: &[u8]) -> Result<(TokenKind, &[u8]), ScanError>
    requires { length z.now < 2 ^ 63 }
    ensures value { spec.Gives (λ x. (seen x.0, x.1.now)) result (spec.string z.now) }
    ensures within { IfOk result (λ x. length x.1.now < length z.now) }
{
    let (text, rest) = part(alloc, b'\'', z)?;
    let (text, rest) = all_parts(alloc, text, rest)?;
    Ok((TokenKind::Str(Txt::from_string(text)), rest))
}

/// The quoted name behind this opening quote, and the text behind it.
#[tactic(auto, unfolding(crate::specs::inner::Cutting::quoted_name))]
pub fn quoted_name(alloc: Global, z: &[u8]) -> Result<(TokenKind, &[u8]), ScanError>
    requires { length z.now < 2 ^ 63 }
    ensures value { spec.Gives (λ x. (seen x.0, x.1.now)) result (spec.quoted_name z.now) }
    ensures within { IfOk result (λ x. length x.1.now < length z.now) }
{
    let (text, rest) = part(alloc, b'"', z)?;
    if text.is_empty() {
        return Err(ScanError::BadByte { left: z.len() + 1 });
    }
    Ok((TokenKind::Quoted(Name::from_string(text)), rest))
}
