//! One piece of a statement: white space, a comment, a token, or the end.
ghost use Rattle.std.specs.Prelude.{◌≡◌, ◌<◌, ◌≤◌, ◌^◌, length, option_map, true, IfOk, IsSome, Some, false};
ghost use Rattle.xp_lexer.specs.Bytes.{first, begins_name};
ghost use Rattle.xp_lexer.specs.inner.Cutting as spec;
ghost use Rattle.xp_lexer.specs.Meaning as meaning;
ghost use Rattle.xp_token.specs.Lexemes.{seen};

use crate::bytes::{begins_name, byte, is_decimal, is_space, opens_comment};
use crate::names::name;
use crate::numbers::number;
use crate::operators::operator;
use crate::quoted::{quoted_name, string};
use crate::scan_error::ScanError;
use crate::space::{comment_rest, line_rest};
use std::alloc::Global;
use xp_base::is_operator_byte;
use xp_token::{Mark, TokenKind};

/// A letter before a quote, or `u&` before one, for which no constant stands.
#[tactic(auto, unfolding(crate::specs::Meaning::is_prefix))]
fn is_prefix(z: &[u8]) -> bool
    ensures { result ≡ meaning.is_prefix z.now }
{
    let b = byte(z, 0).to_ascii_lowercase();
    let next = byte(z, 1);
    let is_letter = b == b'b' || b == b'e' || b == b'n' || b == b'x';
    (is_letter && next == b'\'')
        || (b == b'u' && next == b'&' && (byte(z, 2) == b'\'' || byte(z, 2) == b'"'))
}

/// The mark at the front.
#[tactic(auto, unfolding(crate::specs::inner::Cutting::mark_at))]
fn mark_at(z: &[u8]) -> Result<(TokenKind, &[u8]), ScanError>
    requires { 0 < length z.now }
    ensures { spec.Gives (λ x. (seen x.0, x.1.now)) result (spec.mark_at z.now) }
{
    let mark = match z[0] {
        b'(' => Mark::OpenParen,
        b')' => Mark::CloseParen,
        b'[' => Mark::OpenBracket,
        b']' => Mark::CloseBracket,
        b',' => Mark::Comma,
        b'.' => Mark::Point,
        b':' if byte(z, 1) == b':' => return Ok((TokenKind::Mark(Mark::DoubleColon), &z[2..])),
        _ => return Err(ScanError::BadByte { left: z.len() }),
    };
    Ok((TokenKind::Mark(mark), &z[1..]))
}

fn begins_number(z: &[u8]) -> bool
    ensures { result ≡ meaning.begins_number z.now }
{
    is_decimal(byte(z, 0)) || (byte(z, 0) == b'.' && is_decimal(byte(z, 1)))
}

/// The name or reserved word at the front.
#[tactic(auto, unfolding(crate::specs::inner::Cutting::word))]
fn word(alloc: Global, z: &[u8]) -> Result<(TokenKind, &[u8]), ScanError>
    requires { begins_name (first z.now) ≡ true }
    ensures { spec.Gives (λ x. (seen x.0, x.1.now)) result (spec.word z.now) }
{
    if is_prefix(z) {
        return Err(ScanError::BadByte { left: z.len() });
    }
    name(alloc, z)
}

/// The token at the front.
#[tactic(auto, unfolding(crate::specs::inner::Cutting::token))]
fn token(alloc: Global, alone: bool, z: &[u8]) -> Result<(TokenKind, &[u8]), ScanError>
    requires some { 0 < length z.now }
    requires fits { length z.now < 2 ^ 63 }
    ensures { spec.Gives (λ x. (seen x.0, x.1.now)) result (spec.token alone z.now) }
{
    let b = byte(z, 0);
    if b == b'\'' {
        string(alloc, &z[1..])
    } else if b == b'"' {
        quoted_name(alloc, &z[1..])
    } else if begins_number(z) {
        Ok(number(z))
    } else if begins_name(b) {
        word(alloc, z)
    } else if is_operator_byte(b) {
        operator(alloc, alone, z)
    } else {
        mark_at(z)
    }
}

/// The text behind the comment at the front.
#[tactic(auto, unfolding(crate::specs::inner::Cutting::comment))]
fn comment(z: &[u8]) -> Result<&[u8], ScanError>
    requires some { 1 < length z.now }
    requires fits { length z.now < 2 ^ 63 }
    ensures { spec.Gives (λ rest. rest.now) result (spec.comment z.now) }
{
    if byte(z, 0) == b'-' {
        return Ok(line_rest(z));
    }
    match comment_rest(&z[2..]) {
        Some(rest) => Ok(rest),
        None => Err(ScanError::Unclosed { left: z.len() }),
    }
}

/// The piece at the front, and the text behind it: a token, or no token for white space or a
/// comment. Behind an operator a sign stands `alone`.
#[tactic(auto, unfolding(crate::specs::inner::Cutting::scan_next))]
pub fn scan_next(
    alloc: Global,
    alone: bool,
    z: &[u8],
) -> Result<(Option<TokenKind>, &[u8]), ScanError>
    requires { length z.now < 2 ^ 63 }
    ensures { spec.Gives (λ x. (option_map seen x.0, x.1.now)) result (spec.scan_next alone z.now) }
{
    if z.is_empty() {
        return Ok((Some(TokenKind::End), z));
    }
    let b = byte(z, 0);
    if is_space(b) {
        return Ok((None, &z[1..]));
    }
    if opens_comment(b, byte(z, 1)) {
        return Ok((None, comment(z)?));
    }
    if b == b';' {
        return Ok((Some(TokenKind::End), &z[1..]));
    }
    let (kind, rest) = token(alloc, alone, z)?;
    Ok((Some(kind), rest))
}
