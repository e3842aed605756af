//! Operators.
ghost use Rattle.std.specs.Prelude.{◌≡◌, ◌+◌, ◌<◌, ◌≤◌, max, length, take, drop, slice_index, true, false};
ghost use Rattle.std.specs.Str.{IsAscii};
ghost use Rattle.xp_base.specs.Operators.{is_operator_byte};
ghost use Rattle.xp_lexer.specs.Bytes.{first};
ghost use Rattle.xp_lexer.specs.inner.Cutting as spec;
ghost use Rattle.xp_lexer.specs.Meaning as meaning;
ghost use Rattle.xp_token.specs.Lexemes.{seen};

use crate::bytes::{byte, opens_comment};
use crate::names::ascii;
use crate::scan_error::ScanError;
use std::alloc::Global;
use xp_base::{Name, is_operator_byte, is_sign, is_special_byte};
use xp_token::TokenKind;

/// An operator goes on with this byte, before that one.
fn goes_on(b: u8, next: u8) -> bool
    ensures { result ≡ meaning.goes_on b next }
{
    is_operator_byte(b) && !opens_comment(b, next)
}

/// How long the operator at the front is.
fn operator_len(mut z: &[u8]) -> usize
    ensures value { result ≡ spec.operator_len 0 1 false z.entry.now }
    ensures some { 1 ≤ result }
    ensures within { result ≤ max 1 (length z.entry.now) }
{
    let mut len = 0;
    let mut kept = 1;
    let mut has_special = false;
    while let [b, tail @ ..] = z {
        if !goes_on(*b, byte(tail, 0)) {
            break;
        }
        len += 1;
        if !is_sign(*b) {
            kept = len;
        }
        has_special = has_special || is_special_byte(*b);
        z = tail;
    }
    if has_special { len } else { kept }
}

/// The operator as it is read.
#[tactic(auto, unfolding(crate::specs::Meaning::spelled))]
fn spelled(operator: &str) -> &str
    ensures { result.now ≡ meaning.spelled operator.now }
{
    if operator == "!=" { "<>" } else { operator }
}

/// The operator at the front, of this length, and the text behind it.
#[tactic(auto, unfolding(crate::specs::inner::Cutting::cut))]
fn cut(alloc: Global, len: usize, z: &[u8]) -> Result<(TokenKind, &[u8]), ScanError>
    requires within { len ≤ length z.now }
    requires ascii { IsAscii (take len z.now) }
    ensures value { spec.Gives (λ x. (seen x.0, x.1.now)) result (spec.cut len z.now) }
{
    let (front, rest) = z.split_at(len);
    let name = Name::from_str(alloc, spelled(ascii(front)))?;
    Ok((TokenKind::Operator(name), rest))
}

/// The operator at the front. Where it stands `alone`, it is one sign behind an operator.
#[tactic(auto, using(crate::proofs::Ascii::operator_ascii, crate::proofs::Ascii::operator_one_ascii), unfolding(crate::specs::inner::Cutting::operator))]
pub fn operator(alloc: Global, alone: bool, z: &[u8]) -> Result<(TokenKind, &[u8]), ScanError>
    requires { is_operator_byte (first z.now) ≡ true }
    ensures { spec.Gives (λ x. (seen x.0, x.1.now)) result (spec.operator alone z.now) }
{
    let len = if alone { 1 } else { operator_len(z) };
    cut(alloc, len, z)
}
