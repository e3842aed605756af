//! Numbers.
ghost use Rattle.std.specs.Prelude.{◌≡◌, ◌+◌, ◌*◌, ◌^◌, ◌<◌, ◌≤◌, min, length, slice_index, true};
ghost use Rattle.std.specs.Char.{digit_value, is_digit};
ghost use Rattle.xp_lexer.specs.inner.Cutting as spec;
ghost use Rattle.xp_lexer.specs.Meaning as meaning;
ghost use Rattle.xp_token.specs.Lexemes.{seen};

use crate::bytes::{byte, is_decimal};
use xp_base::{DIGIT_LIMIT, Dec};
use xp_token::TokenKind;

/// The least number of more than 38 digits, at which a value stands still.
const FULL: u128 = 100_000_000_000_000_000_000_000_000_000_000_000_000;

/// What stands behind the `e` of a number.
#[derive(Clone, Copy, Debug)]
pub enum Exponent {
    Absent,
    Up(u128),
    Down(u128),
}

fn is_digit_of(b: u8, base: u32) -> bool
    requires low { 2 ≤ base }
    requires high { base ≤ 16 }
    ensures { result ≡ is_digit b base }
{
    char::from(b).is_digit(base)
}

/// The value with one digit more.
fn extended(base: u32, value: u128, digit: u32) -> u128
    ensures { result ≡ spec.extended base value digit }
{
    value
        .saturating_mul(u128::from(base))
        .saturating_add(u128::from(digit))
        .min(FULL)
}

/// The value with the digits at the front behind it, how many these are, and the text behind them.
/// Each may have one underscore before it.
fn digits(base: u32, mut value: u128, mut z: &[u8]) -> (u128, usize, &[u8])
    requires low { 2 ≤ base }
    requires high { base ≤ 16 }
    requires capped { value ≤ 10 ^ 38 }
    ensures value { (result.0, result.1, result.2.now) ≡ spec.digits base value 0 z.entry.now }
    ensures capped { result.0 ≤ 10 ^ 38 }
    ensures within { length result.2.now + result.1 ≤ length z.entry.now }
{
    let mut count = 0;
    while let [b, tail @ ..] = z {
        if let Some(digit) = char::from(*b).to_digit(base) {
            value = extended(base, value, digit);
            count += 1;
        } else if *b != b'_' || !is_digit_of(byte(tail, 0), base) {
            break;
        }
        z = tail;
    }
    (value, count, z)
}

/// The decimal digits at the front, which begin with a digit.
#[tactic(auto, unfolding(crate::specs::inner::Cutting::decimals))]
fn decimals(value: u128, z: &[u8]) -> (u128, usize, &[u8])
    requires { value ≤ 10 ^ 38 }
    ensures value { (result.0, result.1, result.2.now) ≡ spec.decimals value z.now }
    ensures capped { result.0 ≤ 10 ^ 38 }
    ensures within { length result.2.now + result.1 ≤ length z.now }
{
    if is_decimal(byte(z, 0)) {
        digits(10, value, z)
    } else {
        (value, 0, z)
    }
}

/// The point at the front and the digits behind it.
#[tactic(auto, unfolding(crate::specs::inner::Cutting::fraction))]
fn fraction(value: u128, z: &[u8]) -> (u128, usize, &[u8])
    requires { value ≤ 10 ^ 38 }
    ensures value { (result.0, result.1, result.2.now) ≡ spec.fraction value z.now }
    ensures capped { result.0 ≤ 10 ^ 38 }
    ensures within { length result.2.now + result.1 ≤ length z.now }
{
    if byte(z, 0) == b'.' {
        decimals(value, &z[1..])
    } else {
        (value, 0, z)
    }
}

/// The sign at the front, whether it is a minus, and the text behind it.
#[tactic(auto, unfolding(crate::specs::inner::Cutting::sign))]
fn sign(z: &[u8]) -> (bool, &[u8])
    ensures value { (result.0, result.1.now) ≡ spec.sign z.now }
    ensures within { length result.1.now ≤ length z.now }
{
    let b = byte(z, 0);
    if b == b'+' || b == b'-' {
        (b == b'-', &z[1..])
    } else {
        (false, z)
    }
}

/// The exponent at the front.
#[tactic(auto, unfolding(crate::specs::inner::Cutting::exponent_at, crate::specs::inner::Cutting::exponent_digits))]
fn exponent_at(z: &[u8]) -> (Exponent, &[u8])
    ensures value { (result.0, result.1.now) ≡ spec.exponent_at z.now }
    ensures capped { spec.exponent_of result.0 ≤ 10 ^ 38 }
    ensures within { length result.1.now ≤ length z.now }
{
    let letter = byte(z, 0);
    if letter != b'e' && letter != b'E' {
        return (Exponent::Absent, z);
    }
    let (is_down, tail) = sign(&z[1..]);
    if !is_decimal(byte(tail, 0)) {
        return (Exponent::Absent, z);
    }
    let (value, _, rest) = digits(10, 0, tail);
    if is_down {
        (Exponent::Down(value), rest)
    } else {
        (Exponent::Up(value), rest)
    }
}

/// The value with zeros behind it.
#[tactic(auto, using(crate::proofs::Powers::raised_zero, crate::proofs::Powers::raised_full, crate::proofs::Powers::raised_some, crate::proofs::Powers::ten_fits), unfolding(crate::specs::inner::Cutting::raised))]
fn raised(value: u128, zeros: u128) -> u128
    requires { value ≤ 10 ^ 38 }
    ensures { result ≡ spec.raised value zeros }
{
    if value == 0 {
        return 0;
    }
    if zeros > u128::from(DIGIT_LIMIT) {
        return FULL;
    }
    value.saturating_mul(10u128.pow(zeros as u32)).min(FULL)
}

/// The coefficient and the scale of a value with so many decimals and this exponent.
fn shifted(value: u128, decimals: usize, exponent: Exponent) -> (u128, u128)
    requires value { value ≤ 10 ^ 38 }
    requires exponent { spec.exponent_of exponent ≤ 10 ^ 38 }
    ensures { (result.0, result.1) ≡ spec.shifted value decimals exponent }
{
    let decimals = decimals as u128;
    match exponent {
        Exponent::Absent => (value, decimals),
        Exponent::Down(by) => (value, decimals + by),
        Exponent::Up(by) => (
            raised(value, by.saturating_sub(decimals)),
            decimals.saturating_sub(by),
        ),
    }
}

/// The number, or Wide where it has too many digits or decimals.
#[tactic(auto, unfolding(crate::specs::Meaning::number_of))]
fn number_of(coefficient: u128, scale: u128, whole: bool) -> TokenKind
    ensures { seen result ≡ meaning.number_of coefficient scale whole }
{
    if coefficient < FULL && scale <= u128::from(DIGIT_LIMIT) {
        TokenKind::Number {
            value: Dec {
                neg: false,
                coef: coefficient,
                scale: scale as u8,
            },
            whole,
        }
    } else {
        TokenKind::Wide
    }
}

fn is_absent(exponent: Exponent) -> bool
    ensures { result ≡ meaning.is_absent exponent }
{
    matches!(exponent, Exponent::Absent)
}

/// The decimal number at the front, and the text behind it.
#[tactic(auto, unfolding(crate::specs::inner::Cutting::decimal, crate::specs::inner::Cutting::decimal_of))]
fn decimal(z: &[u8]) -> (TokenKind, &[u8])
    ensures value { (seen result.0, result.1.now) ≡ spec.decimal z.now }
    ensures within { length result.1.now ≤ length z.now }
{
    let (value, _, behind) = digits(10, 0, z);
    let (value, decimals, rest) = fraction(value, behind);
    let (exponent, rest) = exponent_at(rest);
    let (coefficient, scale) = shifted(value, decimals, exponent);
    let whole = byte(behind, 0) != b'.' && is_absent(exponent);
    (number_of(coefficient, scale, whole), rest)
}

/// The base that the letter behind a 0 names, or 10.
fn base_of(letter: u8) -> u32
    ensures value { result ≡ meaning.base_of letter }
    ensures low { 2 ≤ result }
    ensures high { result ≤ 16 }
{
    match letter {
        b'x' | b'X' => 16,
        b'o' | b'O' => 8,
        b'b' | b'B' => 2,
        _ => 10,
    }
}

/// The number at the front, and the text behind it.
#[tactic(auto, unfolding(crate::specs::inner::Cutting::number))]
pub fn number(z: &[u8]) -> (TokenKind, &[u8])
    ensures value { (seen result.0, result.1.now) ≡ spec.number z.now }
    ensures within { length result.1.now ≤ length z.now }
{
    let base = base_of(byte(z, 1));
    if byte(z, 0) == b'0' && base != 10 {
        let (value, count, rest) = digits(base, 0, &z[2..]);
        if count > 0 {
            return (number_of(value, 0, true), rest);
        }
    }
    decimal(z)
}
