//! The number that a text is.
ghost use Rattle.std.specs.Prelude.{◌≡◌, ℕ, ◌*◌, ◌++◌, ◌<◌, ◌≤◌, ◌^◌, ◌⊎◌, min, pos, ◌-ℤ◌, IfSome, MatchOption, None, Some};
ghost use Rattle.std.specs.List.{after_first, before_first, position};
ghost use Rattle.std.specs.Str.Parse.{starts_with_minus, without_leading_sign};
ghost use Rattle.xp_numeric.specs.Numbers.{made as made_of, signed};
ghost use Rattle.xp_numeric.specs.Texts.{is_e, is_point, numeral, with_point};
ghost use Rattle.xp_numeric.specs.inner.Reading.{digits_from, exponent_from, exponent_in, number_from};

use crate::making::{FULL, made, power};
use xp_base::{DIGIT_LIMIT, Dec, EvalError};

/// What stands behind the `e` of a number; without one it is up by 0.
#[derive(Clone, Copy, Debug)]
pub struct Exponent {
    is_down: bool,
    by: u128,
}

/// Whether a minus stands first, and what stands behind the sign.
fn sign(z: &[u8]) -> (bool, &[u8])
    ensures minus { result.0 ≡ starts_with_minus z.now }
    ensures rest { result.1.now ≡ without_leading_sign z.now }
{
    match z {
        [b'-', rest @ ..] => (true, rest),
        [b'+', rest @ ..] => (false, rest),
        _ => (false, z),
    }
}

/// The value with the digits behind it, which stands still at the least number of 39 digits.
fn digits(mut value: u128, mut z: &[u8]) -> Option<u128>
    requires { value ≤ 10 ^ 38 }
    ensures value { result ≡ digits_from value z.entry.now }
    ensures capped { IfSome result (λ n. n ≤ 10 ^ 38) }
{
    while let [b, tail @ ..] = z {
        let Some(digit) = char::from(*b).to_digit(10) else {
            return None;
        };
        let longer = value.saturating_mul(10).saturating_add(u128::from(digit));
        value = longer.min(FULL);
        z = tail;
    }
    Some(value)
}

/// The number that the digits before and behind the point write, where there are some.
fn size(whole: &[u8], decimals: &[u8]) -> Option<u128>
    ensures value { result ≡ number_from (whole.now ++ decimals.now) }
    ensures capped { IfSome result (λ n. n ≤ 10 ^ 38) }
{
    if whole.len() + decimals.len() == 0 {
        return None;
    }
    let value = digits(0, whole)?;
    digits(value, decimals)
}

/// The exponent that stands behind an `e`.
fn read_exponent(z: &[u8]) -> Option<Exponent>
    ensures value { result ≡ exponent_from z.now }
    ensures capped { IfSome result (λ x. x.by ≤ 10 ^ 38) }
{
    let (is_down, rest) = sign(z);
    let by = size(rest, &[])?;
    Some(Exponent { is_down, by })
}

fn place_of_point(z: &[u8]) -> Option<usize>
    ensures { result ≡ position is_point z.now }
{
    z.iter().position(|b| *b == b'.')
}

fn place_of_e(z: &[u8]) -> Option<usize>
    ensures { result ≡ position is_e z.now }
{
    z.iter().position(|b| *b == b'e' || *b == b'E')
}

/// What stands before the first point, and behind it.
fn at_point(z: &[u8]) -> (&[u8], &[u8])
    ensures before { result.0.now ≡ before_first is_point z.now }
    ensures after { result.1.now ≡ after_first is_point z.now }
{
    match place_of_point(z) {
        Some(i) => (&z[..i], &z[i + 1..]),
        None => (z, &[]),
    }
}

/// What stands before the first `e`, and its exponent; None where that isn't one.
fn at_e(z: &[u8]) -> Option<(&[u8], Exponent)>
    ensures value { MatchOption result (exponent_in z.now ≡ None) (λ r. (r.0.now ≡ before_first is_e z.now) × (exponent_in z.now ≡ Some r.1)) }
    ensures capped { IfSome result (λ r. r.1.by ≤ 10 ^ 38) }
{
    match place_of_e(z) {
        Some(i) => {
            let exponent = read_exponent(&z[i + 1..])?;
            Some((&z[..i], exponent))
        }
        None => {
            let exponent = Exponent {
                is_down: false,
                by: 0,
            };
            Some((z, exponent))
        }
    }
}

/// The size with zeros behind it; it may stand still where it has more than 38 digits.
fn raised(size: u128, zeros: u128) -> u128
    requires { size ≤ 10 ^ 38 }
    ensures { (n m : ℕ) → size ≡ min n (10 ^ 38) → (zeros ≡ m) ⊎ ((38 < zeros) × (38 < m)) → min result (10 ^ 38) ≡ min (n * 10 ^ m) (10 ^ 38) }
{
    if size == 0 {
        return 0;
    }
    if zeros > u128::from(DIGIT_LIMIT) {
        return FULL;
    }
    size.saturating_mul(power(zeros as u32))
}

/// The number of so many units of decimal `scale`.
fn at_scale(neg: bool, size: u128, scale: u128) -> Result<Dec, EvalError>
    ensures { result ≡ made_of (signed neg size) scale }
{
    if scale > u128::from(DIGIT_LIMIT) {
        return Err(EvalError::Limit);
    }
    made(neg, size, scale as u32)
}

/// The number with so many decimals, less the exponent.
fn placed(neg: bool, size: u128, decimals: usize, exponent: Exponent) -> Result<Dec, EvalError>
    requires size { size ≤ 10 ^ 38 }
    requires exponent { exponent.by ≤ 10 ^ 38 }
    ensures { (n e : ℕ) → size ≡ min n (10 ^ 38) → exponent.by ≡ min e (10 ^ 38) → result ≡ with_point neg n (pos decimals -ℤ signed exponent.is_down e) }
{
    let decimals = decimals as u128;
    if exponent.is_down {
        at_scale(neg, size, decimals + exponent.by)
    } else if exponent.by <= decimals {
        at_scale(neg, size, decimals - exponent.by)
    } else {
        made(neg, raised(size, exponent.by - decimals), 0)
    }
}

/// The number that a text without white space at its ends is.
pub fn read_numeric(text: &[u8]) -> Result<Dec, EvalError>
    ensures { result ≡ numeral text.now }
{
    let (neg, rest) = sign(text);
    let Some((mantissa, exponent)) = at_e(rest) else {
        return Err(EvalError::BadText);
    };
    let (whole, decimals) = at_point(mantissa);
    match size(whole, decimals) {
        Some(size) => placed(neg, size, decimals.len(), exponent),
        None => Err(EvalError::BadText),
    }
}
