//! Quotients and remainders.
ghost use Rattle.std.specs.Prelude.{◌≡◌, ℕ, ◌+◌, ◌-◌, ◌*◌, ◌/◌, ◌%◌, ◌^◌, ◌<◌, ◌≤◌, max, min};
ghost use Rattle.xp_numeric.specs.Arithmetic.{quotient, remainder, whole_quotient};
ghost use Rattle.xp_numeric.specs.Quotients.{nearest};

use crate::making::{made, power};
use crate::sums::aligned;
use crate::weights::quotient_scale;
use crate::wide::product_over;
use xp_base::{Dec, EvalError};

/// The quotient and the rest of a number times a power of ten, from those of the number. A quotient
/// stands still at the greatest u128.
fn continued(quotient: u128, rest: u128, zeros: u32, divisor: u128) -> (u128, u128)
    requires zeros { zeros ≤ 38 }
    requires rest { rest < divisor }
    requires divisor { divisor < 10 ^ 38 }
    ensures quotient { (n : ℕ) → quotient ≡ min (n / divisor) (2 ^ 128 - 1) → rest ≡ n % divisor → result.0 ≡ min (n * 10 ^ zeros / divisor) (2 ^ 128 - 1) }
    ensures rest { (n : ℕ) → rest ≡ n % divisor → result.1 ≡ (n * 10 ^ zeros) % divisor }
    ensures below { result.1 < divisor }
{
    let factor = power(zeros);
    let (more, left) = product_over(rest, factor, divisor);
    (quotient.saturating_mul(factor).saturating_add(more), left)
}

/// The quotient and the rest of a size times a power of ten. The quotient stands still at the
/// greatest u128.
fn raised_over(size: u128, zeros: u32, divisor: u128) -> (u128, u128)
    requires zeros { zeros ≤ 76 }
    requires positive { 0 < divisor }
    requires divisor { divisor < 10 ^ 38 }
    ensures quotient { result.0 ≡ min (size * 10 ^ zeros / divisor) (2 ^ 128 - 1) }
    ensures rest { result.1 ≡ (size * 10 ^ zeros) % divisor }
    ensures below { result.1 < divisor }
{
    let first = zeros.min(38);
    let (quotient, rest) = continued(size / divisor, size % divisor, first, divisor);
    continued(quotient, rest, zeros - first, divisor)
}

/// The quotient of a size times a power of ten, rounded to the nearest, half upwards.
fn rounded_over(size: u128, zeros: u32, divisor: u128) -> u128
    requires zeros { zeros ≤ 76 }
    requires positive { 0 < divisor }
    requires divisor { divisor < 10 ^ 38 }
    ensures { result ≡ min (nearest (size * 10 ^ zeros) divisor) (2 ^ 128 - 1) }
{
    let (quotient, rest) = raised_over(size, zeros, divisor);
    if rest >= divisor - rest {
        quotient.saturating_add(1)
    } else {
        quotient
    }
}

/// The size of the quotient toward zero, which stands still at the greatest u128.
fn whole_size(a: Dec, b: Dec) -> u128
    requires { 0 < b.coef }
    ensures { let s = max a.scale b.scale in
        result ≡ min (a.coef * 10 ^ (s - a.scale) / (b.coef * 10 ^ (s - b.scale))) (2 ^ 128 - 1) }
{
    if a.scale < b.scale {
        raised_over(a.coef, u32::from(b.scale - a.scale), b.coef).0
    } else {
        a.coef / aligned(b, a.scale)
    }
}

/// The size of the remainder.
fn rest_size(a: Dec, b: Dec) -> u128
    requires { 0 < b.coef }
    ensures { let s = max a.scale b.scale in
        result ≡ (a.coef * 10 ^ (s - a.scale)) % (b.coef * 10 ^ (s - b.scale)) }
{
    if a.scale < b.scale {
        raised_over(a.coef, u32::from(b.scale - a.scale), b.coef).1
    } else {
        a.coef % aligned(b, a.scale)
    }
}

/// Rounded half away from zero, to the decimals that `quotient_scale` tells.
pub fn div_numeric(a: Dec, b: Dec) -> Result<Dec, EvalError>
    ensures { result ≡ quotient a b }
{
    if b.coef == 0 {
        return Err(EvalError::DivisionByZero);
    }
    let scale = quotient_scale(a, b);
    let zeros = scale + b.scale as u32 - a.scale as u32;
    made(a.neg != b.neg, rounded_over(a.coef, zeros, b.coef), scale)
}

/// With the dividend's sign.
pub fn mod_numeric(a: Dec, b: Dec) -> Result<Dec, EvalError>
    ensures { result ≡ remainder a b }
{
    if b.coef == 0 {
        return Err(EvalError::DivisionByZero);
    }
    made(a.neg, rest_size(a, b), u32::from(a.scale.max(b.scale)))
}

/// The whole part of the quotient.
pub fn intdiv_numeric(a: Dec, b: Dec) -> Result<Dec, EvalError>
    ensures { result ≡ whole_quotient a b }
{
    if b.coef == 0 {
        return Err(EvalError::DivisionByZero);
    }
    made(a.neg != b.neg, whole_size(a, b), 0)
}
