//! Numerics of a sign, a size and a scale.
ghost use Rattle.std.specs.Prelude.{◌≡◌, ◌^◌, ◌<◌, ◌≤◌, Ok};
ghost use Rattle.xp_numeric.specs.Numbers.{made, signed};

use xp_base::{DIGIT_LIMIT, Dec, EvalError};

/// The least size of more than 38 digits.
pub const FULL: u128 = 100_000_000_000_000_000_000_000_000_000_000_000_000;

/// The power of ten.
pub fn power(n: u32) -> u128
    requires { n ≤ 38 }
    ensures value { result ≡ 10 ^ n }
    ensures positive { 0 < result }
    ensures high { result ≤ 10 ^ 38 }
{
    10u128.pow(n)
}

/// The number of so many units of decimal `scale`.
pub fn number(neg: bool, size: u128, scale: u8) -> Dec
    requires digits { size < 10 ^ 38 }
    requires decimals { scale ≤ 38 }
    ensures { Ok result ≡ made (signed neg size) scale }
{
    Dec {
        neg: neg && size > 0,
        coef: size,
        scale,
    }
}

/// The number of so many units of decimal `scale`, or Limit where it has too many digits or decimals.
pub fn made(neg: bool, size: u128, scale: u32) -> Result<Dec, EvalError>
    ensures { result ≡ made (signed neg size) scale }
{
    if size >= FULL || scale > DIGIT_LIMIT as u32 {
        return Err(EvalError::Limit);
    }
    Ok(number(neg, size, scale as u8))
}
