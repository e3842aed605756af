//! Rounding to whole numbers, to decimals and to whole places.
ghost use Rattle.std.specs.Prelude.{◌≡◌, ◌+◌, ◌-◌, ◌*◌, ◌^◌, ◌<◌, ◌≤◌, pos, Ok};
ghost use Rattle.xp_numeric.specs.Numbers.{made as made_of, signed};
ghost use Rattle.xp_numeric.specs.Places.{ceiling, floor, rounded, to_places, truncated};
ghost use Rattle.xp_numeric.specs.inner.Dividing.{division};

use crate::making::{made, number, power};
use xp_base::{DIGIT_LIMIT, Dec, EvalError};

/// How a size is divided by a power of ten.
#[derive(Clone, Copy, Debug)]
pub enum Rounding {
    /// To the nearest, half upwards.
    Nearest,
    TowardZero,
}

/// The least whole number that isn't below.
pub fn ceil_numeric(a: Dec) -> Dec
    ensures { Ok result ≡ ceiling a }
{
    let unit = power(u32::from(a.scale));
    let size = if a.neg {
        a.coef / unit
    } else {
        a.coef.div_ceil(unit)
    };
    number(a.neg, size, 0)
}

/// The greatest whole number that isn't above.
pub fn floor_numeric(a: Dec) -> Dec
    ensures { Ok result ≡ floor a }
{
    let unit = power(u32::from(a.scale));
    let size = if a.neg {
        a.coef.div_ceil(unit)
    } else {
        a.coef / unit
    };
    number(a.neg, size, 0)
}

/// The size divided by a power of ten.
pub fn divided(size: u128, zeros: u32, rounding: Rounding) -> u128
    requires size { size < 10 ^ 38 }
    requires zeros { zeros ≤ 38 }
    ensures value { result ≡ division rounding size (10 ^ zeros) }
    ensures small { result ≤ size }
{
    let unit = power(zeros);
    match rounding {
        Rounding::Nearest => (2 * size + unit) / (2 * unit),
        Rounding::TowardZero => size / unit,
    }
}

/// With so many decimals.
fn with_decimals(a: Dec, decimals: u32, rounding: Rounding) -> Result<Dec, EvalError>
    ensures { result ≡ to_places (division rounding) (pos decimals) a }
{
    if decimals > u32::from(DIGIT_LIMIT) {
        return Err(EvalError::Limit);
    }
    let scale = u32::from(a.scale);
    let size = if decimals < scale {
        divided(a.coef, scale - decimals, rounding)
    } else {
        a.coef.saturating_mul(power(decimals - scale))
    };
    made(a.neg, size, decimals)
}

/// With so many zeros before the point.
fn with_zeros(a: Dec, zeros: u32, rounding: Rounding) -> Result<Dec, EvalError>
    requires { zeros < 2 ^ 32 - 38 }
    ensures { result ≡ made_of (signed a.neg (division rounding a.coef (10 ^ (a.scale + zeros)) * 10 ^ zeros)) 0 }
{
    let all = u32::from(a.scale) + zeros;
    if all > u32::from(DIGIT_LIMIT) {
        return Ok(number(false, 0, 0));
    }
    let size = divided(a.coef, all, rounding).saturating_mul(power(zeros));
    made(a.neg, size, 0)
}

fn with_places(a: Dec, places: i32, rounding: Rounding) -> Result<Dec, EvalError>
    ensures { result ≡ to_places (division rounding) places a }
{
    let count = places.unsigned_abs();
    if places < 0 {
        with_zeros(a, count, rounding)
    } else {
        with_decimals(a, count, rounding)
    }
}

/// Half away from zero.
pub fn round_numeric(a: Dec) -> Dec
    ensures { Ok result ≡ rounded (pos 0) a }
{
    number(
        a.neg,
        divided(a.coef, u32::from(a.scale), Rounding::Nearest),
        0,
    )
}

/// To so many decimals, or whole places where `places` is below 0, half away from zero.
pub fn round_numeric_int4(a: Dec, places: i32) -> Result<Dec, EvalError>
    ensures { result ≡ rounded places a }
{
    with_places(a, places, Rounding::Nearest)
}

/// Toward zero.
pub fn trunc_numeric(a: Dec) -> Dec
    ensures { Ok result ≡ truncated (pos 0) a }
{
    number(
        a.neg,
        divided(a.coef, u32::from(a.scale), Rounding::TowardZero),
        0,
    )
}

/// To so many decimals, or whole places where `places` is below 0, toward zero.
pub fn trunc_numeric_int4(a: Dec, places: i32) -> Result<Dec, EvalError>
    ensures { result ≡ truncated places a }
{
    with_places(a, places, Rounding::TowardZero)
}
