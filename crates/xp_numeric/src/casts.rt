//! Casts from and to the integer types.
ghost use Rattle.std.specs.Prelude.{◌≡◌, ◌^◌, Ok};
ghost use Rattle.xp_numeric.specs.Numbers.{made, signed};
ghost use Rattle.xp_numeric.specs.Places.{as_int};
ghost use Rattle.xp_numeric.specs.Quotients.{nearest};

use crate::making::number;
use crate::places::{Rounding, divided};
use xp_base::{Dec, EvalError};

/// An int2, an int4 or an int8 as a numeric.
pub fn numeric(a: i64) -> Dec
    ensures { Ok result ≡ made a 0 }
{
    number(a < 0, u128::from(a.unsigned_abs()), 0)
}

/// The nearest whole number, half away from zero.
fn nearest_int(a: Dec) -> i128
    ensures { result ≡ signed a.neg (nearest a.coef (10 ^ a.scale)) }
{
    let size = divided(a.coef, u32::from(a.scale), Rounding::Nearest) as i128;
    if a.neg { -size } else { size }
}

/// Rounded.
pub fn int2_numeric(a: Dec) -> Result<i16, EvalError>
    ensures { result ≡ as_int 16 a }
{
    i16::try_from(nearest_int(a)).map_err(|_| EvalError::OutOfRange)
}

/// Rounded.
pub fn int4_numeric(a: Dec) -> Result<i32, EvalError>
    ensures { result ≡ as_int 32 a }
{
    i32::try_from(nearest_int(a)).map_err(|_| EvalError::OutOfRange)
}

/// Rounded.
pub fn int8_numeric(a: Dec) -> Result<i64, EvalError>
    ensures { result ≡ as_int 64 a }
{
    i64::try_from(nearest_int(a)).map_err(|_| EvalError::OutOfRange)
}
