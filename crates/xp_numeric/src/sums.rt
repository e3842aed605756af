//! Sums, differences and products.
ghost use Rattle.std.specs.Prelude.{◌≡◌, ◌-◌, ◌*◌, ◌^◌, ◌≤◌, ◌+ℤ◌, min};
ghost use Rattle.xp_numeric.specs.Arithmetic.{difference, product, sum};
ghost use Rattle.xp_numeric.specs.Numbers.{made as made_of, signed};

use crate::making::{made, power};
use xp_base::{Dec, EvalError};

/// The size in units of decimal `scale`, which stands still at the greatest u128.
pub fn aligned(x: Dec, scale: u8) -> u128
    requires low { x.scale ≤ scale }
    requires high { scale ≤ 38 }
    ensures { result ≡ min (x.coef * 10 ^ (scale - x.scale)) (2 ^ 128 - 1) }
{
    x.coef.saturating_mul(power(u32::from(scale - x.scale)))
}

/// The sum of two sizes with signs.
fn signed_sum(
    neg: bool,
    size: u128,
    other_neg: bool,
    other: u128,
    scale: u8,
) -> Result<Dec, EvalError>
    ensures { result ≡ made_of (signed neg size +ℤ signed other_neg other) scale }
{
    let scale = u32::from(scale);
    if neg == other_neg {
        made(neg, size.saturating_add(other), scale)
    } else if size >= other {
        made(neg, size - other, scale)
    } else {
        made(other_neg, other - size, scale)
    }
}

pub fn add_numeric(a: Dec, b: Dec) -> Result<Dec, EvalError>
    ensures { result ≡ sum a b }
{
    let scale = a.scale.max(b.scale);
    signed_sum(a.neg, aligned(a, scale), b.neg, aligned(b, scale), scale)
}

pub fn sub_numeric(a: Dec, b: Dec) -> Result<Dec, EvalError>
    ensures { result ≡ difference a b }
{
    let scale = a.scale.max(b.scale);
    signed_sum(a.neg, aligned(a, scale), !b.neg, aligned(b, scale), scale)
}

pub fn mul_numeric(a: Dec, b: Dec) -> Result<Dec, EvalError>
    ensures { result ≡ product a b }
{
    let size = a.coef.saturating_mul(b.coef);
    made(a.neg != b.neg, size, u32::from(a.scale + b.scale))
}
