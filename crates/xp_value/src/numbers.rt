//! The size of numbers.
ghost use Rattle.std.specs.Prelude.{◌≡◌, ◌*◌, ◌-◌, ◌^◌, ◌<◌, ◌+◌};
ghost use Rattle.std.specs.Ordering.{nat_cmp};

use std::cmp::Ordering;
use xp_base::Dec;

/// The part of a number before the point, and the part behind it, in units of the 38th decimal.
fn parts(number: &Dec) -> (u128, u128)
    ensures value { result.0 * 10 ^ 38 + result.1 ≡ number.now.coef * 10 ^ (38 - number.now.scale) }
    ensures below { result.1 < 10 ^ 38 }
{
    let power = 10u128.pow(number.scale as u32);
    let rest = 10u128.pow(38 - number.scale as u32);
    (number.coef / power, number.coef % power * rest)
}

/// The order of two numbers without their signs.
pub fn order_sizes(x: &Dec, y: &Dec) -> Ordering
    ensures { result ≡ nat_cmp (x.now.coef * 10 ^ (38 - x.now.scale)) (y.now.coef * 10 ^ (38 - y.now.scale)) }
{
    parts(x).cmp(&parts(y))
}
