//! How many decimals a quotient has.
ghost use Rattle.std.specs.Prelude.{◌≡◌, ◌<◌, ◌≤◌};
ghost use Rattle.xp_numeric.specs.Quotients.{first_digit, quotient_scale, weight};

use crate::making::power;
use xp_base::{DIGIT_LIMIT, Dec};

/// The weight of the first digit in base 10000, counted from the tenth digit behind the point, and
/// that digit.
fn leading(x: Dec) -> (u32, u128)
    ensures weight { result.0 ≡ weight x }
    ensures digit { result.1 ≡ first_digit x }
    ensures small { result.0 < 20 }
{
    if x.coef == 0 {
        return (10, 0);
    }
    let decimals = 40 - u32::from(x.scale);
    let place = (x.coef.ilog10() + decimals) / 4;
    if 4 * place < decimals {
        (place, x.coef * power(decimals - 4 * place))
    } else {
        (place, x.coef / power(4 * place - decimals))
    }
}

/// How many decimals the quotient has.
pub fn quotient_scale(a: Dec, b: Dec) -> u32
    ensures value { result ≡ quotient_scale a b }
    ensures first { a.scale ≤ result }
    ensures second { b.scale ≤ result }
    ensures high { result ≤ 38 }
{
    let (place, digit) = leading(a);
    let (other_place, other_digit) = leading(b);
    let lower = u32::from(digit <= other_digit);
    let wanted = (16 + 4 * (other_place + lower)).saturating_sub(4 * place);
    wanted
        .max(u32::from(a.scale.max(b.scale)))
        .min(u32::from(DIGIT_LIMIT))
}
