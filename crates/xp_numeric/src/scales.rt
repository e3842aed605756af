//! The scale of a number, and numbers without zeros at the end of their decimals.
ghost use Rattle.std.specs.Prelude.{◌≡◌, ◌≢◌, ◌*◌, ◌%◌, ◌^◌, ◌<◌, ◌≤◌, pos};
ghost use Rattle.xp_numeric.specs.Places.{IsTrimmed};
ghost use Rattle.xp_value.specs.Order.{units};

use crate::making::power;
use xp_base::Dec;

/// How many decimals it has.
pub fn scale_numeric(a: Dec) -> i32
    ensures { result ≡ pos a.scale }
{
    i32::from(a.scale)
}

/// Without so many zeros at the end of the decimals, where they are there.
fn without(x: Dec, zeros: u8) -> Dec
    requires few { zeros ≤ 32 }
    requires last { 2 * zeros ≤ x.scale → x.coef % 10 ^ (2 * zeros) ≢ 0 }
    ensures value { units result ≡ units x }
    ensures last { zeros ≤ result.scale → result.coef % 10 ^ zeros ≢ 0 }
{
    let unit = power(u32::from(zeros));
    if x.scale < zeros || x.coef % unit != 0 {
        return x;
    }
    Dec {
        neg: x.neg,
        coef: x.coef / unit,
        scale: x.scale - zeros,
    }
}

/// Without zeros at the end of the decimals: 32, 16 and so on are taken off where they are there.
pub fn trim_scale_numeric(a: Dec) -> Dec
    ensures { IsTrimmed a result }
{
    let a = without(without(without(a, 32), 16), 8);
    without(without(without(a, 4), 2), 1)
}
