//! A product of two sizes divided by a third.
ghost use Rattle.std.specs.Prelude.{◌≡◌, ◌+◌, ◌-◌, ◌*◌, ◌^◌, ◌<◌, ◌≤◌};

/// The quotient and the rest, where the rest is less than two divisors.
fn reduced(quotient: u128, rest: u128, divisor: u128) -> (u128, u128)
    requires rest { rest < 2 * divisor }
    requires room { quotient < 2 ^ 128 - 1 }
    ensures value { result.0 * divisor + result.1 ≡ quotient * divisor + rest }
    ensures below { result.1 < divisor }
{
    if rest < divisor {
        (quotient, rest)
    } else {
        (quotient + 1, rest - divisor)
    }
}

/// The product divided by the divisor, and what is left: the factor is taken bit by bit, the
/// highest first.
fn by_bits(size: u128, factor: u128, divisor: u128) -> (u128, u128)
    requires below { size < divisor }
    requires divisor { divisor < 10 ^ 38 }
    requires factor { factor ≤ 10 ^ 38 }
    ensures value { result.0 * divisor + result.1 ≡ size * factor }
    ensures below { result.1 < divisor }
{
    let mut quotient = 0;
    let mut rest = 0;
    // the factor is below 2^127
    let mut bits: u32 = 127;
    while bits > 0 {
        bits -= 1;
        (quotient, rest) = reduced(2 * quotient, 2 * rest, divisor);
        if (factor >> bits) % 2 == 1 {
            (quotient, rest) = reduced(quotient, rest + size, divisor);
        }
    }
    (quotient, rest)
}

/// The product divided by the divisor, and what is left.
pub fn product_over(size: u128, factor: u128, divisor: u128) -> (u128, u128)
    requires below { size < divisor }
    requires divisor { divisor < 10 ^ 38 }
    requires factor { factor ≤ 10 ^ 38 }
    ensures value { result.0 * divisor + result.1 ≡ size * factor }
    ensures below { result.1 < divisor }
{
    match size.checked_mul(factor) {
        Some(product) => (product / divisor, product % divisor),
        None => by_bits(size, factor, divisor),
    }
}
