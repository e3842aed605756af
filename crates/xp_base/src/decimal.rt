//! Decimal numbers.
ghost use Rattle.std.specs.Prelude.{◌≡◌, ◌^◌, ◌<◌, ◌≤◌, true};

/// The number `coef` divided by the power `scale` of ten, and negative where `neg` says so
/// (manual 8.1.2). At most 38 digits and 38 decimals; zero isn't negative.
#[derive(Clone, Copy, Debug, PartialEq, Eq)]
pub struct Dec {
    pub neg: bool,
    pub coef: u128,
    pub scale: u8,
    pub ghost digits: { coef < 10 ^ 38 },
    pub ghost decimals: { scale ≤ 38 },
    pub ghost no_negative_zero: { neg ≡ true → 0 < coef },
}
