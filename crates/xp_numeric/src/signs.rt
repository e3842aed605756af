//! Signs.
ghost use Rattle.std.specs.Prelude.{◌≡◌, Ok};
ghost use Rattle.xp_numeric.specs.Arithmetic.{absolute, negation, sign};

use crate::making::number;
use xp_base::Dec;

pub fn neg_numeric(a: Dec) -> Dec
    ensures { Ok result ≡ negation a }
{
    number(!a.neg, a.coef, a.scale)
}

pub fn plus_numeric(a: Dec) -> Dec
    ensures { result ≡ a }
{
    a
}

pub fn abs_numeric(a: Dec) -> Dec
    ensures { Ok result ≡ absolute a }
{
    number(false, a.coef, a.scale)
}

/// -1, 0 or 1.
pub fn sign_numeric(a: Dec) -> Dec
    ensures { Ok result ≡ sign a }
{
    number(a.neg, a.coef.min(1), 0)
}
