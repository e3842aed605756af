//! Casts among the integer types and boolean.
ghost use Rattle.std.specs.Prelude.{◌≡◌, pos, not};
ghost use Rattle.std.specs.Int.{from_bool};
ghost use Rattle.std.specs.Ordering.{int_eq};
ghost use Rattle.xp_int.specs.Integers.{int2 as as_int2, int4 as as_int4, within};

use xp_base::EvalError;

/// An int4 or an int8 as an int2.
pub fn int2(a: i64) -> Result<i16, EvalError>
    ensures { result ≡ within as_int2 a }
{
    i16::try_from(a).map_err(|_| EvalError::OutOfRange)
}

/// An int2 or an int8 as an int4.
pub fn int4(a: i64) -> Result<i32, EvalError>
    ensures { result ≡ within as_int4 a }
{
    i32::try_from(a).map_err(|_| EvalError::OutOfRange)
}

/// An int2 or an int4 as an int8.
pub fn int8(a: i32) -> i64
    ensures { result ≡ a }
{
    i64::from(a)
}

/// 0 is false, and every other number is true.
pub fn bool_int4(a: i32) -> bool
    ensures { result ≡ not (int_eq a (pos 0)) }
{
    a != 0
}

/// True is 1, and false is 0.
pub fn int4_bool(a: bool) -> i32
    ensures { result ≡ pos (from_bool a) }
{
    i32::from(a)
}
