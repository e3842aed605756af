//! Sums, products, quotients and signs. Each is in the type of its arguments; a call over two
//! types takes both in the wider one.
ghost use Rattle.std.specs.Prelude.{◌≡◌};
ghost use Rattle.xp_int.specs.Integers.{absolute, difference, int2, int4, int8, negation, product, quotient, remainder, sum};

use xp_base::EvalError;

macro_rules! sum_of {
    ($a:ident, $b:ident) => {
        $a.checked_add($b).ok_or(EvalError::OutOfRange)
    };
}

macro_rules! difference_of {
    ($a:ident, $b:ident) => {
        $a.checked_sub($b).ok_or(EvalError::OutOfRange)
    };
}

macro_rules! product_of {
    ($a:ident, $b:ident) => {
        $a.checked_mul($b).ok_or(EvalError::OutOfRange)
    };
}

macro_rules! quotient_of {
    ($a:ident, $b:ident) => {
        if $b == 0 {
            Err(EvalError::DivisionByZero)
        } else {
            $a.checked_div($b).ok_or(EvalError::OutOfRange)
        }
    };
}

// The least number has a remainder by -1, though it has no quotient.
macro_rules! remainder_of {
    ($a:ident, $b:ident) => {
        match $b {
            0 => Err(EvalError::DivisionByZero),
            -1 => Ok(0),
            _ => Ok($a % $b),
        }
    };
}

macro_rules! negation_of {
    ($a:ident) => {
        $a.checked_neg().ok_or(EvalError::OutOfRange)
    };
}

macro_rules! absolute_of {
    ($a:ident) => {
        $a.checked_abs().ok_or(EvalError::OutOfRange)
    };
}

pub fn add_int2(a: i16, b: i16) -> Result<i16, EvalError>
    ensures { result ≡ sum int2 a b }
{
    sum_of!(a, b)
}

pub fn add_int4(a: i32, b: i32) -> Result<i32, EvalError>
    ensures { result ≡ sum int4 a b }
{
    sum_of!(a, b)
}

pub fn add_int8(a: i64, b: i64) -> Result<i64, EvalError>
    ensures { result ≡ sum int8 a b }
{
    sum_of!(a, b)
}

pub fn sub_int2(a: i16, b: i16) -> Result<i16, EvalError>
    ensures { result ≡ difference int2 a b }
{
    difference_of!(a, b)
}

pub fn sub_int4(a: i32, b: i32) -> Result<i32, EvalError>
    ensures { result ≡ difference int4 a b }
{
    difference_of!(a, b)
}

pub fn sub_int8(a: i64, b: i64) -> Result<i64, EvalError>
    ensures { result ≡ difference int8 a b }
{
    difference_of!(a, b)
}

pub fn mul_int2(a: i16, b: i16) -> Result<i16, EvalError>
    ensures { result ≡ product int2 a b }
{
    product_of!(a, b)
}

pub fn mul_int4(a: i32, b: i32) -> Result<i32, EvalError>
    ensures { result ≡ product int4 a b }
{
    product_of!(a, b)
}

pub fn mul_int8(a: i64, b: i64) -> Result<i64, EvalError>
    ensures { result ≡ product int8 a b }
{
    product_of!(a, b)
}

/// Rounded toward zero.
pub fn div_int2(a: i16, b: i16) -> Result<i16, EvalError>
    ensures { result ≡ quotient int2 a b }
{
    quotient_of!(a, b)
}

/// Rounded toward zero.
pub fn div_int4(a: i32, b: i32) -> Result<i32, EvalError>
    ensures { result ≡ quotient int4 a b }
{
    quotient_of!(a, b)
}

/// Rounded toward zero.
pub fn div_int8(a: i64, b: i64) -> Result<i64, EvalError>
    ensures { result ≡ quotient int8 a b }
{
    quotient_of!(a, b)
}

/// With the dividend's sign.
pub fn mod_int2(a: i16, b: i16) -> Result<i16, EvalError>
    ensures { result ≡ remainder a b }
{
    remainder_of!(a, b)
}

/// With the dividend's sign.
pub fn mod_int4(a: i32, b: i32) -> Result<i32, EvalError>
    ensures { result ≡ remainder a b }
{
    remainder_of!(a, b)
}

/// With the dividend's sign.
pub fn mod_int8(a: i64, b: i64) -> Result<i64, EvalError>
    ensures { result ≡ remainder a b }
{
    remainder_of!(a, b)
}

pub fn neg_int2(a: i16) -> Result<i16, EvalError>
    ensures { result ≡ negation int2 a }
{
    negation_of!(a)
}

pub fn neg_int4(a: i32) -> Result<i32, EvalError>
    ensures { result ≡ negation int4 a }
{
    negation_of!(a)
}

pub fn neg_int8(a: i64) -> Result<i64, EvalError>
    ensures { result ≡ negation int8 a }
{
    negation_of!(a)
}

pub fn abs_int2(a: i16) -> Result<i16, EvalError>
    ensures { result ≡ absolute int2 a }
{
    absolute_of!(a)
}

pub fn abs_int4(a: i32) -> Result<i32, EvalError>
    ensures { result ≡ absolute int4 a }
{
    absolute_of!(a)
}

pub fn abs_int8(a: i64) -> Result<i64, EvalError>
    ensures { result ≡ absolute int8 a }
{
    absolute_of!(a)
}

pub fn plus_int2(a: i16) -> i16
    ensures { result ≡ a }
{
    a
}

pub fn plus_int4(a: i32) -> i32
    ensures { result ≡ a }
{
    a
}

pub fn plus_int8(a: i64) -> i64
    ensures { result ≡ a }
{
    a
}
