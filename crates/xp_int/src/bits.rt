//! The words on bits, in two's complement.
ghost use Rattle.std.specs.Prelude.{◌≡◌};
ghost use Rattle.xp_int.specs.Integers.{bits_and, bits_not, bits_or, bits_xor, int2, int4, int8, shifted_left, shifted_right};

// The count is taken modulo the width of the type.
macro_rules! shifted_left_of {
    ($a:ident, $count:ident, $width:literal) => {
        $a << $count.rem_euclid($width) as u32
    };
}

macro_rules! shifted_right_of {
    ($a:ident, $count:ident, $width:literal) => {
        $a >> $count.rem_euclid($width) as u32
    };
}

pub fn and_int2(a: i16, b: i16) -> i16
    ensures { result ≡ bits_and int2 a b }
{
    a & b
}

pub fn and_int4(a: i32, b: i32) -> i32
    ensures { result ≡ bits_and int4 a b }
{
    a & b
}

pub fn and_int8(a: i64, b: i64) -> i64
    ensures { result ≡ bits_and int8 a b }
{
    a & b
}

pub fn or_int2(a: i16, b: i16) -> i16
    ensures { result ≡ bits_or int2 a b }
{
    a | b
}

pub fn or_int4(a: i32, b: i32) -> i32
    ensures { result ≡ bits_or int4 a b }
{
    a | b
}

pub fn or_int8(a: i64, b: i64) -> i64
    ensures { result ≡ bits_or int8 a b }
{
    a | b
}

pub fn xor_int2(a: i16, b: i16) -> i16
    ensures { result ≡ bits_xor int2 a b }
{
    a ^ b
}

pub fn xor_int4(a: i32, b: i32) -> i32
    ensures { result ≡ bits_xor int4 a b }
{
    a ^ b
}

pub fn xor_int8(a: i64, b: i64) -> i64
    ensures { result ≡ bits_xor int8 a b }
{
    a ^ b
}

pub fn not_int2(a: i16) -> i16
    ensures { result ≡ bits_not int2 a }
{
    !a
}

pub fn not_int4(a: i32) -> i32
    ensures { result ≡ bits_not int4 a }
{
    !a
}

pub fn not_int8(a: i64) -> i64
    ensures { result ≡ bits_not int8 a }
{
    !a
}

/// Bits past the end are lost.
pub fn shl_int2(a: i16, count: i32) -> i16
    ensures { result ≡ shifted_left int2 a count }
{
    shifted_left_of!(a, count, 16)
}

/// Bits past the end are lost.
pub fn shl_int4(a: i32, count: i32) -> i32
    ensures { result ≡ shifted_left int4 a count }
{
    shifted_left_of!(a, count, 32)
}

/// Bits past the end are lost.
pub fn shl_int8(a: i64, count: i32) -> i64
    ensures { result ≡ shifted_left int8 a count }
{
    shifted_left_of!(a, count, 64)
}

/// Keeps the sign.
pub fn shr_int2(a: i16, count: i32) -> i16
    ensures { result ≡ shifted_right int2 a count }
{
    shifted_right_of!(a, count, 16)
}

/// Keeps the sign.
pub fn shr_int4(a: i32, count: i32) -> i32
    ensures { result ≡ shifted_right int4 a count }
{
    shifted_right_of!(a, count, 32)
}

/// Keeps the sign.
pub fn shr_int8(a: i64, count: i32) -> i64
    ensures { result ≡ shifted_right int8 a count }
{
    shifted_right_of!(a, count, 64)
}
