//! What the values of arguments are.
ghost use Rattle.std.specs.Prelude.{◌≡◌, IfSome, MatchOption, None, Some, true};
ghost use Rattle.xp_int.specs.Integers.{bits};
ghost use Rattle.xp_value.specs.Representation.{has_bits, is_date};
ghost use Rattle.xp_call.specs.Arguments.{bool_in, bytes_in, day_in, integer_in, numeric_in, pad_in, text_in, type_of};

use crate::operations::IntType;
use xp_base::Dec;
use xp_value::{FIRST_DAY, LAST_DAY, Value};

/// Whether the type has the number.
fn has(ty: IntType, number: i64) -> bool
    ensures { result ≡ has_bits (bits (type_of ty)) number }
{
    match ty {
        IntType::Int2 => i16::try_from(number).is_ok(),
        IntType::Int4 => i32::try_from(number).is_ok(),
        IntType::Int8 => true,
    }
}

/// The number, where the value is one of the type.
pub fn integer(ty: IntType, value: &Value) -> Option<i64>
    ensures value { result ≡ integer_in ty value.now }
    ensures within { IfSome result (λ n. has_bits (bits (type_of ty)) n ≡ true) }
{
    match value {
        Value::Int(number) if has(ty, *number) => Some(*number),
        _ => None,
    }
}

/// The number, where the value is an int4.
pub fn int4(value: &Value) -> Option<i32>
    ensures { result ≡ integer_in IntType.Int4 value.now }
{
    match integer(IntType::Int4, value) {
        Some(number) => Some(number as i32),
        None => None,
    }
}

/// The truth value, where it is one.
pub fn truth(value: &Value) -> Option<bool>
    ensures { result ≡ bool_in value.now }
{
    match value {
        Value::Bool(truth) => Some(*truth),
        _ => None,
    }
}

/// The number with decimals, where the value is one.
pub fn numeric(value: &Value) -> Option<Dec>
    ensures { result ≡ numeric_in value.now }
{
    match value {
        Value::Num(number) => Some(*number),
        _ => None,
    }
}

/// The day, where the value is one of the years.
pub fn day(value: &Value) -> Option<i32>
    ensures value { result ≡ day_in value.now }
    ensures within { IfSome result (λ day. is_date day ≡ true) }
{
    match value {
        Value::Day(day) if FIRST_DAY <= *day && *day <= LAST_DAY => Some(*day),
        _ => None,
    }
}

/// The text, where the value is one.
pub fn text(value: &Value) -> Option<&str>
    ensures { MatchOption result (text_in value.now ≡ None) (λ t. text_in value.now ≡ Some t.now) }
{
    match value {
        Value::Text(text) => Some(text.as_str()),
        _ => None,
    }
}

/// The padded text, where the value is one.
pub fn pad(value: &Value) -> Option<&str>
    ensures { MatchOption result (pad_in value.now ≡ None) (λ t. pad_in value.now ≡ Some t.now) }
{
    match value {
        Value::Pad(text) => Some(text.as_str()),
        _ => None,
    }
}

/// The bytes, where the value is some.
pub fn bytes(value: &Value) -> Option<&[u8]>
    ensures { MatchOption result (bytes_in value.now ≡ None) (λ b. bytes_in value.now ≡ Some b.now) }
{
    match value {
        Value::Bytes(bytes) => Some(bytes.as_slice()),
        _ => None,
    }
}
