//! What words give of integers and booleans, in one type (manual 9.1 to 9.4).
ghost use Rattle.std.specs.Prelude.{◌≡◌, true};
ghost use Rattle.std.specs.Ordering.{bool_cmp, int_cmp};
ghost use Rattle.xp_int.specs.Integers.{bits, int2, int4, int8, within};
ghost use Rattle.xp_value.specs.Representation.{has_bits};
ghost use Rattle.xp_call.specs.Arguments.{holds, number, type_of};
ghost use Rattle.xp_call.specs.Integers.{binary_of, shift_of, unary_of};

use crate::operations::{Binary, Comparison, IntType, Shift, Unary};
use xp_base::EvalError;
use xp_int::*;
use xp_value::Value;

#[tactic(auto, unfolding(crate::specs::Integers::binary_of))]
fn binary_int2(word: Binary, a: i16, b: i16) -> Result<i16, EvalError>
    ensures { result ≡ binary_of word int2 a b }
{
    match word {
        Binary::Add => add_int2(a, b),
        Binary::Subtract => sub_int2(a, b),
        Binary::Multiply => mul_int2(a, b),
        Binary::Divide => div_int2(a, b),
        Binary::Modulo => mod_int2(a, b),
        Binary::And => Ok(and_int2(a, b)),
        Binary::Or => Ok(or_int2(a, b)),
        Binary::Xor => Ok(xor_int2(a, b)),
    }
}

#[tactic(auto, unfolding(crate::specs::Integers::binary_of))]
fn binary_int4(word: Binary, a: i32, b: i32) -> Result<i32, EvalError>
    ensures { result ≡ binary_of word int4 a b }
{
    match word {
        Binary::Add => add_int4(a, b),
        Binary::Subtract => sub_int4(a, b),
        Binary::Multiply => mul_int4(a, b),
        Binary::Divide => div_int4(a, b),
        Binary::Modulo => mod_int4(a, b),
        Binary::And => Ok(and_int4(a, b)),
        Binary::Or => Ok(or_int4(a, b)),
        Binary::Xor => Ok(xor_int4(a, b)),
    }
}

#[tactic(auto, unfolding(crate::specs::Integers::binary_of))]
fn binary_int8(word: Binary, a: i64, b: i64) -> Result<i64, EvalError>
    ensures { result ≡ binary_of word int8 a b }
{
    match word {
        Binary::Add => add_int8(a, b),
        Binary::Subtract => sub_int8(a, b),
        Binary::Multiply => mul_int8(a, b),
        Binary::Divide => div_int8(a, b),
        Binary::Modulo => mod_int8(a, b),
        Binary::And => Ok(and_int8(a, b)),
        Binary::Or => Ok(or_int8(a, b)),
        Binary::Xor => Ok(xor_int8(a, b)),
    }
}

fn unary_int2(word: Unary, a: i16) -> Result<i16, EvalError>
    ensures { result ≡ unary_of word int2 a }
{
    match word {
        Unary::Not => Ok(not_int2(a)),
        Unary::Negate => neg_int2(a),
        Unary::Plus => Ok(plus_int2(a)),
        Unary::Absolute => abs_int2(a),
    }
}

fn unary_int4(word: Unary, a: i32) -> Result<i32, EvalError>
    ensures { result ≡ unary_of word int4 a }
{
    match word {
        Unary::Not => Ok(not_int4(a)),
        Unary::Negate => neg_int4(a),
        Unary::Plus => Ok(plus_int4(a)),
        Unary::Absolute => abs_int4(a),
    }
}

fn unary_int8(word: Unary, a: i64) -> Result<i64, EvalError>
    ensures { result ≡ unary_of word int8 a }
{
    match word {
        Unary::Not => Ok(not_int8(a)),
        Unary::Negate => neg_int8(a),
        Unary::Plus => Ok(plus_int8(a)),
        Unary::Absolute => abs_int8(a),
    }
}

fn shift_int2(word: Shift, a: i16, count: i32) -> i16
    ensures { result ≡ shift_of word int2 a count }
{
    match word {
        Shift::Left => shl_int2(a, count),
        Shift::Right => shr_int2(a, count),
    }
}

fn shift_int4(word: Shift, a: i32, count: i32) -> i32
    ensures { result ≡ shift_of word int4 a count }
{
    match word {
        Shift::Left => shl_int4(a, count),
        Shift::Right => shr_int4(a, count),
    }
}

fn shift_int8(word: Shift, a: i64, count: i32) -> i64
    ensures { result ≡ shift_of word int8 a count }
{
    match word {
        Shift::Left => shl_int8(a, count),
        Shift::Right => shr_int8(a, count),
    }
}

/// Two integers of the type.
pub fn binary(word: Binary, ty: IntType, a: i64, b: i64) -> Result<Value, EvalError>
    requires first { has_bits (bits (type_of ty)) a ≡ true }
    requires second { has_bits (bits (type_of ty)) b ≡ true }
    ensures { result ≡ number (binary_of word (type_of ty) a b) }
{
    match ty {
        IntType::Int2 => Ok(Value::Int(i64::from(binary_int2(word, a as i16, b as i16)?))),
        IntType::Int4 => Ok(Value::Int(i64::from(binary_int4(word, a as i32, b as i32)?))),
        IntType::Int8 => Ok(Value::Int(binary_int8(word, a, b)?)),
    }
}

/// An integer of the type.
pub fn unary(word: Unary, ty: IntType, a: i64) -> Result<Value, EvalError>
    requires { has_bits (bits (type_of ty)) a ≡ true }
    ensures { result ≡ number (unary_of word (type_of ty) a) }
{
    match ty {
        IntType::Int2 => Ok(Value::Int(i64::from(unary_int2(word, a as i16)?))),
        IntType::Int4 => Ok(Value::Int(i64::from(unary_int4(word, a as i32)?))),
        IntType::Int8 => Ok(Value::Int(unary_int8(word, a)?)),
    }
}

/// An integer of the type, its bits moved by an int4.
pub fn shift(word: Shift, ty: IntType, a: i64, count: i64) -> Value
    requires number { has_bits (bits (type_of ty)) a ≡ true }
    requires count { has_bits 32 count ≡ true }
    ensures { result ≡ Value.Int (shift_of word (type_of ty) a count) }
{
    let count = count as i32;
    match ty {
        IntType::Int2 => Value::Int(i64::from(shift_int2(word, a as i16, count))),
        IntType::Int4 => Value::Int(i64::from(shift_int4(word, a as i32, count))),
        IntType::Int8 => Value::Int(shift_int8(word, a, count)),
    }
}

/// An integer as one of the type.
pub fn cast(to: IntType, a: i64) -> Result<Value, EvalError>
    ensures { result ≡ number (within (type_of to) a) }
{
    match to {
        IntType::Int2 => Ok(Value::Int(i64::from(int2(a)?))),
        IntType::Int4 => Ok(Value::Int(i64::from(int4(a)?))),
        IntType::Int8 => Ok(Value::Int(a)),
    }
}

/// Two integers, whatever their types.
pub fn compare(word: Comparison, a: i64, b: i64) -> bool
    ensures { result ≡ holds word (int_cmp a b) }
{
    match word {
        Comparison::Equal => eq_int(a, b),
        Comparison::NotEqual => ne_int(a, b),
        Comparison::Less => lt_int(a, b),
        Comparison::AtMost => le_int(a, b),
        Comparison::Greater => gt_int(a, b),
        Comparison::AtLeast => ge_int(a, b),
    }
}

/// Two booleans, false before true.
pub fn compare_bools(word: Comparison, a: bool, b: bool) -> bool
    ensures { result ≡ holds word (bool_cmp a b) }
{
    match word {
        Comparison::Equal => eq_bool(a, b),
        Comparison::NotEqual => ne_bool(a, b),
        Comparison::Less => lt_bool(a, b),
        Comparison::AtMost => le_bool(a, b),
        Comparison::Greater => gt_bool(a, b),
        Comparison::AtLeast => ge_bool(a, b),
    }
}
