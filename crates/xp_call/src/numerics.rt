//! What the bodies of numeric do (manual 9.3).
ghost use Rattle.std.specs.Prelude.{◌≡◌, ◌<◌, Ok};
ghost use Rattle.std.specs.Ordering.{int_cmp};
ghost use Rattle.xp_int.specs.Integers.{bits};
ghost use Rattle.xp_numeric.specs.Places.{as_int};
ghost use Rattle.xp_value.specs.Order.{units};
ghost use Rattle.xp_call.specs.Arguments.{holds, number, type_of};
ghost use Rattle.xp_call.specs.Numerics.{at_places, binary_of, of_numerics, unary_of};
ghost use Rattle.xp_call.specs.inner.Places as places;

use crate::arguments::{int4, integer, numeric};
use crate::operations::{Comparison, IntType, comparison_word, int_type_at};
use xp_base::{Dec, EvalError};
use xp_numeric::{
    abs_numeric, add_numeric, ceil_numeric, div_numeric, eq_numeric, floor_numeric, ge_numeric,
    gt_numeric, int2_numeric, int4_numeric, int8_numeric, intdiv_numeric, le_numeric, lt_numeric,
    mod_numeric, mul_numeric, ne_numeric, neg_numeric, plus_numeric, round_numeric,
    round_numeric_int4, scale_numeric, sign_numeric, sub_numeric, trim_scale_numeric,
    trunc_numeric, trunc_numeric_int4,
};
use xp_value::Value;

/// What gives a numeric of two numerics.
#[derive(Clone, Copy, Debug, PartialEq, Eq)]
pub enum NumericBinary {
    Add,
    Subtract,
    Multiply,
    Divide,
    Modulo,
    /// The whole part of the quotient.
    DivideWhole,
}

/// What gives a numeric of one numeric.
#[derive(Clone, Copy, Debug, PartialEq, Eq)]
pub enum NumericUnary {
    Negate,
    Plus,
    Absolute,
    Sign,
    Ceiling,
    Floor,
    TrimScale,
    Round,
    Truncate,
}

/// What brings a numeric to a number of decimals, which is an int4.
#[derive(Clone, Copy, Debug, PartialEq, Eq)]
pub enum ToPlaces {
    Round,
    Truncate,
}

/// What a body over numerics does.
#[derive(Clone, Copy, Debug, PartialEq, Eq)]
pub enum NumericOperation {
    Binary(NumericBinary),
    Compare(Comparison),
    Unary(NumericUnary),
    AtPlaces(ToPlaces),
    /// How many decimals it has.
    Scale,
    OfInt(IntType),
    /// Rounded.
    ToInt(IntType),
}

// ---- by places

fn binary_word(place: u32) -> NumericBinary
    ensures { result ≡ places.numeric_binary_word place }
{
    match place {
        0 => NumericBinary::Add,
        1 => NumericBinary::Subtract,
        2 => NumericBinary::Multiply,
        3 => NumericBinary::Divide,
        4 => NumericBinary::Modulo,
        _ => NumericBinary::DivideWhole,
    }
}

fn unary_word(place: u32) -> NumericUnary
    ensures { result ≡ places.numeric_unary_word place }
{
    match place {
        0 => NumericUnary::Negate,
        1 => NumericUnary::Plus,
        2 => NumericUnary::Absolute,
        3 => NumericUnary::Sign,
        4 => NumericUnary::Ceiling,
        5 => NumericUnary::Floor,
        _ => NumericUnary::TrimScale,
    }
}

/// Rounding, the scale and casts.
fn other_at(place: u32) -> NumericOperation
    ensures { result ≡ places.numeric_other place }
{
    match place {
        0 => NumericOperation::Unary(NumericUnary::Round),
        1 => NumericOperation::AtPlaces(ToPlaces::Round),
        2 => NumericOperation::Unary(NumericUnary::Truncate),
        3 => NumericOperation::AtPlaces(ToPlaces::Truncate),
        4 => NumericOperation::Scale,
        5..8 => NumericOperation::OfInt(int_type_at(place - 5)),
        _ => NumericOperation::ToInt(int_type_at(place - 8)),
    }
}

/// What the body at this place among those of numerics does.
pub fn numeric_at(place: u32) -> NumericOperation
    ensures { result ≡ places.numeric_at place }
{
    if place < 6 {
        NumericOperation::Binary(binary_word(place))
    } else if place < 12 {
        NumericOperation::Compare(comparison_word(place - 6))
    } else if place < 19 {
        NumericOperation::Unary(unary_word(place - 12))
    } else {
        other_at(place - 19)
    }
}

// ---- what they give

#[tactic(auto, unfolding(crate::specs::Numerics::binary_of))]
fn binary(word: NumericBinary, x: Dec, y: Dec) -> Result<Dec, EvalError>
    ensures { result ≡ binary_of word x y }
{
    match word {
        NumericBinary::Add => add_numeric(x, y),
        NumericBinary::Subtract => sub_numeric(x, y),
        NumericBinary::Multiply => mul_numeric(x, y),
        NumericBinary::Divide => div_numeric(x, y),
        NumericBinary::Modulo => mod_numeric(x, y),
        NumericBinary::DivideWhole => intdiv_numeric(x, y),
    }
}

#[tactic(auto, unfolding(crate::specs::Numerics::unary_of), using(crate::proofs::Trimmed::is_trimmed))]
fn unary(word: NumericUnary, x: Dec) -> Dec
    ensures { Ok result ≡ unary_of word x }
{
    match word {
        NumericUnary::Negate => neg_numeric(x),
        NumericUnary::Plus => plus_numeric(x),
        NumericUnary::Absolute => abs_numeric(x),
        NumericUnary::Sign => sign_numeric(x),
        NumericUnary::Ceiling => ceil_numeric(x),
        NumericUnary::Floor => floor_numeric(x),
        NumericUnary::TrimScale => trim_scale_numeric(x),
        NumericUnary::Round => round_numeric(x),
        NumericUnary::Truncate => trunc_numeric(x),
    }
}

fn compare(word: Comparison, x: Dec, y: Dec) -> bool
    ensures { result ≡ holds word (int_cmp (units x) (units y)) }
{
    match word {
        Comparison::Equal => eq_numeric(x, y),
        Comparison::NotEqual => ne_numeric(x, y),
        Comparison::Less => lt_numeric(x, y),
        Comparison::AtMost => le_numeric(x, y),
        Comparison::Greater => gt_numeric(x, y),
        Comparison::AtLeast => ge_numeric(x, y),
    }
}

fn at_places(word: ToPlaces, x: Dec, places: i32) -> Result<Dec, EvalError>
    ensures { result ≡ at_places word places x }
{
    match word {
        ToPlaces::Round => round_numeric_int4(x, places),
        ToPlaces::Truncate => trunc_numeric_int4(x, places),
    }
}

fn to_int(to: IntType, x: Dec) -> Result<Value, EvalError>
    ensures { result ≡ number (as_int (bits (type_of to)) x) }
{
    match to {
        IntType::Int2 => Ok(Value::Int(i64::from(int2_numeric(x)?))),
        IntType::Int4 => Ok(Value::Int(i64::from(int4_numeric(x)?))),
        IntType::Int8 => Ok(Value::Int(int8_numeric(x)?)),
    }
}

// ---- calls

fn call_two(word: NumericBinary, args: &[Value]) -> Result<Value, EvalError>
    ensures { result ≡ of_numerics (NumericOperation.Binary word) args.now }
{
    let [first, second] = args else {
        return Err(EvalError::Limit);
    };
    match (numeric(first), numeric(second)) {
        (Some(x), Some(y)) => Ok(Value::Num(binary(word, x, y)?)),
        _ => Err(EvalError::Limit),
    }
}

fn call_compare(word: Comparison, args: &[Value]) -> Result<Value, EvalError>
    ensures { result ≡ of_numerics (NumericOperation.Compare word) args.now }
{
    let [first, second] = args else {
        return Err(EvalError::Limit);
    };
    match (numeric(first), numeric(second)) {
        (Some(x), Some(y)) => Ok(Value::Bool(compare(word, x, y))),
        _ => Err(EvalError::Limit),
    }
}

fn call_one(word: NumericUnary, args: &[Value]) -> Result<Value, EvalError>
    ensures { result ≡ of_numerics (NumericOperation.Unary word) args.now }
{
    let [only] = args else {
        return Err(EvalError::Limit);
    };
    match numeric(only) {
        Some(x) => Ok(Value::Num(unary(word, x))),
        None => Err(EvalError::Limit),
    }
}

fn call_at_places(word: ToPlaces, args: &[Value]) -> Result<Value, EvalError>
    ensures { result ≡ of_numerics (NumericOperation.AtPlaces word) args.now }
{
    let [first, second] = args else {
        return Err(EvalError::Limit);
    };
    match (numeric(first), int4(second)) {
        (Some(x), Some(places)) => Ok(Value::Num(at_places(word, x, places)?)),
        _ => Err(EvalError::Limit),
    }
}

fn call_scale(args: &[Value]) -> Result<Value, EvalError>
    ensures { result ≡ of_numerics NumericOperation.Scale args.now }
{
    let [only] = args else {
        return Err(EvalError::Limit);
    };
    match numeric(only) {
        Some(x) => Ok(Value::Int(i64::from(scale_numeric(x)))),
        None => Err(EvalError::Limit),
    }
}

fn call_of_int(from: IntType, args: &[Value]) -> Result<Value, EvalError>
    ensures { result ≡ of_numerics (NumericOperation.OfInt from) args.now }
{
    let [only] = args else {
        return Err(EvalError::Limit);
    };
    match integer(from, only) {
        Some(n) => Ok(Value::Num(xp_numeric::numeric(n))),
        None => Err(EvalError::Limit),
    }
}

fn call_to_int(to: IntType, args: &[Value]) -> Result<Value, EvalError>
    ensures { result ≡ of_numerics (NumericOperation.ToInt to) args.now }
{
    let [only] = args else {
        return Err(EvalError::Limit);
    };
    match numeric(only) {
        Some(x) => to_int(to, x),
        None => Err(EvalError::Limit),
    }
}

/// What the operation gives of these values.
pub fn call_numeric(operation: NumericOperation, args: &[Value]) -> Result<Value, EvalError>
    ensures { result ≡ of_numerics operation args.now }
{
    match operation {
        NumericOperation::Binary(word) => call_two(word, args),
        NumericOperation::Compare(word) => call_compare(word, args),
        NumericOperation::Unary(word) => call_one(word, args),
        NumericOperation::AtPlaces(word) => call_at_places(word, args),
        NumericOperation::Scale => call_scale(args),
        NumericOperation::OfInt(from) => call_of_int(from, args),
        NumericOperation::ToInt(to) => call_to_int(to, args),
    }
}
