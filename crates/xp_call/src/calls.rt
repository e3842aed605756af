//! Calls of bodies.
ghost use Rattle.std.specs.Prelude.{◌≡◌};
ghost use Rattle.xp_call.specs.Applied.{applied};
ghost use Rattle.xp_call.specs.Calls.{Calls, body_outcome, is_built};

use crate::arguments::{integer, truth};
use crate::bytes::{call_bytes, make_bytes};
use crate::dates::call_date;
use crate::fault::CallFault;
use crate::integers::{binary, cast, compare, compare_bools, shift, unary};
use crate::made_texts::make_text;
use crate::numerics::call_numeric;
use crate::operations::{Binary, Comparison, IntType, Operation, Shift, Unary, operation_at};
use crate::texts::call_text;
use std::alloc::Global;
use xp_base::{BodyNo, EvalError};
use xp_int::{bool_int4, int4_bool, to_hex_int4, to_hex_int8};
use xp_value::Value;

/// Whether calls of the body are built. A call of any other counts as one without a body.
pub fn is_built(body: BodyNo) -> bool
    ensures { result ≡ is_built body }
{
    operation_at(body).is_some()
}

fn call_binary(word: Binary, a: IntType, b: IntType, args: &[Value]) -> Result<Value, EvalError>
    ensures { result ≡ applied (Operation.Binary word a b) args.now }
{
    let [first, second] = args else {
        return Err(EvalError::Limit);
    };
    match (integer(a, first), integer(b, second)) {
        (Some(x), Some(y)) => binary(word, a.wider(b), x, y),
        _ => Err(EvalError::Limit),
    }
}

fn call_unary(word: Unary, a: IntType, args: &[Value]) -> Result<Value, EvalError>
    ensures { result ≡ applied (Operation.Unary word a) args.now }
{
    let [only] = args else {
        return Err(EvalError::Limit);
    };
    match integer(a, only) {
        Some(x) => unary(word, a, x),
        None => Err(EvalError::Limit),
    }
}

fn call_shift(word: Shift, a: IntType, args: &[Value]) -> Result<Value, EvalError>
    ensures { result ≡ applied (Operation.Shift word a) args.now }
{
    let [first, second] = args else {
        return Err(EvalError::Limit);
    };
    match (integer(a, first), integer(IntType::Int4, second)) {
        (Some(x), Some(count)) => Ok(shift(word, a, x, count)),
        _ => Err(EvalError::Limit),
    }
}

fn call_compare(
    word: Comparison,
    a: IntType,
    b: IntType,
    args: &[Value],
) -> Result<Value, EvalError>
    ensures { result ≡ applied (Operation.Compare word a b) args.now }
{
    let [first, second] = args else {
        return Err(EvalError::Limit);
    };
    match (integer(a, first), integer(b, second)) {
        (Some(x), Some(y)) => Ok(Value::Bool(compare(word, x, y))),
        _ => Err(EvalError::Limit),
    }
}

fn call_compare_bools(word: Comparison, args: &[Value]) -> Result<Value, EvalError>
    ensures { result ≡ applied (Operation.CompareBools word) args.now }
{
    let [first, second] = args else {
        return Err(EvalError::Limit);
    };
    match (truth(first), truth(second)) {
        (Some(x), Some(y)) => Ok(Value::Bool(compare_bools(word, x, y))),
        _ => Err(EvalError::Limit),
    }
}

fn call_cast(from: IntType, to: IntType, args: &[Value]) -> Result<Value, EvalError>
    ensures { result ≡ applied (Operation.Cast from to) args.now }
{
    let [only] = args else {
        return Err(EvalError::Limit);
    };
    match integer(from, only) {
        Some(x) => cast(to, x),
        None => Err(EvalError::Limit),
    }
}

fn call_bool_of_int4(args: &[Value]) -> Result<Value, EvalError>
    ensures { result ≡ applied Operation.BoolOfInt4 args.now }
{
    let [only] = args else {
        return Err(EvalError::Limit);
    };
    match integer(IntType::Int4, only) {
        Some(x) => Ok(Value::Bool(bool_int4(x as i32))),
        None => Err(EvalError::Limit),
    }
}

fn call_int4_of_bool(args: &[Value]) -> Result<Value, EvalError>
    ensures { result ≡ applied Operation.Int4OfBool args.now }
{
    let [only] = args else {
        return Err(EvalError::Limit);
    };
    match truth(only) {
        Some(x) => Ok(Value::Int(i64::from(int4_bool(x)))),
        None => Err(EvalError::Limit),
    }
}

fn call_hex_of_int4(alloc: Global, args: &[Value]) -> Result<Value, CallFault>
    ensures { Calls (applied Operation.HexOfInt4 args.now) result }
{
    let [only] = args else {
        return Err(CallFault::Raised(EvalError::Limit));
    };
    match integer(IntType::Int4, only) {
        Some(x) => Ok(Value::Text(to_hex_int4(alloc, x as i32)?)),
        None => Err(CallFault::Raised(EvalError::Limit)),
    }
}

fn call_hex_of_int8(alloc: Global, args: &[Value]) -> Result<Value, CallFault>
    ensures { Calls (applied Operation.HexOfInt8 args.now) result }
{
    let [only] = args else {
        return Err(CallFault::Raised(EvalError::Limit));
    };
    match integer(IntType::Int8, only) {
        Some(x) => Ok(Value::Text(to_hex_int8(alloc, x)?)),
        None => Err(CallFault::Raised(EvalError::Limit)),
    }
}

/// What the operation gives of these values.
fn apply(alloc: Global, operation: Operation, args: &[Value]) -> Result<Value, CallFault>
    ensures { Calls (applied operation args.now) result }
{
    let outcome = match operation {
        Operation::Binary(word, a, b) => call_binary(word, a, b, args),
        Operation::Unary(word, a) => call_unary(word, a, args),
        Operation::Shift(word, a) => call_shift(word, a, args),
        Operation::Compare(word, a, b) => call_compare(word, a, b, args),
        Operation::CompareBools(word) => call_compare_bools(word, args),
        Operation::Cast { from, to } => call_cast(from, to, args),
        Operation::BoolOfInt4 => call_bool_of_int4(args),
        Operation::Int4OfBool => call_int4_of_bool(args),
        Operation::HexOfInt4 => return call_hex_of_int4(alloc, args),
        Operation::HexOfInt8 => return call_hex_of_int8(alloc, args),
        Operation::Numeric(word) => call_numeric(word, args),
        Operation::Text(word) => call_text(word, args),
        Operation::MakeText(word) => return make_text(alloc, word, args),
        Operation::Bytes(word) => call_bytes(word, args),
        Operation::MakeBytes(word) => return make_bytes(alloc, word, args),
        Operation::Date(word) => call_date(word, args),
    };
    outcome.map_err(CallFault::Raised)
}

/// What the body gives of its arguments.
pub fn call(alloc: Global, body: BodyNo, args: &[Value]) -> Result<Value, CallFault>
    ensures { Calls (body_outcome body args.now) result }
{
    match operation_at(body) {
        Some(operation) => apply(alloc, operation, args),
        None => Err(CallFault::Raised(EvalError::Limit)),
    }
}
