//! What the bodies of bytea do (manual 9.5 and 9.7).
ghost use Rattle.std.specs.Prelude.{◌≡◌, length};
ghost use Rattle.std.specs.Cmp.Lexicographic.{slice_cmp};
ghost use Rattle.std.specs.Ordering.{nat_cmp};
ghost use Rattle.xp_bytea.specs.Single.{get_byte as byte_at};
ghost use Rattle.xp_call.specs.Arguments.{holds};
ghost use Rattle.xp_call.specs.Bytes.{byte, of_bytes, of_made_bytes};
ghost use Rattle.xp_call.specs.Calls.{Calls};

use crate::answers::{bytes_value, count, text_value};
use crate::arguments::{bytes, int4, text};
use crate::fault::CallFault;
use crate::operations::Comparison;
use crate::texts::Measure;
use std::alloc::Global;
use xp_base::EvalError;
use xp_bytea::{
    cat_bytea, decode, encode, eq_bytea, ge_bytea, get_byte, gt_bytea, le_bytea, length_bytea,
    lt_bytea, ne_bytea, octet_length_bytea, set_byte, strpos_bytea, substr_bytea,
    substr_bytea_count,
};
use xp_like::{like_bytea, nlike_bytea};
use xp_value::Value;

/// What a body says of byte strings. Numbers are int4, and the places of single bytes count from 0.
#[derive(Clone, Copy, Debug, PartialEq, Eq)]
pub enum BytesOperation {
    Compare(Comparison),
    Like,
    NotLike,
    Measure(Measure),
    /// The place of a byte string in another.
    Place,
    /// The byte at a place.
    Get,
}

/// What a body makes of byte strings, or makes them of.
#[derive(Clone, Copy, Debug, PartialEq, Eq)]
pub enum BytesMaking {
    Join,
    /// From a place on.
    From,
    /// So many bytes from a place on.
    Part,
    /// With another byte at a place.
    Set,
    /// A text of a byte string, in a format.
    Encode,
    /// A byte string of a text, in a format.
    Decode,
}

// ---- what they give

fn compare(word: Comparison, a: &[u8], b: &[u8]) -> bool
    ensures { result ≡ holds word (slice_cmp nat_cmp a.now b.now) }
{
    match word {
        Comparison::Equal => eq_bytea(a, b),
        Comparison::NotEqual => ne_bytea(a, b),
        Comparison::Less => lt_bytea(a, b),
        Comparison::AtMost => le_bytea(a, b),
        Comparison::Greater => gt_bytea(a, b),
        Comparison::AtLeast => ge_bytea(a, b),
    }
}

fn byte_of(a: &[u8], n: i32) -> Result<Value, EvalError>
    ensures { result ≡ byte (byte_at a.now n) }
{
    match get_byte(a, n) {
        Ok(byte) => Ok(Value::Int(i64::from(byte))),
        Err(error) => Err(error),
    }
}

fn measured(word: Measure, a: &[u8]) -> usize
    ensures { result ≡ length a.now }
{
    match word {
        Measure::Length => length_bytea(a),
        Measure::OctetLength => octet_length_bytea(a),
    }
}

// ---- calls

fn call_compare(word: Comparison, args: &[Value]) -> Result<Value, EvalError>
    ensures { result ≡ of_bytes (BytesOperation.Compare word) args.now }
{
    let [first, second] = args else {
        return Err(EvalError::Limit);
    };
    match (bytes(first), bytes(second)) {
        (Some(a), Some(b)) => Ok(Value::Bool(compare(word, a, b))),
        _ => Err(EvalError::Limit),
    }
}

fn call_like(args: &[Value]) -> Result<Value, EvalError>
    ensures { result ≡ of_bytes BytesOperation.Like args.now }
{
    let [first, second] = args else {
        return Err(EvalError::Limit);
    };
    match (bytes(first), bytes(second)) {
        (Some(a), Some(pattern)) => Ok(Value::Bool(like_bytea(a, pattern)?)),
        _ => Err(EvalError::Limit),
    }
}

fn call_not_like(args: &[Value]) -> Result<Value, EvalError>
    ensures { result ≡ of_bytes BytesOperation.NotLike args.now }
{
    let [first, second] = args else {
        return Err(EvalError::Limit);
    };
    match (bytes(first), bytes(second)) {
        (Some(a), Some(pattern)) => Ok(Value::Bool(nlike_bytea(a, pattern)?)),
        _ => Err(EvalError::Limit),
    }
}

fn call_measure(word: Measure, args: &[Value]) -> Result<Value, EvalError>
    ensures { result ≡ of_bytes (BytesOperation.Measure word) args.now }
{
    let [only] = args else {
        return Err(EvalError::Limit);
    };
    match bytes(only) {
        Some(a) => count(measured(word, a)),
        None => Err(EvalError::Limit),
    }
}

fn call_place(args: &[Value]) -> Result<Value, EvalError>
    ensures { result ≡ of_bytes BytesOperation.Place args.now }
{
    let [first, second] = args else {
        return Err(EvalError::Limit);
    };
    match (bytes(first), bytes(second)) {
        (Some(a), Some(part)) => count(strpos_bytea(a, part)),
        _ => Err(EvalError::Limit),
    }
}

fn call_get(args: &[Value]) -> Result<Value, EvalError>
    ensures { result ≡ of_bytes BytesOperation.Get args.now }
{
    let [first, second] = args else {
        return Err(EvalError::Limit);
    };
    match (bytes(first), int4(second)) {
        (Some(a), Some(n)) => byte_of(a, n),
        _ => Err(EvalError::Limit),
    }
}

/// What the operation gives of these values.
pub fn call_bytes(operation: BytesOperation, args: &[Value]) -> Result<Value, EvalError>
    ensures { result ≡ of_bytes operation args.now }
{
    match operation {
        BytesOperation::Compare(word) => call_compare(word, args),
        BytesOperation::Like => call_like(args),
        BytesOperation::NotLike => call_not_like(args),
        BytesOperation::Measure(word) => call_measure(word, args),
        BytesOperation::Place => call_place(args),
        BytesOperation::Get => call_get(args),
    }
}

#[tactic(auto, using(crate::proofs::Answered::as_bytes))]
fn call_join(alloc: Global, args: &[Value]) -> Result<Value, CallFault>
    ensures { Calls (of_made_bytes BytesMaking.Join args.now) result }
{
    let [first, second] = args else {
        return Err(CallFault::Raised(EvalError::Limit));
    };
    match (bytes(first), bytes(second)) {
        (Some(a), Some(b)) => bytes_value(cat_bytea(alloc, a, b)),
        _ => Err(CallFault::Raised(EvalError::Limit)),
    }
}

fn call_from(alloc: Global, args: &[Value]) -> Result<Value, CallFault>
    ensures { Calls (of_made_bytes BytesMaking.From args.now) result }
{
    let [first, second] = args else {
        return Err(CallFault::Raised(EvalError::Limit));
    };
    match (bytes(first), int4(second)) {
        (Some(a), Some(n)) => Ok(Value::Bytes(substr_bytea(alloc, a, n)?)),
        _ => Err(CallFault::Raised(EvalError::Limit)),
    }
}

#[tactic(auto, using(crate::proofs::Answered::as_bytes))]
fn call_part(alloc: Global, args: &[Value]) -> Result<Value, CallFault>
    ensures { Calls (of_made_bytes BytesMaking.Part args.now) result }
{
    let [first, second, third] = args else {
        return Err(CallFault::Raised(EvalError::Limit));
    };
    match (bytes(first), int4(second), int4(third)) {
        (Some(a), Some(n), Some(count)) => bytes_value(substr_bytea_count(alloc, a, n, count)),
        _ => Err(CallFault::Raised(EvalError::Limit)),
    }
}

#[tactic(auto, using(crate::proofs::Answered::as_bytes))]
fn call_set(alloc: Global, args: &[Value]) -> Result<Value, CallFault>
    ensures { Calls (of_made_bytes BytesMaking.Set args.now) result }
{
    let [first, second, third] = args else {
        return Err(CallFault::Raised(EvalError::Limit));
    };
    match (bytes(first), int4(second), int4(third)) {
        (Some(a), Some(n), Some(value)) => bytes_value(set_byte(alloc, a, n, value)),
        _ => Err(CallFault::Raised(EvalError::Limit)),
    }
}

#[tactic(auto, using(crate::proofs::Answered::as_text))]
fn call_encode(alloc: Global, args: &[Value]) -> Result<Value, CallFault>
    ensures { Calls (of_made_bytes BytesMaking.Encode args.now) result }
{
    let [first, second] = args else {
        return Err(CallFault::Raised(EvalError::Limit));
    };
    match (bytes(first), text(second)) {
        (Some(a), Some(format)) => text_value(encode(alloc, a, format)),
        _ => Err(CallFault::Raised(EvalError::Limit)),
    }
}

#[tactic(auto, using(crate::proofs::Answered::as_bytes))]
fn call_decode(alloc: Global, args: &[Value]) -> Result<Value, CallFault>
    ensures { Calls (of_made_bytes BytesMaking.Decode args.now) result }
{
    let [first, second] = args else {
        return Err(CallFault::Raised(EvalError::Limit));
    };
    match (text(first), text(second)) {
        (Some(a), Some(format)) => bytes_value(decode(alloc, a, format)),
        _ => Err(CallFault::Raised(EvalError::Limit)),
    }
}

/// What the body makes of these values.
pub fn make_bytes(alloc: Global, making: BytesMaking, args: &[Value]) -> Result<Value, CallFault>
    ensures { Calls (of_made_bytes making args.now) result }
{
    match making {
        BytesMaking::Join => call_join(alloc, args),
        BytesMaking::From => call_from(alloc, args),
        BytesMaking::Part => call_part(alloc, args),
        BytesMaking::Set => call_set(alloc, args),
        BytesMaking::Encode => call_encode(alloc, args),
        BytesMaking::Decode => call_decode(alloc, args),
    }
}
