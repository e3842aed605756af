//! What the bodies say of texts and padded texts: their order, what they are like, and how long they
//! are (manual 9.2, 9.4 and 9.7).
ghost use Rattle.std.specs.Prelude.{◌≡◌};
ghost use Rattle.std.specs.Cmp.Lexicographic.{slice_cmp};
ghost use Rattle.std.specs.Ordering.{nat_cmp};
ghost use Rattle.std.specs.Str.{chars};
ghost use Rattle.xp_value.specs.Order.{unpadded};
ghost use Rattle.xp_call.specs.Arguments.{holds};
ghost use Rattle.xp_call.specs.Texts.{matched, measured, of_texts, padded_measured};

use crate::answers::count;
use crate::arguments::{pad, text};
use crate::operations::Comparison;
use xp_base::EvalError;
use xp_like::{
    ilike_bpchar, ilike_text, like_bpchar, like_text, nilike_bpchar, nilike_text, nlike_bpchar,
    nlike_text,
};
use xp_text::{
    ascii, eq_bpchar, eq_text, ge_bpchar, ge_text, gt_bpchar, gt_text, le_bpchar, le_text,
    length_bpchar, length_text, lt_bpchar, lt_text, ne_bpchar, ne_text, octet_length_bpchar,
    octet_length_text, starts_with, strpos_text,
};
use xp_value::Value;

/// How a text is compared with a pattern.
#[derive(Clone, Copy, Debug, PartialEq, Eq)]
pub enum Matching {
    Like,
    NotLike,
    /// In any case of ASCII letters.
    LikeInAnyCase,
    NotLikeInAnyCase,
}

/// What is counted.
#[derive(Clone, Copy, Debug, PartialEq, Eq)]
pub enum Measure {
    /// Characters, and of a byte string bytes.
    Length,
    /// Bytes.
    OctetLength,
}

/// What a body says of texts. A pattern is a text.
#[derive(Clone, Copy, Debug, PartialEq, Eq)]
pub enum TextOperation {
    Compare(Comparison),
    ComparePadded(Comparison),
    Match(Matching),
    /// Of a padded text with its padding.
    MatchPadded(Matching),
    Measure(Measure),
    MeasurePadded(Measure),
    /// The place of a text in another.
    Place,
    StartsWith,
    /// The code point of the first character.
    FirstCode,
}

// ---- what they give

fn compare(word: Comparison, a: &str, b: &str) -> bool
    ensures { result ≡ holds word (slice_cmp nat_cmp a.now b.now) }
{
    match word {
        Comparison::Equal => eq_text(a, b),
        Comparison::NotEqual => ne_text(a, b),
        Comparison::Less => lt_text(a, b),
        Comparison::AtMost => le_text(a, b),
        Comparison::Greater => gt_text(a, b),
        Comparison::AtLeast => ge_text(a, b),
    }
}

fn compare_padded(word: Comparison, a: &str, b: &str) -> bool
    ensures { result ≡ holds word (slice_cmp nat_cmp (unpadded a.now) (unpadded b.now)) }
{
    match word {
        Comparison::Equal => eq_bpchar(a, b),
        Comparison::NotEqual => ne_bpchar(a, b),
        Comparison::Less => lt_bpchar(a, b),
        Comparison::AtMost => le_bpchar(a, b),
        Comparison::Greater => gt_bpchar(a, b),
        Comparison::AtLeast => ge_bpchar(a, b),
    }
}

fn matches(word: Matching, a: &str, pattern: &str) -> Result<bool, EvalError>
    ensures { result ≡ matched word (chars a.now) (chars pattern.now) }
{
    match word {
        Matching::Like => like_text(a, pattern),
        Matching::NotLike => nlike_text(a, pattern),
        Matching::LikeInAnyCase => ilike_text(a, pattern),
        Matching::NotLikeInAnyCase => nilike_text(a, pattern),
    }
}

fn matches_padded(word: Matching, a: &str, pattern: &str) -> Result<bool, EvalError>
    ensures { result ≡ matched word (chars a.now) (chars pattern.now) }
{
    match word {
        Matching::Like => like_bpchar(a, pattern),
        Matching::NotLike => nlike_bpchar(a, pattern),
        Matching::LikeInAnyCase => ilike_bpchar(a, pattern),
        Matching::NotLikeInAnyCase => nilike_bpchar(a, pattern),
    }
}

fn measured_text(word: Measure, a: &str) -> usize
    ensures { result ≡ measured word a.now }
{
    match word {
        Measure::Length => length_text(a),
        Measure::OctetLength => octet_length_text(a),
    }
}

fn measured_padded(word: Measure, a: &str) -> usize
    ensures { result ≡ padded_measured word a.now }
{
    match word {
        Measure::Length => length_bpchar(a),
        Measure::OctetLength => octet_length_bpchar(a),
    }
}

// ---- calls

fn call_compare(word: Comparison, args: &[Value]) -> Result<Value, EvalError>
    ensures { result ≡ of_texts (TextOperation.Compare word) args.now }
{
    let [first, second] = args else {
        return Err(EvalError::Limit);
    };
    match (text(first), text(second)) {
        (Some(a), Some(b)) => Ok(Value::Bool(compare(word, a, b))),
        _ => Err(EvalError::Limit),
    }
}

fn call_compare_padded(word: Comparison, args: &[Value]) -> Result<Value, EvalError>
    ensures { result ≡ of_texts (TextOperation.ComparePadded word) args.now }
{
    let [first, second] = args else {
        return Err(EvalError::Limit);
    };
    match (pad(first), pad(second)) {
        (Some(a), Some(b)) => Ok(Value::Bool(compare_padded(word, a, b))),
        _ => Err(EvalError::Limit),
    }
}

fn call_match(word: Matching, args: &[Value]) -> Result<Value, EvalError>
    ensures { result ≡ of_texts (TextOperation.Match word) args.now }
{
    let [first, second] = args else {
        return Err(EvalError::Limit);
    };
    match (text(first), text(second)) {
        (Some(a), Some(pattern)) => Ok(Value::Bool(matches(word, a, pattern)?)),
        _ => Err(EvalError::Limit),
    }
}

fn call_match_padded(word: Matching, args: &[Value]) -> Result<Value, EvalError>
    ensures { result ≡ of_texts (TextOperation.MatchPadded word) args.now }
{
    let [first, second] = args else {
        return Err(EvalError::Limit);
    };
    match (pad(first), text(second)) {
        (Some(a), Some(pattern)) => Ok(Value::Bool(matches_padded(word, a, pattern)?)),
        _ => Err(EvalError::Limit),
    }
}

fn call_measure(word: Measure, args: &[Value]) -> Result<Value, EvalError>
    ensures { result ≡ of_texts (TextOperation.Measure word) args.now }
{
    let [only] = args else {
        return Err(EvalError::Limit);
    };
    match text(only) {
        Some(a) => count(measured_text(word, a)),
        None => Err(EvalError::Limit),
    }
}

fn call_measure_padded(word: Measure, args: &[Value]) -> Result<Value, EvalError>
    ensures { result ≡ of_texts (TextOperation.MeasurePadded word) args.now }
{
    let [only] = args else {
        return Err(EvalError::Limit);
    };
    match pad(only) {
        Some(a) => count(measured_padded(word, a)),
        None => Err(EvalError::Limit),
    }
}

fn call_place(args: &[Value]) -> Result<Value, EvalError>
    ensures { result ≡ of_texts TextOperation.Place args.now }
{
    let [first, second] = args else {
        return Err(EvalError::Limit);
    };
    match (text(first), text(second)) {
        (Some(a), Some(part)) => count(strpos_text(a, part)),
        _ => Err(EvalError::Limit),
    }
}

fn call_starts_with(args: &[Value]) -> Result<Value, EvalError>
    ensures { result ≡ of_texts TextOperation.StartsWith args.now }
{
    let [first, second] = args else {
        return Err(EvalError::Limit);
    };
    match (text(first), text(second)) {
        (Some(a), Some(part)) => Ok(Value::Bool(starts_with(a, part))),
        _ => Err(EvalError::Limit),
    }
}

fn call_first_code(args: &[Value]) -> Result<Value, EvalError>
    ensures { result ≡ of_texts TextOperation.FirstCode args.now }
{
    let [only] = args else {
        return Err(EvalError::Limit);
    };
    match text(only) {
        Some(a) => Ok(Value::Int(i64::from(ascii(a)))),
        None => Err(EvalError::Limit),
    }
}

/// What the operation gives of these values.
pub fn call_text(operation: TextOperation, args: &[Value]) -> Result<Value, EvalError>
    ensures { result ≡ of_texts operation args.now }
{
    match operation {
        TextOperation::Compare(word) => call_compare(word, args),
        TextOperation::ComparePadded(word) => call_compare_padded(word, args),
        TextOperation::Match(word) => call_match(word, args),
        TextOperation::MatchPadded(word) => call_match_padded(word, args),
        TextOperation::Measure(word) => call_measure(word, args),
        TextOperation::MeasurePadded(word) => call_measure_padded(word, args),
        TextOperation::Place => call_place(args),
        TextOperation::StartsWith => call_starts_with(args),
        TextOperation::FirstCode => call_first_code(args),
    }
}
