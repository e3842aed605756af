//! What the bodies of date do (manual 9.9).
ghost use Rattle.std.specs.Prelude.{◌≡◌, true};
ghost use Rattle.std.specs.Ordering.{int_cmp};
ghost use Rattle.xp_base.specs.FromLeft.{and_then};
ghost use Rattle.xp_date.specs.Fields.{extracted};
ghost use Rattle.xp_numeric.specs.Numbers.{made};
ghost use Rattle.xp_value.specs.Representation.{is_date};
ghost use Rattle.xp_call.specs.Arguments.{date, holds};
ghost use Rattle.xp_call.specs.Dates.{of_dates};
ghost use Rattle.xp_call.specs.inner.Places as places;

use crate::arguments::{day, int4, text};
use crate::operations::{Comparison, comparison_word};
use xp_base::{Dec, EvalError};
use xp_date::{
    add_date_int4, add_int4_date, eq_date, extract, ge_date, gt_date, le_date, lt_date, make_date,
    ne_date, sub_date_date, sub_date_int4,
};
use xp_value::Value;

/// What a body over dates does. A count is an int4, of days.
#[derive(Clone, Copy, Debug, PartialEq, Eq)]
pub enum DateOperation {
    Compare(Comparison),
    DayPlusCount,
    CountPlusDay,
    DayMinusCount,
    DaysBetween,
    /// Of a year, a month and a day of the month.
    Make,
    /// A field by its name.
    Extract,
}

/// What the body at this place among those of dates does.
pub fn date_at(place: u32) -> DateOperation
    ensures { result ≡ places.date_at place }
{
    match place {
        0..6 => DateOperation::Compare(comparison_word(place)),
        6 => DateOperation::DayPlusCount,
        7 => DateOperation::CountPlusDay,
        8 => DateOperation::DayMinusCount,
        9 => DateOperation::DaysBetween,
        10 => DateOperation::Make,
        _ => DateOperation::Extract,
    }
}

fn compare(word: Comparison, a: i32, b: i32) -> bool
    ensures { result ≡ holds word (int_cmp a b) }
{
    match word {
        Comparison::Equal => eq_date(a, b),
        Comparison::NotEqual => ne_date(a, b),
        Comparison::Less => lt_date(a, b),
        Comparison::AtMost => le_date(a, b),
        Comparison::Greater => gt_date(a, b),
        Comparison::AtLeast => ge_date(a, b),
    }
}

/// A day, or the error.
fn day_or_error(day: Result<i32, EvalError>) -> Result<Value, EvalError>
    ensures { result ≡ date day }
{
    match day {
        Ok(day) => Ok(Value::Day(day)),
        Err(error) => Err(error),
    }
}

fn call_compare(word: Comparison, args: &[Value]) -> Result<Value, EvalError>
    ensures { result ≡ of_dates (DateOperation.Compare word) args.now }
{
    let [first, second] = args else {
        return Err(EvalError::Limit);
    };
    match (day(first), day(second)) {
        (Some(a), Some(b)) => Ok(Value::Bool(compare(word, a, b))),
        _ => Err(EvalError::Limit),
    }
}

fn call_day_plus_count(args: &[Value]) -> Result<Value, EvalError>
    ensures { result ≡ of_dates DateOperation.DayPlusCount args.now }
{
    let [first, second] = args else {
        return Err(EvalError::Limit);
    };
    match (day(first), int4(second)) {
        (Some(day), Some(n)) => day_or_error(add_date_int4(day, n)),
        _ => Err(EvalError::Limit),
    }
}

fn call_count_plus_day(args: &[Value]) -> Result<Value, EvalError>
    ensures { result ≡ of_dates DateOperation.CountPlusDay args.now }
{
    let [first, second] = args else {
        return Err(EvalError::Limit);
    };
    match (int4(first), day(second)) {
        (Some(n), Some(day)) => day_or_error(add_int4_date(n, day)),
        _ => Err(EvalError::Limit),
    }
}

fn call_day_minus_count(args: &[Value]) -> Result<Value, EvalError>
    ensures { result ≡ of_dates DateOperation.DayMinusCount args.now }
{
    let [first, second] = args else {
        return Err(EvalError::Limit);
    };
    match (day(first), int4(second)) {
        (Some(day), Some(n)) => day_or_error(sub_date_int4(day, n)),
        _ => Err(EvalError::Limit),
    }
}

fn call_days_between(args: &[Value]) -> Result<Value, EvalError>
    ensures { result ≡ of_dates DateOperation.DaysBetween args.now }
{
    let [first, second] = args else {
        return Err(EvalError::Limit);
    };
    match (day(first), day(second)) {
        (Some(a), Some(b)) => Ok(Value::Int(i64::from(sub_date_date(a, b)))),
        _ => Err(EvalError::Limit),
    }
}

fn call_make(args: &[Value]) -> Result<Value, EvalError>
    ensures { result ≡ of_dates DateOperation.Make args.now }
{
    let [first, second, third] = args else {
        return Err(EvalError::Limit);
    };
    match (int4(first), int4(second), int4(third)) {
        (Some(year), Some(month), Some(day)) => day_or_error(make_date(year, month, day)),
        _ => Err(EvalError::Limit),
    }
}

/// The number of the field as a numeric.
fn field_of(field: &str, day: i32) -> Result<Dec, EvalError>
    requires { is_date day ≡ true }
    ensures { result ≡ and_then (extracted field.now day) (λ z. made z 0) }
{
    extract(field.as_bytes(), day)
}

fn call_extract(args: &[Value]) -> Result<Value, EvalError>
    ensures { result ≡ of_dates DateOperation.Extract args.now }
{
    let [first, second] = args else {
        return Err(EvalError::Limit);
    };
    match (text(first), day(second)) {
        (Some(field), Some(day)) => Ok(Value::Num(field_of(field, day)?)),
        _ => Err(EvalError::Limit),
    }
}

/// What the operation gives of these values.
pub fn call_date(operation: DateOperation, args: &[Value]) -> Result<Value, EvalError>
    ensures { result ≡ of_dates operation args.now }
{
    match operation {
        DateOperation::Compare(word) => call_compare(word, args),
        DateOperation::DayPlusCount => call_day_plus_count(args),
        DateOperation::CountPlusDay => call_count_plus_day(args),
        DateOperation::DayMinusCount => call_day_minus_count(args),
        DateOperation::DaysBetween => call_days_between(args),
        DateOperation::Make => call_make(args),
        DateOperation::Extract => call_extract(args),
    }
}
