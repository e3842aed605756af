//! The order of values, and when two are the same.
ghost use Rattle.std.specs.Prelude.{◌≡◌, ◌↔◌, IsTrue, false};
ghost use Rattle.std.specs.Cmp.Lexicographic.{slice_cmp};
ghost use Rattle.std.specs.Ordering.{int_cmp, is_gt, ordering_reverse};
ghost use Rattle.xp_value.specs.Order.{is_same, kind as kind_of, lower_order, range_order, units, unpadded as unpadded_of, upper_order, value_order};
ghost use Rattle.xp_value.specs.declared.value.Value.{Value};

use crate::numbers::order_sizes;
use crate::value::{Range, Value};
use std::cmp::Ordering;
use xp_base::Dec;

/// The order of two values: of numbers by value, of texts by bytes, of padded texts without the
/// spaces at their ends, of arrays by their elements and then their lengths. Null comes last.
#[cycle(order)]
#[tactic(auto, using(crate::proofs::Rows::order_of_arrays))]
pub fn order(a: &Value, b: &Value) -> Ordering
    ensures { result ≡ value_order a.now b.now }
{
    match (a, b) {
        (Value::Bool(x), Value::Bool(y)) => x.cmp(y),
        (Value::Int(x), Value::Int(y)) => x.cmp(y),
        (Value::Num(x), Value::Num(y)) => order_numbers(x, y),
        (Value::Text(x), Value::Text(y)) => x.as_str().cmp(y.as_str()),
        (Value::Pad(x), Value::Pad(y)) => unpadded(x.as_str()).cmp(unpadded(y.as_str())),
        (Value::Bytes(x), Value::Bytes(y)) => x.as_slice().cmp(y.as_slice()),
        (Value::Day(x), Value::Day(y)) => x.cmp(y),
        (Value::Arr(xs), Value::Arr(ys)) => order_all(xs.as_slice(), ys.as_slice()),
        (Value::Rng(x), Value::Rng(y)) => order_ranges(*x, *y),
        (Value::Opaque(x), Value::Opaque(y)) => x.as_str().cmp(y.as_str()),
        _ => kind(a).cmp(&kind(b)),
    }
}

/// The order of two lists of values, by their elements and then their lengths.
#[cycle(order)]
#[tactic(auto, using(crate::proofs::Elements::order_from, crate::proofs::Elements::order_past_second, crate::proofs::Elements::order_past_first))]
pub fn order_all(xs: &[Value], ys: &[Value]) -> Ordering
    ensures { result ≡ slice_cmp value_order xs.now ys.now }
{
    for (i, x) in xs.iter().enumerate() {
        let Some(y) = ys.get(i) else {
            return Ordering::Greater;
        };
        match order(x, y) {
            Ordering::Equal => {}
            other => return other,
        }
    }
    xs.len().cmp(&ys.len())
}

/// The two are the same value: `order` tells them apart in no way.
pub fn same(a: &Value, b: &Value) -> bool
    ensures value { result ≡ is_same a.now b.now }
    ensures equal { IsTrue result ↔ (value_order a.now b.now ≡ Ordering.Equal) }
{
    order(a, b) == Ordering::Equal
}

/// `order` is a total order, which orders alike what `same` holds of.
pub fn order_is_total()
    ensures reflexive { (a : Value) → value_order a a ≡ Ordering.Equal }
    ensures total { (a b : Value) → value_order a b ≡ ordering_reverse (value_order b a) }
    ensures transitive { (a b c : Value) → is_gt (value_order a b) ≡ false → is_gt (value_order b c) ≡ false → is_gt (value_order a c) ≡ false }
    ensures alike { (a b c : Value) → value_order a b ≡ Ordering.Equal → value_order a c ≡ value_order b c }
{}

/// The place of the value's kind among the kinds.
fn kind(value: &Value) -> u8
    ensures { result ≡ kind_of value.now }
{
    match value {
        Value::Bool(_) => 0,
        Value::Int(_) => 1,
        Value::Num(_) => 2,
        Value::Text(_) => 3,
        Value::Pad(_) => 4,
        Value::Bytes(_) => 5,
        Value::Day(_) => 6,
        Value::Arr(_) => 7,
        Value::Rng(_) => 8,
        Value::Opaque(_) => 9,
        Value::Null => 10,
    }
}

/// The order of two numbers, whatever their scales.
#[tactic(auto, using(crate::proofs::Signs::negative_first, crate::proofs::Signs::negative_second))]
pub fn order_numbers(x: &Dec, y: &Dec) -> Ordering
    ensures { result ≡ int_cmp (units x.now) (units y.now) }
{
    match (x.neg, y.neg) {
        (false, false) => order_sizes(x, y),
        (true, true) => order_sizes(y, x),
        (false, true) => Ordering::Greater,
        (true, false) => Ordering::Less,
    }
}

/// The text without the spaces at its end.
#[tactic(auto, using(crate::proofs::Padding::unpadded_trimmed))]
pub fn unpadded(text: &str) -> &str
    ensures { result.now ≡ unpadded_of text.now }
{
    text.trim_end_matches(' ')
}

fn order_ranges(x: Range, y: Range) -> Ordering
    ensures { result ≡ range_order x y }
{
    match (x, y) {
        (Range::Empty { .. }, Range::Empty { .. }) => Ordering::Equal,
        (Range::Empty { .. }, Range::Bounds { .. }) => Ordering::Less,
        (Range::Bounds { .. }, Range::Empty { .. }) => Ordering::Greater,
        (
            Range::Bounds { lower, upper, .. },
            Range::Bounds {
                lower: other_lower,
                upper: other_upper,
                ..
            },
        ) => order_lower(lower, other_lower).then(order_upper(upper, other_upper)),
    }
}

fn order_lower(x: Option<i64>, y: Option<i64>) -> Ordering
    ensures { result ≡ lower_order x y }
{
    x.cmp(&y)
}

fn order_upper(x: Option<i64>, y: Option<i64>) -> Ordering
    ensures { result ≡ upper_order x y }
{
    match (x, y) {
        (None, None) => Ordering::Equal,
        (None, Some(_)) => Ordering::Greater,
        (Some(_), None) => Ordering::Less,
        (Some(x), Some(y)) => x.cmp(&y),
    }
}
