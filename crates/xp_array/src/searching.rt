//! Searches for values in arrays.
ghost use Rattle.std.specs.Prelude.{◌≡◌, ◌≤◌, IfOk, IfSome, length, option_and_then, option_copied, option_map};
ghost use Rattle.std.specs.List.{list_any};
ghost use Rattle.xp_array.specs.Searched.{contains as contains_of, is_in as is_in_of, overlaps as overlaps_of, position, positions};
ghost use Rattle.xp_value.specs.Null.{is_null as is_null_of};
ghost use Rattle.xp_value.specs.Order.{is_same};

use sqlite_items::Items;
use std::alloc::Global;
use xp_base::Memory;
use xp_value::{Array, Value, same};

fn is_null(value: &Value) -> bool
    ensures { result ≡ is_null_of value.now }
{
    matches!(value, Value::Null)
}

/// Whether an element is the value.
fn has(elements: &[Value], value: &Value) -> bool
    ensures { result ≡ list_any (λ element. is_same element value.now) elements.now }
{
    elements.iter().any(|element| same(element, value))
}

/// Whether the value is in the array; a null is in nothing.
fn is_in(elements: &[Value], value: &Value) -> bool
    ensures { result ≡ is_in_of elements.now value.now }
{
    !is_null(value) && has(elements, value)
}

/// Whether every element of the second is in the first.
pub fn contains(a: &[Value], b: &[Value]) -> bool
    ensures { result ≡ contains_of a.now b.now }
{
    b.iter().all(|value| is_in(a, value))
}

/// Whether every element of the first is in the second.
pub fn contained(a: &[Value], b: &[Value]) -> bool
    ensures { result ≡ contains_of b.now a.now }
{
    contains(b, a)
}

/// Whether they have an element in common.
pub fn overlaps(a: &[Value], b: &[Value]) -> bool
    ensures { result ≡ overlaps_of a.now b.now }
{
    b.iter().any(|value| is_in(a, value))
}

/// The place of the first element that is the value.
fn first_place(elements: &[Value], value: &Value) -> Option<usize>
    ensures { result ≡ position elements.now value.now }
{
    for (i, element) in elements.iter().enumerate() {
        if same(element, value) {
            return Some(i + 1);
        }
    }
    None
}

/// The place of the first element that is the value, which counts from 1; null where there is none,
/// and where the array is null.
pub fn array_position(a: Option<&[Value]>, value: &Value) -> Option<usize>
    ensures { result ≡ option_and_then (λ elements. position elements value.now) (option_copied a.entry) }
{
    match a {
        Some(elements) => first_place(elements, value),
        None => None,
    }
}

/// The places of the elements that are the value.
fn places(alloc: Global, elements: &[Value], value: &Value) -> Result<Array, Memory>
    ensures { IfOk result (λ places. places ≡ positions elements.now value.now) }
{
    let mut places = Items::new(alloc);
    for (i, element) in elements.iter().enumerate() {
        if same(element, value) {
            places.push(Value::Int(i as i64 + 1))?;
        }
    }
    Ok(places)
}

/// The places of all elements that are the value, which count from 1; null where the array is.
pub fn array_positions(
    alloc: Global,
    a: Option<&[Value]>,
    value: &Value,
) -> Result<Option<Array>, Memory>
    ensures value { IfOk result (λ places. places ≡ option_map (λ elements. positions elements value.now) (option_copied a.entry)) }
{
    match a {
        Some(elements) => {
            let found = places(alloc, elements, value)?;
            Ok(Some(found))
        }
        None => Ok(None),
    }
}
