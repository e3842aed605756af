//! Arrays made of arrays.
ghost use Rattle.std.specs.Prelude.{◌≡◌, ◌-◌, ◌^◌, ◌∷◌, [], ◌++◌, IfOk, OnOk, min, option_copied, option_map, sum_by};
ghost use Rattle.xp_value.specs.Representation.{byte_count};
ghost use Rattle.xp_base.specs.OrMemory.{OrMemory};
ghost use Rattle.xp_characters.specs.Faults.{is_memory};
ghost use Rattle.xp_array.specs.Made.{append, cat, or_empty as or_empty_of, prepend, removed, replace, replaced, trimmed};

use crate::limits::{bytes_of, bytes_of_all, check_array};
use sqlite_items::Items;
use std::alloc::Global;
use xp_base::{EvalError, Memory};
use xp_characters::TextFault;
use xp_value::{Array, Value, copy_all, same};

/// The elements, none where the array is null.
fn or_empty(a: Option<&[Value]>) -> &[Value]
    ensures { result.now ≡ or_empty_of (option_copied a.entry) }
{
    match a {
        Some(elements) => elements,
        None => &[],
    }
}

/// Adds copies of the values.
fn put_all(alloc: Global, out: &mut Array, values: &[Value]) -> Result<(), Memory>
    ensures { OnOk result (out.new ≡ out.old ++ values.now) }
{
    for value in values {
        let copied = value.copy(alloc)?;
        out.push(copied)?;
    }
    Ok(())
}

/// Copies of the values of two lists, one behind the other.
fn joined(alloc: Global, front: &[Value], back: &[Value]) -> Result<Array, Memory>
    ensures { IfOk result (λ array. array ≡ front.now ++ back.now) }
{
    let mut array = copy_all(alloc, front)?;
    put_all(alloc, &mut array, back)?;
    Ok(array)
}

/// The array with one element more at its end. A null array is empty.
pub fn array_append(alloc: Global, a: Option<&[Value]>, element: &Value) -> Result<Array, TextFault>
    ensures value { OrMemory is_memory (append (option_copied a.entry) element.now) result }
{
    let elements = or_empty(a);
    let bytes = bytes_of_all(elements).saturating_add(bytes_of(element));
    check_array(elements.len() + 1, bytes)?;
    let mut array = copy_all(alloc, elements)?;
    let copied = element.copy(alloc)?;
    array.push(copied)?;
    Ok(array)
}

/// The array with one element more before its first. A null array is empty.
pub fn array_prepend(
    alloc: Global,
    element: &Value,
    a: Option<&[Value]>,
) -> Result<Array, TextFault>
    ensures value { OrMemory is_memory (prepend element.now (option_copied a.entry)) result }
{
    let elements = or_empty(a);
    let bytes = bytes_of(element).saturating_add(bytes_of_all(elements));
    check_array(elements.len() + 1, bytes)?;
    let mut array = Items::new(alloc);
    let copied = element.copy(alloc)?;
    array.push(copied)?;
    put_all(alloc, &mut array, elements)?;
    Ok(array)
}

/// The elements of both, those of the first before those of the second. A null array is as if it
/// were absent; two of them give null.
pub fn array_cat(
    alloc: Global,
    a: Option<&[Value]>,
    b: Option<&[Value]>,
) -> Result<Option<Array>, TextFault>
    ensures value { OrMemory is_memory (cat (option_copied a.entry) (option_copied b.entry)) result }
{
    if a.is_none() && b.is_none() {
        return Ok(None);
    }
    let front = or_empty(a);
    let back = or_empty(b);
    let bytes = bytes_of_all(front).saturating_add(bytes_of_all(back));
    check_array(front.len().saturating_add(back.len()), bytes)?;
    let array = joined(alloc, front, back)?;
    Ok(Some(array))
}

/// Copies of the elements that aren't this value.
fn without(alloc: Global, elements: &[Value], value: &Value) -> Result<Array, Memory>
    ensures { IfOk result (λ array. array ≡ removed elements.now value.now) }
{
    let mut array = Items::new(alloc);
    for element in elements {
        if !same(element, value) {
            let copied = element.copy(alloc)?;
            array.push(copied)?;
        }
    }
    Ok(array)
}

/// The array without the elements that are this value; null where the array is.
pub fn array_remove(
    alloc: Global,
    a: Option<&[Value]>,
    value: &Value,
) -> Result<Option<Array>, Memory>
    ensures value { IfOk result (λ array. array ≡ option_map (λ elements. removed elements value.now) (option_copied a.entry)) }
{
    match a {
        Some(elements) => {
            let array = without(alloc, elements, value)?;
            Ok(Some(array))
        }
        None => Ok(None),
    }
}

/// Copies of the elements, in the place of those that are `old` copies of `new`.
fn exchanged(alloc: Global, elements: &[Value], old: &Value, new: &Value) -> Result<Array, Memory>
    ensures { IfOk result (λ array. array ≡ replaced elements.now old.now new.now) }
{
    let mut array = Items::new(alloc);
    for element in elements {
        let kept = if same(element, old) { new } else { element };
        let copied = kept.copy(alloc)?;
        array.push(copied)?;
    }
    Ok(array)
}

/// How many bytes the elements have then, or the greatest number where there are more.
fn bytes_exchanged(elements: &[Value], old: &Value, new: &Value) -> usize
    ensures { result ≡ min (sum_by byte_count (replaced elements.now old.now new.now)) (2 ^ 64 - 1) }
{
    let mut bytes: usize = 0;
    for element in elements {
        let kept = if same(element, old) { new } else { element };
        bytes = bytes.saturating_add(bytes_of(kept));
    }
    bytes
}

/// The array with each element that is `old` replaced by `new`; null where the array is.
pub fn array_replace(
    alloc: Global,
    a: Option<&[Value]>,
    old: &Value,
    new: &Value,
) -> Result<Option<Array>, TextFault>
    ensures value { OrMemory is_memory (replace (option_copied a.entry) old.now new.now) result }
{
    let Some(elements) = a else {
        return Ok(None);
    };
    check_array(elements.len(), bytes_exchanged(elements, old, new))?;
    let array = exchanged(alloc, elements, old, new)?;
    Ok(Some(array))
}

/// The array without its last n elements.
pub fn trim_array(alloc: Global, a: &[Value], n: i32) -> Result<Array, TextFault>
    ensures value { OrMemory is_memory (trimmed a.now n) result }
{
    if n < 0 || n as usize > a.len() {
        return Err(TextFault::Raised(EvalError::BadSubscript));
    }
    let array = copy_all(alloc, &a[..a.len() - n as usize])?;
    Ok(array)
}
