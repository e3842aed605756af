//! Values that nodes give without a call.
ghost use Rattle.std.specs.Prelude.{◌≡◌, IfOk, Ok, slice_get, unwrap_or};
ghost use Rattle.xp_meaning.specs.Nodes.{relabelled, text_in};
ghost use Rattle.xp_meaning.specs.Truth.{has_null};
ghost use Rattle.xp_value.specs.Null.{is_null};

use std::alloc::Global;
use xp_base::{Memory, Txt};
use xp_value::{Rep, Value};

/// The value of the column of that number, and null where the row has none.
pub fn column(alloc: Global, row: &[Value], number: u32) -> Result<Value, Memory>
    ensures { IfOk result (λ v. v ≡ unwrap_or (slice_get row.now number) Value.Null) }
{
    match row.get(number as usize) {
        Some(value) => value.copy(alloc),
        None => Ok(Value::Null),
    }
}

/// The text in a representation of texts.
pub fn text_in(rep: Rep, text: Txt) -> Value
    ensures { result ≡ text_in rep text }
{
    match rep {
        Rep::Pad => Value::Pad(text),
        _ => Value::Text(text),
    }
}

/// A text in another representation of texts; any other value stays.
pub fn relabel(rep: Rep, value: Value) -> Value
    ensures { result ≡ relabelled rep value }
{
    match value {
        Value::Text(text) => text_in(rep, text),
        Value::Pad(text) => text_in(rep, text),
        other => other,
    }
}

pub fn is_null(value: &Value) -> bool
    ensures { result ≡ is_null value.now }
{
    matches!(value, Value::Null)
}

/// Whether one of the values is null.
#[tactic(auto, using(xp_base::proofs::Lists::drop_one, xp_base::proofs::Lists::drop_none))]
pub fn has_null(values: &[Value]) -> bool
    ensures { result ≡ has_null values.now }
{
    for value in values {
        if is_null(value) {
            return true;
        }
    }
    false
}
