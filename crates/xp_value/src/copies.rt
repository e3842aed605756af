//! Copies.
ghost use Rattle.std.specs.Prelude.{◌≡◌, IfOk};

use crate::value::{Array, Value};
use sqlite_items::Items;
use std::alloc::Global;
use xp_base::{Byts, Memory, Txt};

impl Value {
    /// An equal value.
    #[cycle(copy)]
    pub fn copy(&self, alloc: Global) -> Result<Value, Memory>
        ensures { IfOk result (λ v. v ≡ self.now) }
    {
        match self {
            Value::Null => Ok(Value::Null),
            Value::Bool(truth) => Ok(Value::Bool(*truth)),
            Value::Int(number) => Ok(Value::Int(*number)),
            Value::Num(number) => Ok(Value::Num(*number)),
            Value::Text(text) => Ok(Value::Text(Txt::from_str(alloc, text.as_str())?)),
            Value::Pad(text) => Ok(Value::Pad(Txt::from_str(alloc, text.as_str())?)),
            Value::Bytes(bytes) => {
                let mut copied = Byts::new(alloc);
                copied.append(bytes.as_slice())?;
                Ok(Value::Bytes(copied))
            }
            Value::Day(day) => Ok(Value::Day(*day)),
            Value::Arr(elements) => Ok(Value::Arr(copy_all(alloc, elements.as_slice())?)),
            Value::Rng(range) => Ok(Value::Rng(*range)),
            Value::Opaque(text) => Ok(Value::Opaque(Txt::from_str(alloc, text.as_str())?)),
        }
    }
}

/// Copies of the values of a list, in their order.
#[cycle(copy)]
pub fn copy_all(alloc: Global, values: &[Value]) -> Result<Array, Memory>
    ensures { IfOk result (λ copies. copies ≡ values.now) }
{
    let mut copies = Items::new(alloc);
    'values: for value in values {
        let copied = value.copy(alloc)?;
        copies.push(copied)?;
    }
    Ok(copies)
}
