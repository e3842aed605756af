//! The limits on the elements and the bytes of an array.
ghost use Rattle.std.specs.Prelude.{◌≡◌, ◌-◌, ◌^◌, ◌&&◌, if◌then◌else◌, min, nat_le, sum_by, Ok, Err};
ghost use Rattle.xp_characters.specs.Faults.{too_large};
ghost use Rattle.xp_value.specs.Representation.{byte_count};

use xp_base::{ELEMENT_LIMIT, EvalError, VALUE_LIMIT};
use xp_characters::TextFault;
use xp_value::Value;

/// How many bytes, or the greatest number where there are more.
#[cycle(bytes)]
#[tactic(auto, using(crate::proofs::Bytes::array_bytes))]
pub fn bytes_of(value: &Value) -> usize
    ensures { result ≡ min (byte_count value.now) (2 ^ 64 - 1) }
{
    match value {
        Value::Text(text) | Value::Pad(text) | Value::Opaque(text) => text.as_str().len(),
        Value::Bytes(bytes) => bytes.as_slice().len(),
        Value::Arr(elements) => bytes_of_all(elements.as_slice()),
        _ => 0,
    }
}

/// How many bytes the values have together, or the greatest number where there are more.
#[cycle(bytes)]
pub fn bytes_of_all(values: &[Value]) -> usize
    ensures { result ≡ min (sum_by byte_count values.now) (2 ^ 64 - 1) }
{
    let mut bytes: usize = 0;
    for value in values {
        bytes = bytes.saturating_add(bytes_of(value));
    }
    bytes
}

/// Refuses more elements, or more bytes, than a value may have.
pub fn check_array(elements: usize, bytes: usize) -> Result<(), TextFault>
    ensures { result ≡ (if nat_le elements ELEMENT_LIMIT && nat_le bytes VALUE_LIMIT then Ok tt else Err too_large) }
{
    if elements <= ELEMENT_LIMIT as usize && bytes <= VALUE_LIMIT as usize {
        Ok(())
    } else {
        Err(TextFault::Raised(EvalError::Limit))
    }
}
