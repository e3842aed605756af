//! What the functions of texts answer, as values.
ghost use Rattle.std.specs.Prelude.{◌≡◌};
ghost use Rattle.xp_call.specs.Arguments.{count};
ghost use Rattle.xp_call.specs.inner.Answers as answers;

use crate::fault::CallFault;
use xp_base::{Byts, EvalError, Txt};
use xp_characters::TextFault;
use xp_value::Value;

/// A number of characters or bytes, as an int4.
pub fn count(number: usize) -> Result<Value, EvalError>
    ensures { result ≡ count number }
{
    match i32::try_from(number) {
        Ok(number) => Ok(Value::Int(i64::from(number))),
        Err(_) => Err(EvalError::OutOfRange),
    }
}

/// Why there is no text, as why there is no value.
fn fault_of(fault: TextFault) -> CallFault
    ensures { result ≡ answers.fault_of fault }
{
    match fault {
        TextFault::Raised(error) => CallFault::Raised(error),
        TextFault::Memory => CallFault::Memory,
    }
}

/// The text as a value, or why there is none.
pub fn text_value(answer: Result<Txt, TextFault>) -> Result<Value, CallFault>
    ensures { result ≡ answers.text_value answer }
{
    match answer {
        Ok(text) => Ok(Value::Text(text)),
        Err(fault) => Err(fault_of(fault)),
    }
}

/// The bytes as a value, or why there is none.
pub fn bytes_value(answer: Result<Byts, TextFault>) -> Result<Value, CallFault>
    ensures { result ≡ answers.bytes_value answer }
{
    match answer {
        Ok(bytes) => Ok(Value::Bytes(bytes)),
        Err(fault) => Err(fault_of(fault)),
    }
}
