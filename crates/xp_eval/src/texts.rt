//! Values as texts, and texts as values.
ghost use Rattle.std.specs.Prelude.{◌≡◌};
ghost use Rattle.xp_call.specs.Calls.{Calls};
ghost use Rattle.xp_meaning.specs.Nodes.{characters, limited, output_of, text_in, unless_null};
ghost use Rattle.xp_tree.specs.Typed.{shape_of};
ghost use Rattle.xp_eval.specs.Real.{real};

use crate::columns::{is_null, text_in};
use std::alloc::Global;
use xp_base::{EvalError, Txt, VALUE_LIMIT};
use xp_call::CallFault;
use xp_io::{InFault, read_text, text_of};
use xp_tree::NodeType;
use xp_value::{Rep, Value};

/// The text as a value, which may be no longer than values are.
pub fn limited_text(rep: Rep, text: Txt) -> Result<Value, EvalError>
    ensures { result ≡ limited (text_in rep text) }
{
    if text.as_str().len() > VALUE_LIMIT as usize {
        return Err(EvalError::Limit);
    }
    Ok(text_in(rep, text))
}

/// The text of the value; null stays null.
#[tactic(auto, unfolding(crate::specs::Real::real))]
pub fn output(alloc: Global, rep: Rep, value: &Value) -> Result<Value, CallFault>
    ensures { Calls (unless_null (output_of real rep) value.now) result }
{
    if is_null(value) {
        return Ok(Value::Null);
    }
    let text = text_of(alloc, value)?;
    limited_text(rep, text).map_err(CallFault::Raised)
}

/// The characters of a text.
fn characters(value: &Value) -> &str
    ensures { result.now ≡ characters value.now }
{
    match value {
        Value::Text(text) | Value::Pad(text) => text.as_str(),
        _ => "",
    }
}

/// The value of the type whose text the value is; null stays null.
#[tactic(auto, using(crate::proofs::Reading::read_ok, crate::proofs::Reading::read_err))]
pub fn input(alloc: Global, ty: NodeType, value: &Value) -> Result<Value, CallFault>
    ensures { Calls (unless_null (λ x. real.read (shape_of ty) (characters x)) value.now) result }
{
    if is_null(value) {
        return Ok(Value::Null);
    }
    match read_text(alloc, ty.rep, characters(value).as_bytes()) {
        Ok(value) => Ok(value),
        Err(InFault::Bad(error)) => Err(CallFault::Raised(error)),
        Err(InFault::Memory) => Err(CallFault::Memory),
    }
}
