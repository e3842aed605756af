//! Calls of a node's body.
ghost use Rattle.xp_call.specs.Calls.{Calls};
ghost use Rattle.xp_meaning.specs.Nodes.{call_of};
ghost use Rattle.xp_eval.specs.Real.{real};

use crate::columns::has_null;
use std::alloc::Global;
use xp_base::EvalError;
use xp_call::{CallFault, call};
use xp_tree::Callee;
use xp_value::Value;

/// What the call gives of its arguments; null where it is strict and one of them is null.
#[tactic(auto, unfolding(crate::specs::Real::real))]
pub fn call_callee(alloc: Global, callee: &Callee, args: &[Value]) -> Result<Value, CallFault>
    ensures { Calls (call_of real callee.now args.now) result }
{
    if callee.strict && has_null(args) {
        return Ok(Value::Null);
    }
    match callee.body {
        Some(body) => call(alloc, body, args),
        None => Err(CallFault::Raised(EvalError::Limit)),
    }
}
