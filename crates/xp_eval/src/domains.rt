//! What a domain takes (manual CREATE DOMAIN).
ghost use Rattle.xp_call.specs.Calls.{Calls};
ghost use Rattle.xp_meaning.specs.Nodes.{checked_by, kept_not_null};

use crate::columns::is_null;
use crate::truths::is_false;
use xp_base::EvalError;
use xp_call::CallFault;
use xp_value::Value;

/// The value, which a NOT NULL domain takes only where it isn't null.
pub fn kept_not_null(not_null: bool, value: Value) -> Result<Value, CallFault>
    ensures { Calls (kept_not_null not_null value) result }
{
    if not_null && is_null(&value) {
        return Err(CallFault::Raised(EvalError::NotNull));
    }
    Ok(value)
}

/// The value, unless its check is false.
pub fn checked_by(value: Value, check: &Value) -> Result<Value, CallFault>
    ensures { Calls (checked_by value check.now) result }
{
    if is_false(check) {
        return Err(CallFault::Raised(EvalError::Check));
    }
    Ok(value)
}
