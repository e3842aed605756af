//! Values that are chosen by comparing them (manual 9.2, 9.18).
ghost use Rattle.std.specs.Prelude.{◌≡◌};
ghost use Rattle.xp_call.specs.Calls.{Calls};
ghost use Rattle.xp_meaning.specs.Nodes.{distinct_of, kept_of, null_if_of};
ghost use Rattle.xp_eval.specs.Real.{real};
ghost use Rattle.xp_eval.specs.inner.Choices.{wins};

use crate::calls::call_callee;
use crate::columns::is_null;
use crate::truths::is_true;
use std::alloc::Global;
use std::cmp::Ordering;
use std::mem::replace;
use xp_call::CallFault;
use xp_tree::Callee;
use xp_value::{Value, order};

/// Null where the two are equal by the operator's body, and else the first.
pub fn null_if(alloc: Global, callee: &Callee, x: Value, y: Value) -> Result<Value, CallFault>
    ensures { Calls (null_if_of real callee.now x y) result }
{
    let mut values = [x, y];
    let equal = call_callee(alloc, callee, &values)?;
    if is_true(&equal) {
        return Ok(Value::Null);
    }
    Ok(replace(&mut values[0], Value::Null))
}

/// Whether the two differ, nulls being alike and unlike any other value.
pub fn distinct(alloc: Global, callee: &Callee, x: Value, y: Value) -> Result<Value, CallFault>
    ensures { Calls (distinct_of real callee.now x y) result }
{
    if is_null(&x) {
        return Ok(Value::Bool(!is_null(&y)));
    }
    if is_null(&y) {
        return Ok(Value::Bool(true));
    }
    let equal = call_callee(alloc, callee, &[x, y])?;
    Ok(Value::Bool(!is_true(&equal)))
}

/// Whether a value that is so ordered to the one that is kept takes its place.
fn wins(greatest: bool, order: Ordering) -> bool
    ensures { result ≡ wins greatest order }
{
    match order {
        Ordering::Greater => greatest,
        Ordering::Less => !greatest,
        Ordering::Equal => false,
    }
}

/// The greater of the two, or the less; nulls are left out, and of two alike the first is kept.
pub fn kept(greatest: bool, kept: Value, next: Value) -> Value
    ensures { result ≡ kept_of (wins greatest) kept next }
{
    if is_null(&next) {
        return kept;
    }
    if is_null(&kept) || wins(greatest, order(&next, &kept)) {
        return next;
    }
    kept
}
