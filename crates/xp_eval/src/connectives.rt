//! Nodes over two trees (manual 9.1, 9.2, 9.18).
ghost use Rattle.std.specs.Prelude.{◌≡◌, Ok, true, if◌then◌else◌};
ghost use Rattle.xp_base.specs.FromLeft.{and_then};
ghost use Rattle.xp_call.specs.Calls.{Calls, is_built};
ghost use Rattle.xp_meaning.specs.Evaluable.{is_evaluable};
ghost use Rattle.xp_meaning.specs.Meaning.{outcome};
ghost use Rattle.xp_meaning.specs.Nodes.{distinct_of, null_if_of};
ghost use Rattle.xp_meaning.specs.Truth.{and_of, is_false, is_true, or_of};
ghost use Rattle.xp_eval.specs.Real.{real};

use crate::comparisons::{distinct, null_if};
use crate::truths::{and_of, is_false, is_true, or_of};
use crate::walk::eval_given;
use std::alloc::Global;
use xp_call::CallFault;
use xp_tree::{Callee, Tree};
use xp_value::Value;

/// AND, which stops at false.
#[cycle(eval)]
#[tactic(auto, using(crate::proofs::Called::calls_stop, crate::proofs::Connected::decided, crate::proofs::Connected::second_stop, crate::proofs::Connected::connected))]
pub fn eval_and(
    alloc: Global,
    left: &Tree,
    right: &Tree,
    given: &Value,
    row: &[Value],
) -> Result<Value, CallFault>
    requires left { is_evaluable is_built left.now ≡ true }
    requires right { is_evaluable is_built right.now ≡ true }
    ensures { Calls (and_then (outcome real row.now given.now left.now) (λ x. if is_false x then Ok x else and_then (outcome real row.now given.now right.now) (λ y. Ok (and_of x y)))) result }
{
    let x = eval_given(alloc, left, given, row)?;
    if is_false(&x) {
        return Ok(x);
    }
    let y = eval_given(alloc, right, given, row)?;
    Ok(and_of(x, y))
}

/// OR, which stops at true.
#[cycle(eval)]
#[tactic(auto, using(crate::proofs::Called::calls_stop, crate::proofs::Connected::decided, crate::proofs::Connected::second_stop, crate::proofs::Connected::connected))]
pub fn eval_or(
    alloc: Global,
    left: &Tree,
    right: &Tree,
    given: &Value,
    row: &[Value],
) -> Result<Value, CallFault>
    requires left { is_evaluable is_built left.now ≡ true }
    requires right { is_evaluable is_built right.now ≡ true }
    ensures { Calls (and_then (outcome real row.now given.now left.now) (λ x. if is_true x then Ok x else and_then (outcome real row.now given.now right.now) (λ y. Ok (or_of x y)))) result }
{
    let x = eval_given(alloc, left, given, row)?;
    if is_true(&x) {
        return Ok(x);
    }
    let y = eval_given(alloc, right, given, row)?;
    Ok(or_of(x, y))
}

/// NULLIF.
#[cycle(eval)]
#[tactic(auto, using(crate::proofs::Called::calls_stop, crate::proofs::Connected::pair_stop, crate::proofs::Connected::pair))]
pub fn eval_null_if(
    alloc: Global,
    callee: &Callee,
    left: &Tree,
    right: &Tree,
    given: &Value,
    row: &[Value],
) -> Result<Value, CallFault>
    requires left { is_evaluable is_built left.now ≡ true }
    requires right { is_evaluable is_built right.now ≡ true }
    ensures { Calls (and_then (outcome real row.now given.now left.now) (λ x. and_then (outcome real row.now given.now right.now) (null_if_of real callee.now x))) result }
{
    let x = eval_given(alloc, left, given, row)?;
    let y = eval_given(alloc, right, given, row)?;
    null_if(alloc, callee, x, y)
}

/// IS DISTINCT FROM.
#[cycle(eval)]
#[tactic(auto, using(crate::proofs::Called::calls_stop, crate::proofs::Connected::pair_stop, crate::proofs::Connected::pair))]
pub fn eval_distinct(
    alloc: Global,
    callee: &Callee,
    left: &Tree,
    right: &Tree,
    given: &Value,
    row: &[Value],
) -> Result<Value, CallFault>
    requires left { is_evaluable is_built left.now ≡ true }
    requires right { is_evaluable is_built right.now ≡ true }
    ensures { Calls (and_then (outcome real row.now given.now left.now) (λ x. and_then (outcome real row.now given.now right.now) (distinct_of real callee.now x))) result }
{
    let x = eval_given(alloc, left, given, row)?;
    let y = eval_given(alloc, right, given, row)?;
    distinct(alloc, callee, x, y)
}
