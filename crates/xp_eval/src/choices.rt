//! Nodes that choose one of several values (manual 9.18).
ghost use Rattle.std.specs.Prelude.{◌≡◌, Ok, fold, true};
ghost use Rattle.xp_base.specs.FromLeft.{and_then};
ghost use Rattle.xp_call.specs.Calls.{Calls, is_built};
ghost use Rattle.xp_meaning.specs.Evaluable.{all_evaluable, arms_evaluable, is_evaluable};
ghost use Rattle.xp_meaning.specs.Meaning.{arm_outcome, first_outcome, outcome, outcomes};
ghost use Rattle.xp_meaning.specs.Nodes.{kept_of};
ghost use Rattle.xp_tree.specs.Term.{terms};
ghost use Rattle.xp_tree.specs.View.{arms_of};
ghost use Rattle.xp_eval.specs.Real.{real};
ghost use Rattle.xp_eval.specs.inner.Choices.{wins};

use crate::columns::is_null;
use crate::comparisons::kept;
use crate::truths::is_true;
use crate::walk::eval_given;
use std::alloc::Global;
use xp_call::CallFault;
use xp_tree::{CaseArm, Tree};
use xp_value::Value;

/// CASE, which stops at the first condition that is true.
#[cycle(eval)]
#[tactic(auto, using(xp_tree::proofs::Rest::condition_at, xp_tree::proofs::Rest::result_at, crate::proofs::Rest::condition_evaluable, crate::proofs::Rest::result_evaluable, crate::proofs::Chosen::no_arms, crate::proofs::Chosen::arm_stop, crate::proofs::Chosen::arm_taken, crate::proofs::Chosen::arm_passed))]
pub fn eval_case(
    alloc: Global,
    arms: &[CaseArm],
    otherwise: &Tree,
    given: &Value,
    row: &[Value],
) -> Result<Value, CallFault>
    requires arms { arms_evaluable is_built (arms_of arms.now) ≡ true }
    requires otherwise { is_evaluable is_built otherwise.now ≡ true }
    ensures { Calls (arm_outcome real row.now given.now (arms_of arms.now) (outcome real row.now given.now otherwise.now)) result }
{
    'arms: for arm in arms {
        let condition = eval_given(alloc, &arm.condition, given, row)?;
        if is_true(&condition) {
            return eval_given(alloc, &arm.result, given, row);
        }
    }
    eval_given(alloc, otherwise, given, row)
}

/// COALESCE, which stops at the first value that isn't null.
#[cycle(eval)]
#[tactic(auto, using(xp_tree::proofs::Rest::height_at, crate::proofs::Rest::evaluable_at, crate::proofs::Chosen::no_argument, crate::proofs::Chosen::argument_stop, crate::proofs::Chosen::argument_taken, crate::proofs::Chosen::argument_passed))]
pub fn eval_coalesce(
    alloc: Global,
    trees: &[Tree],
    given: &Value,
    row: &[Value],
) -> Result<Value, CallFault>
    requires { all_evaluable is_built (terms trees.now) ≡ true }
    ensures { Calls (first_outcome real row.now given.now (terms trees.now)) result }
{
    'trees: for tree in trees {
        let value = eval_given(alloc, tree, given, row)?;
        if !is_null(&value) {
            return Ok(value);
        }
    }
    Ok(Value::Null)
}

/// GREATEST and LEAST, which evaluate all arguments.
#[cycle(eval)]
#[tactic(auto, using(xp_tree::proofs::Rest::height_at, crate::proofs::Rest::evaluable_at, crate::proofs::Chosen::none_left, crate::proofs::Chosen::next_stop, crate::proofs::Chosen::next_kept))]
pub fn eval_extreme(
    alloc: Global,
    greatest: bool,
    trees: &[Tree],
    given: &Value,
    row: &[Value],
) -> Result<Value, CallFault>
    requires { all_evaluable is_built (terms trees.now) ≡ true }
    ensures { Calls (and_then (outcomes real row.now given.now (terms trees.now)) (λ values. Ok (fold (kept_of (wins greatest)) Value.Null values))) result }
{
    let mut best = Value::Null;
    'trees: for tree in trees {
        let next = eval_given(alloc, tree, given, row)?;
        best = kept(greatest, best, next);
    }
    Ok(best)
}
