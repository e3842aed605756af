//! The value of a tree.
ghost use Rattle.std.specs.Prelude.{◌≡◌, true};
ghost use Rattle.xp_base.specs.FromLeft.{and_then};
ghost use Rattle.xp_call.specs.Calls.{Calls, is_built};
ghost use Rattle.xp_meaning.specs.Evaluable.{all_evaluable, is_evaluable};
ghost use Rattle.xp_meaning.specs.Meaning.{outcome, outcomes};
ghost use Rattle.xp_meaning.specs.Nodes.{call_of, checked_by};
ghost use Rattle.xp_tree.specs.Term.{terms};
ghost use Rattle.xp_eval.specs.Permitted.{ArePermitted, IsPermitted};
ghost use Rattle.xp_eval.specs.Real.{real};

use crate::calls::call_callee;
use crate::choices::{eval_case, eval_coalesce, eval_extreme};
use crate::columns::column;
use crate::connectives::{eval_and, eval_distinct, eval_null_if, eval_or};
use crate::domains::{checked_by, kept_not_null};
use crate::steps::step;
use sqlite_items::Items;
use std::alloc::Global;
use xp_call::CallFault;
use xp_tree::{Callee, Node, Tree};
use xp_value::{Row, Value};

/// What the tree gives at the row where VALUE is the given value.
#[cycle(eval)]
#[tactic(auto, using(crate::proofs::Called::calls_stop, crate::proofs::Called::domain_stop, crate::proofs::Called::check_answer, crate::proofs::Rest::check_evaluable))]
pub fn eval_given(alloc: Global, t: &Tree, given: &Value, row: &[Value]) -> Result<Value, CallFault>
    requires { is_evaluable is_built t.now ≡ true }
    ensures { Calls (outcome real row.now given.now t.now) result }
{
    match t.top() {
        Node::Constant { value, .. } => Ok(value.copy(alloc)?),
        Node::Column { number, .. } => Ok(column(alloc, row, *number)?),
        Node::Given { .. } => Ok(given.copy(alloc)?),
        Node::Call { callee, args, .. } => eval_call(alloc, callee, args.as_slice(), given, row),
        Node::Output { arg, .. }
        | Node::Input { arg, .. }
        | Node::Relabel { arg, .. }
        | Node::Sizing { arg, .. }
        | Node::Not { arg, .. }
        | Node::IsNull { arg, .. }
        | Node::IsTrue { arg, .. }
        | Node::IsFalse { arg, .. }
        | Node::IsUnknown { arg, .. } => {
            let value = eval_given(alloc, arg, given, row)?;
            step(alloc, t.top(), value)
        }
        Node::Domain {
            arg,
            not_null,
            check,
            ..
        } => {
            let value = eval_given(alloc, arg, given, row)?;
            let value = kept_not_null(*not_null, value)?;
            match check {
                None => Ok(value),
                Some(check) => eval_check(alloc, check, value, row),
            }
        }
        Node::And { left, right, .. } => eval_and(alloc, left, right, given, row),
        Node::Or { left, right, .. } => eval_or(alloc, left, right, given, row),
        Node::NullIf {
            callee,
            left,
            right,
            ..
        } => eval_null_if(alloc, callee, left, right, given, row),
        Node::Distinct {
            callee,
            left,
            right,
            ..
        } => eval_distinct(alloc, callee, left, right, given, row),
        Node::Case {
            arms,
            otherwise,
            ..
        } => eval_case(alloc, arms.as_slice(), otherwise, given, row),
        Node::Coalesce { args, .. } => eval_coalesce(alloc, args.as_slice(), given, row),
        Node::Greatest { args, .. } => eval_extreme(alloc, true, args.as_slice(), given, row),
        Node::Least { args, .. } => eval_extreme(alloc, false, args.as_slice(), given, row),
        Node::Elements { .. } | Node::Array { .. } | Node::Subscript { .. } => unreachable!(),
    }
}

/// The value, unless the check of its domain refuses it.
#[cycle(eval)]
#[tactic(auto, using(crate::proofs::Called::calls_stop, crate::proofs::Called::check_said))]
fn eval_check(alloc: Global, check: &Tree, value: Value, row: &[Value]) -> Result<Value, CallFault>
    requires { is_evaluable is_built check.now ≡ true }
    ensures { Calls (and_then (outcome real row.now value check.now) (checked_by value)) result }
{
    let truth = eval_given(alloc, check, &value, row)?;
    checked_by(value, &truth)
}

/// What the call of the trees gives. One argument or two need no list.
#[cycle(eval)]
#[tactic(auto, using(xp_tree::proofs::Rest::height_at, crate::proofs::Rest::evaluable_at, crate::proofs::Called::calls_stop, crate::proofs::Called::call_answer, crate::proofs::Called::one_answer, crate::proofs::Called::one_stop, crate::proofs::Called::two_answer, crate::proofs::Called::first_stop, crate::proofs::Called::second_stop))]
fn eval_call(
    alloc: Global,
    callee: &Callee,
    args: &[Tree],
    given: &Value,
    row: &[Value],
) -> Result<Value, CallFault>
    requires { all_evaluable is_built (terms args.now) ≡ true }
    ensures { Calls (and_then (outcomes real row.now given.now (terms args.now)) (call_of real callee.now)) result }
{
    match args {
        [only] => {
            let value = eval_given(alloc, only, given, row)?;
            call_callee(alloc, callee, &[value])
        }
        [first, second] => {
            let x = eval_given(alloc, first, given, row)?;
            let y = eval_given(alloc, second, given, row)?;
            call_callee(alloc, callee, &[x, y])
        }
        _ => {
            let values = eval_each(alloc, args, given, row)?;
            call_callee(alloc, callee, values.as_slice())
        }
    }
}

#[cycle(eval)]
#[tactic(auto, using(xp_tree::proofs::Rest::height_at, crate::proofs::Rest::evaluable_at, crate::proofs::Called::calls_then, crate::proofs::Called::calls_stop))]
fn eval_each(alloc: Global, trees: &[Tree], given: &Value, row: &[Value]) -> Result<Row, CallFault>
    requires { all_evaluable is_built (terms trees.now) ≡ true }
    ensures { Calls (outcomes real row.now given.now (terms trees.now)) result }
{
    let mut values = Items::new(alloc);
    'trees: for tree in trees {
        let value = eval_given(alloc, tree, given, row)?;
        values.push(value)?;
    }
    Ok(values)
}

/// What the tree gives at the row, whose values are those of its columns: its value, or the error
/// that it raises. Of the outcomes that manual 4.2.14 permits it is the one from left to right.
#[tactic(auto, using(crate::proofs::Permitted::is_permitted))]
pub fn eval(alloc: Global, t: &Tree, row: &[Value]) -> Result<Value, CallFault>
    requires { is_evaluable is_built t.now ≡ true }
    ensures from_left { Calls (outcome real row.now Value.Null t.now) result }
    ensures permitted { IsPermitted row.now t.now result }
{
    eval_given(alloc, t, &Value::Null, row)
}

/// What the trees give, up to the first that raises.
#[tactic(auto, using(crate::proofs::Permitted::are_permitted))]
pub fn eval_all(alloc: Global, trees: &[Tree], row: &[Value]) -> Result<Row, CallFault>
    requires { all_evaluable is_built (terms trees.now) ≡ true }
    ensures from_left { Calls (outcomes real row.now Value.Null (terms trees.now)) result }
    ensures permitted { ArePermitted row.now (terms trees.now) result }
{
    eval_each(alloc, trees, &Value::Null, row)
}
