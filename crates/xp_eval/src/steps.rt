//! What a node over one tree makes of its argument's value.
ghost use Rattle.std.specs.Prelude.{◌≡◌, true};
ghost use Rattle.xp_call.specs.Calls.{is_built};
ghost use Rattle.xp_meaning.specs.Evaluable.{is_evaluable};
ghost use Rattle.xp_tree.specs.View.{term_of};
ghost use Rattle.xp_eval.specs.inner.Steps.{Steps, is_one};

use crate::columns::{is_null, relabel};
use crate::sizes::sized;
use crate::texts::{input, output};
use crate::truths::{is_false, is_true, not_of};
use std::alloc::Global;
use xp_call::CallFault;
use xp_tree::Node;
use xp_value::Value;

/// What the node gives where its argument's value is this.
#[tactic(auto, using(crate::proofs::Rest::sizing_is_built))]
pub fn step(alloc: Global, node: &Node, value: Value) -> Result<Value, CallFault>
    requires one { is_one (term_of node.now) ≡ true }
    requires evaluable { is_evaluable is_built (term_of node.now) ≡ true }
    ensures { Steps (term_of node.now) value result }
{
    match node {
        Node::Output { ty, .. } => output(alloc, ty.rep, &value),
        Node::Input { ty, .. } => input(alloc, *ty, &value),
        Node::Relabel { ty, .. } => Ok(relabel(ty.rep, value)),
        Node::Sizing {
            modifier,
            cut,
            ty,
            ..
        } => sized(alloc, *modifier, *cut, *ty, value),
        Node::Not { .. } => Ok(not_of(&value)),
        Node::IsNull { .. } | Node::IsUnknown { .. } => Ok(Value::Bool(is_null(&value))),
        Node::IsTrue { .. } => Ok(Value::Bool(is_true(&value))),
        Node::IsFalse { .. } => Ok(Value::Bool(is_false(&value))),
        _ => unreachable!(),
    }
}
