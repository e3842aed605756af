//! Whether a tree can be evaluated.
ghost use Rattle.std.specs.Prelude.{◌≡◌};
ghost use Rattle.xp_call.specs.Calls.{is_built};
ghost use Rattle.xp_meaning.specs.Evaluable as spec;
ghost use Rattle.xp_tree.specs.Rests.{is_represented};
ghost use Rattle.xp_tree.specs.Term.{terms};
ghost use Rattle.xp_tree.specs.Typed.{is_text};
ghost use Rattle.xp_tree.specs.View.{arms_of};

use xp_base::BodyNo;
use xp_call::is_built;
use xp_tree::{CaseArm, Modifier, Node, NodeType, Tree};
use xp_value::Rep;

fn has_body(body: Option<BodyNo>) -> bool
    ensures { result ≡ spec.has_body is_built body }
{
    match body {
        Some(body) => is_built(body),
        None => false,
    }
}

fn is_represented(ty: NodeType) -> bool
    ensures { result ≡ is_represented ty }
{
    ty.rep != Rep::Opaque
}

fn is_text(rep: Rep) -> bool
    ensures { result ≡ is_text rep }
{
    matches!(rep, Rep::Text | Rep::Pad)
}

/// Whether values of the representation are brought to the modifier.
fn is_sized(modifier: Modifier, rep: Rep) -> bool
    ensures { result ≡ spec.is_sizing_built modifier rep }
{
    match modifier {
        Modifier::Length(_) => is_text(rep),
        Modifier::Digits { .. } => rep == Rep::Num,
        Modifier::None => false,
    }
}

/// Whether each node of the tree can be evaluated.
#[cycle(evaluable)]
#[tactic(auto, using(xp_tree::proofs::Rest::height_at))]
pub fn is_evaluable(tree: &Tree) -> bool
    ensures { result ≡ spec.is_evaluable is_built tree.now }
{
    match tree.top() {
        Node::Constant { ty, .. } | Node::Column { ty, .. } | Node::Given { ty } => {
            is_represented(*ty)
        }
        Node::Output { arg, ty }
        | Node::Input { arg, ty }
        | Node::Relabel { arg, ty }
        | Node::Not { arg, ty }
        | Node::IsNull { arg, ty }
        | Node::IsTrue { arg, ty }
        | Node::IsFalse { arg, ty }
        | Node::IsUnknown { arg, ty } => is_represented(*ty) && is_evaluable(arg),
        Node::Sizing {
            arg,
            modifier,
            ty,
            ..
        } => { is_sized(*modifier, ty.rep) && is_represented(*ty) && is_evaluable(arg) }
        Node::And { left, right, ty } | Node::Or { left, right, ty } => {
            is_represented(*ty) && is_evaluable(left) && is_evaluable(right)
        }
        Node::NullIf {
            callee,
            left,
            right,
            ty,
        }
        | Node::Distinct {
            callee,
            left,
            right,
            ty,
        } => {
            has_body(callee.body)
                && is_represented(*ty)
                && is_evaluable(left)
                && is_evaluable(right)
        }
        Node::Call { callee, args, ty } => {
            has_body(callee.body) && is_represented(*ty) && all_evaluable(args.as_slice())
        }
        Node::Coalesce { args, ty } | Node::Greatest { args, ty } | Node::Least { args, ty } => {
            is_represented(*ty) && all_evaluable(args.as_slice())
        }
        Node::Case {
            arms,
            otherwise,
            ty,
        } => { is_represented(*ty) && arms_evaluable(arms.as_slice()) && is_evaluable(otherwise) }
        Node::Domain { arg, check, ty, .. } => {
            let is_argument = is_represented(*ty) && is_evaluable(arg);
            match check {
                Some(check) => is_argument && is_evaluable(check),
                None => is_argument,
            }
        }
        Node::Elements { .. } | Node::Array { .. } | Node::Subscript { .. } => false,
    }
}

#[cycle(evaluable)]
#[tactic(auto, using(xp_tree::proofs::Rest::height_at, xp_base::proofs::Lists::drop_one, xp_base::proofs::Lists::drop_none))]
fn all_evaluable(trees: &[Tree]) -> bool
    ensures { result ≡ spec.all_evaluable is_built (terms trees.now) }
{
    'trees: for tree in trees {
        if !is_evaluable(tree) {
            return false;
        }
    }
    true
}

#[cycle(evaluable)]
#[tactic(auto, using(xp_tree::proofs::Rest::condition_at, xp_tree::proofs::Rest::result_at, xp_base::proofs::Lists::drop_one, xp_base::proofs::Lists::drop_none))]
fn arms_evaluable(arms: &[CaseArm]) -> bool
    ensures { result ≡ spec.arms_evaluable is_built (arms_of arms.now) }
{
    'arms: for arm in arms {
        if !(is_evaluable(&arm.condition) && is_evaluable(&arm.result)) {
            return false;
        }
    }
    true
}
