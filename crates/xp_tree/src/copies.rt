//! Copies of trees, which take no deep stack: first the trees in an order where each stands in
//! front of its parts, and then, from the last to the first, a copy of each over those of its parts.
ghost use Rattle.std.specs.Prelude.{◌≡◌, [], ◌∷◌, ◌++◌, IfOk, OnOk};
ghost use Rattle.xp_tree.specs.Term.{terms};
ghost use Rattle.xp_tree.specs.View.{arms_of, term_of};
ghost use Rattle.xp_tree.specs.inner.Order.{Leads, StartsWith, list_of, list_of_arms, parts};

use crate::node::{CaseArm, CaseArms, Node, Trees};
use crate::stacks::{Made, Waiting};
use crate::tree::Tree;
use sqlite_items::Items;
use std::alloc::Global;
use xp_base::{Memory, Name};

/// The tree and all that lie below, each in front of its parts.
#[tactic(auto, using(crate::proofs::Orders::parts_smaller))]
pub fn parents_first<'a>(alloc: Global, tree: &'a Tree) -> Result<Waiting<'a>, Memory>
    ensures { IfOk result (λ listed. Leads listed (tree.now ∷ []) []) }
{
    let mut listed = Waiting::new(alloc);
    let mut waiting = Waiting::new(alloc);
    waiting.push(tree)?;
    'waiting: while let Some(next) = waiting.pop() {
        listed.push(next)?;
        push_parts(&mut waiting, next.top())?;
    }
    Ok(listed)
}

/// Puts the trees just below onto the stack, the first one last.
fn push_parts<'a>(waiting: &mut Waiting<'a>, node: &'a Node) -> Result<(), Memory>
    ensures { OnOk result (waiting.new ≡ parts (term_of node.now) ++ waiting.old) }
{
    match node {
        Node::Constant { .. } | Node::Column { .. } | Node::Given { .. } => Ok(()),
        Node::Output { arg, .. }
        | Node::Input { arg, .. }
        | Node::Relabel { arg, .. }
        | Node::Sizing { arg, .. }
        | Node::Not { arg, .. }
        | Node::IsNull { arg, .. }
        | Node::IsTrue { arg, .. }
        | Node::IsFalse { arg, .. }
        | Node::IsUnknown { arg, .. }
        | Node::Elements { arg, .. }
        | Node::Domain {
            arg,
            check: None,
            ..
        } => waiting.push(arg),
        Node::Domain {
            arg,
            check: Some(check),
            ..
        } => push_both(waiting, arg, check),
        Node::And { left, right, .. }
        | Node::Or { left, right, .. }
        | Node::NullIf { left, right, .. }
        | Node::Distinct { left, right, .. } => push_both(waiting, left, right),
        Node::Subscript { array, index, .. } => push_both(waiting, array, index),
        Node::Call { args, .. }
        | Node::Coalesce { args, .. }
        | Node::Greatest { args, .. }
        | Node::Least { args, .. }
        | Node::Array { args, .. } => push_all(waiting, args.as_slice()),
        Node::Case {
            arms,
            otherwise,
            ..
        } => {
            push_arms(waiting, arms.as_slice())?;
            waiting.push(otherwise)
        }
    }
}

fn push_both<'a>(waiting: &mut Waiting<'a>, a: &'a Tree, b: &'a Tree) -> Result<(), Memory>
    ensures { OnOk result (waiting.new ≡ a.now ∷ b.now ∷ waiting.old) }
{
    waiting.push(b)?;
    waiting.push(a)
}

#[tactic(auto, using(xp_base::proofs::Lists::drop_one, xp_base::proofs::Lists::drop_none, crate::proofs::Orders::listed))]
fn push_all<'a>(waiting: &mut Waiting<'a>, trees: &'a [Tree]) -> Result<(), Memory>
    ensures { OnOk result (waiting.new ≡ list_of (terms trees.now) ++ waiting.old) }
{
    let mut left = trees.len();
    'trees: while left > 0 {
        left -= 1;
        waiting.push(&trees[left])?;
    }
    Ok(())
}

#[tactic(auto, using(xp_base::proofs::Lists::drop_one, xp_base::proofs::Lists::drop_none))]
fn push_arms<'a>(waiting: &mut Waiting<'a>, arms: &'a [CaseArm]) -> Result<(), Memory>
    ensures { OnOk result (waiting.new ≡ list_of_arms (arms_of arms.now) ++ waiting.old) }
{
    let mut left = arms.len();
    'arms: while left > 0 {
        left -= 1;
        let arm = &arms[left];
        push_both(waiting, &arm.condition, &arm.result)?;
    }
    Ok(())
}

/// The node over the copies of its parts, which lie at the top of the stack and are taken from it.
#[tactic(auto, using(crate::proofs::Orders::listed))]
pub fn copy_node(alloc: Global, node: &Node, made: &mut Made) -> Result<Node, Memory>
    requires { StartsWith (parts (term_of node.now)) made.old }
    ensures value { IfOk result (λ copied. copied ≡ node.now) }
    ensures rest { OnOk result (made.old ≡ parts (term_of node.now) ++ made.new) }
{
    match node {
        Node::Constant { value, ty } => Ok(Node::Constant {
            value: value.copy(alloc)?,
            ty: *ty,
        }),
        Node::Column { number, name, ty } => Ok(Node::Column {
            number: *number,
            name: Name::from_str(alloc, name.as_str())?,
            ty: *ty,
        }),
        Node::Given { ty } => Ok(Node::Given { ty: *ty }),
        Node::Call { callee, args, ty } => Ok(Node::Call {
            callee: *callee,
            args: take_all(alloc, args.as_slice(), made)?,
            ty: *ty,
        }),
        Node::Output { ty, .. } => Ok(Node::Output {
            arg: made.take(),
            ty: *ty,
        }),
        Node::Input { ty, .. } => Ok(Node::Input {
            arg: made.take(),
            ty: *ty,
        }),
        Node::Relabel { ty, .. } => Ok(Node::Relabel {
            arg: made.take(),
            ty: *ty,
        }),
        Node::Not { ty, .. } => Ok(Node::Not {
            arg: made.take(),
            ty: *ty,
        }),
        Node::IsNull { ty, .. } => Ok(Node::IsNull {
            arg: made.take(),
            ty: *ty,
        }),
        Node::IsTrue { ty, .. } => Ok(Node::IsTrue {
            arg: made.take(),
            ty: *ty,
        }),
        Node::IsFalse { ty, .. } => Ok(Node::IsFalse {
            arg: made.take(),
            ty: *ty,
        }),
        Node::IsUnknown { ty, .. } => Ok(Node::IsUnknown {
            arg: made.take(),
            ty: *ty,
        }),
        Node::Elements { way, ty, .. } => Ok(Node::Elements {
            arg: made.take(),
            way: *way,
            ty: *ty,
        }),
        Node::Sizing {
            modifier,
            cut,
            ty,
            ..
        } => Ok(Node::Sizing {
            arg: made.take(),
            modifier: *modifier,
            cut: *cut,
            ty: *ty,
        }),
        Node::Domain {
            domain,
            not_null,
            check: None,
            ty,
            ..
        } => Ok(Node::Domain {
            arg: made.take(),
            domain: *domain,
            not_null: *not_null,
            check: None,
            ty: *ty,
        }),
        Node::Domain {
            domain,
            not_null,
            check: Some(_),
            ty,
            ..
        } => Ok(Node::Domain {
            arg: made.take(),
            domain: *domain,
            not_null: *not_null,
            check: Some(made.take()),
            ty: *ty,
        }),
        Node::And { ty, .. } => Ok(Node::And {
            left: made.take(),
            right: made.take(),
            ty: *ty,
        }),
        Node::Or { ty, .. } => Ok(Node::Or {
            left: made.take(),
            right: made.take(),
            ty: *ty,
        }),
        Node::Case { arms, ty, .. } => {
            let otherwise = made.take();
            Ok(Node::Case {
                arms: take_arms(alloc, arms.as_slice(), made)?,
                otherwise,
                ty: *ty,
            })
        }
        Node::Coalesce { args, ty } => Ok(Node::Coalesce {
            args: take_all(alloc, args.as_slice(), made)?,
            ty: *ty,
        }),
        Node::Greatest { args, ty } => Ok(Node::Greatest {
            args: take_all(alloc, args.as_slice(), made)?,
            ty: *ty,
        }),
        Node::Least { args, ty } => Ok(Node::Least {
            args: take_all(alloc, args.as_slice(), made)?,
            ty: *ty,
        }),
        Node::Array { args, ty } => Ok(Node::Array {
            args: take_all(alloc, args.as_slice(), made)?,
            ty: *ty,
        }),
        Node::NullIf { callee, ty, .. } => Ok(Node::NullIf {
            callee: *callee,
            left: made.take(),
            right: made.take(),
            ty: *ty,
        }),
        Node::Distinct { callee, ty, .. } => Ok(Node::Distinct {
            callee: *callee,
            left: made.take(),
            right: made.take(),
            ty: *ty,
        }),
        Node::Subscript { ty, .. } => Ok(Node::Subscript {
            array: made.take(),
            index: made.take(),
            ty: *ty,
        }),
    }
}

/// The copies of the trees, in their order, taken from the top of the stack.
#[tactic(auto, using(xp_base::proofs::Lists::drop_one, xp_base::proofs::Lists::drop_none, crate::proofs::Orders::listed))]
fn take_all(alloc: Global, trees: &[Tree], made: &mut Made) -> Result<Trees, Memory>
    requires { StartsWith (list_of (terms trees.now)) made.old }
    ensures value { IfOk result (λ copies. copies ≡ trees.now) }
    ensures rest { OnOk result (made.old ≡ list_of (terms trees.now) ++ made.new) }
{
    let mut copies = Items::new(alloc);
    'trees: for _tree in trees {
        copies.push(made.take())?;
    }
    Ok(copies)
}

/// The copies of the arms, in their order, taken from the top of the stack.
#[tactic(auto, using(xp_base::proofs::Lists::drop_one, xp_base::proofs::Lists::drop_none))]
fn take_arms(alloc: Global, arms: &[CaseArm], made: &mut Made) -> Result<CaseArms, Memory>
    requires { StartsWith (list_of_arms (arms_of arms.now)) made.old }
    ensures value { IfOk result (λ copies. copies ≡ arms.now) }
    ensures rest { OnOk result (made.old ≡ list_of_arms (arms_of arms.now) ++ made.new) }
{
    let mut copies = Items::new(alloc);
    'arms: for _arm in arms {
        copies.push(CaseArm {
            condition: made.take(),
            result: made.take(),
        })?;
    }
    Ok(copies)
}
