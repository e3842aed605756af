//! Giving trees up. The largest part of a tree comes last and takes no deeper stack, so that the
//! stack grows with the logarithm of the number of nodes.
ghost use Rattle.std.specs.Prelude.{◌≤◌, ◌<◌, max, IfSome};
ghost use Rattle.xp_tree.specs.Term.{terms};
ghost use Rattle.xp_tree.specs.View.{arms_of, term_of};
ghost use Rattle.xp_tree.specs.inner.Heights.{height, height_all, height_arms, height_within};

use crate::node::{CaseArm, CaseArms, Node, Trees};
use crate::tree::Tree;

/// The largest part of the node, where it has parts; the others are given up.
#[cycle(drop)]
pub fn largest_part(node: Node) -> Option<Tree>
    ensures { IfSome result (λ t. height t < height (term_of node)) }
{
    match node {
        Node::Constant { .. } | Node::Column { .. } | Node::Given { .. } => None,
        Node::Output { arg, .. }
        | Node::Input { arg, .. }
        | Node::Relabel { arg, .. }
        | Node::Sizing { arg, .. }
        | Node::Not { arg, .. }
        | Node::IsNull { arg, .. }
        | Node::IsTrue { arg, .. }
        | Node::IsFalse { arg, .. }
        | Node::IsUnknown { arg, .. }
        | Node::Elements { arg, .. } => Some(arg),
        Node::Domain { arg, check, .. } => Some(larger_of(check, arg)),
        Node::And { left, right, .. }
        | Node::Or { left, right, .. }
        | Node::NullIf { left, right, .. }
        | Node::Distinct { left, right, .. } => Some(larger(left, right)),
        Node::Subscript { array, index, .. } => Some(larger(array, index)),
        Node::Call { args, .. }
        | Node::Coalesce { args, .. }
        | Node::Greatest { args, .. }
        | Node::Least { args, .. }
        | Node::Array { args, .. } => largest_of(args),
        Node::Case {
            arms,
            otherwise,
            ..
        } => Some(largest_of_case(arms, otherwise)),
    }
}

/// The larger of the two; the other is given up.
#[cycle(drop)]
fn larger(a: Tree, b: Tree) -> Tree
    ensures { height result ≤ max (height a) (height b) }
{
    if a.size() < b.size() { b } else { a }
}

/// The larger of the two, where there are two; the other is given up.
#[cycle(drop)]
fn larger_of(a: Option<Tree>, b: Tree) -> Tree
    ensures { height result ≤ max (height_within a) (height b) }
{
    match a {
        Some(a) => larger(a, b),
        None => b,
    }
}

/// The largest of the trees; the others are given up.
#[cycle(drop)]
#[tactic(auto, using(crate::proofs::Rest::height_pushed))]
fn largest_of(mut trees: Trees) -> Option<Tree>
    ensures { IfSome result (λ t. height t ≤ height_all (terms trees)) }
{
    let mut largest = None;
    'trees: while let Some(tree) = trees.pop() {
        largest = Some(larger_of(largest, tree));
    }
    drop(trees);
    largest
}

/// The largest of the trees of a CASE; the others are given up.
#[cycle(drop)]
#[tactic(auto, using(crate::proofs::Rest::arms_height_pushed))]
fn largest_of_case(mut arms: CaseArms, otherwise: Tree) -> Tree
    ensures { height result ≤ max (height_arms (arms_of arms)) (height otherwise) }
{
    let mut largest = otherwise;
    'arms: while let Some(arm) = arms.pop() {
        let CaseArm { condition, result } = arm;
        largest = larger(larger(largest, condition), result);
    }
    drop(arms);
    largest
}
