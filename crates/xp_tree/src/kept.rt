//! What a tree keeps beside its node, from what the trees below keep.
ghost use Rattle.std.specs.Prelude.{◌≡◌, min, ◌^◌, ◌-◌, ◌&&◌};
ghost use Rattle.xp_tree.specs.Term.{is_fixed, is_fixed_way, is_immutable, is_open, size};
ghost use Rattle.xp_tree.specs.View.{term_of};

use crate::lists::{all_fixed, any_open, arms_fixed, arms_open, size_all, size_arms};
use crate::node::Node;
use crate::parts::{Callee, Way};
use xp_catalog::Volatility;

/// The number of nodes of the tree with this top.
pub fn size_over(node: &Node) -> u64
    ensures { result ≡ min (size (term_of node.now)) (2 ^ 64 - 1) }
{
    match node {
        Node::Constant { .. } | Node::Column { .. } | Node::Given { .. } => 1,
        Node::Output { arg, .. }
        | Node::Input { arg, .. }
        | Node::Relabel { arg, .. }
        | Node::Sizing { arg, .. }
        | Node::Not { arg, .. }
        | Node::IsNull { arg, .. }
        | Node::IsTrue { arg, .. }
        | Node::IsFalse { arg, .. }
        | Node::IsUnknown { arg, .. }
        | Node::Elements { arg, .. } => arg.size().saturating_add(1),
        Node::Domain { arg, check, .. } => match check {
            Some(check) => arg.size().saturating_add(check.size()).saturating_add(1),
            None => arg.size().saturating_add(1),
        },
        Node::And { left, right, .. }
        | Node::Or { left, right, .. }
        | Node::NullIf { left, right, .. }
        | Node::Distinct { left, right, .. } => {
            left.size().saturating_add(right.size()).saturating_add(1)
        }
        Node::Subscript { array, index, .. } => {
            array.size().saturating_add(index.size()).saturating_add(1)
        }
        Node::Call { args, .. }
        | Node::Coalesce { args, .. }
        | Node::Greatest { args, .. }
        | Node::Least { args, .. }
        | Node::Array { args, .. } => size_all(args.as_slice()).saturating_add(1),
        Node::Case {
            arms,
            otherwise,
            ..
        } => size_arms(arms.as_slice())
            .saturating_add(otherwise.size())
            .saturating_add(1),
    }
}

fn is_immutable(volatility: Volatility) -> bool
    ensures { result ≡ is_immutable volatility }
{
    match volatility {
        Volatility::Immutable => true,
        Volatility::Stable | Volatility::Volatile => false,
    }
}

fn is_fixed_callee(callee: &Callee) -> bool
    ensures { result ≡ is_immutable callee.now.volatility }
{
    is_immutable(callee.volatility)
}

fn is_fixed_way(way: &Way) -> bool
    ensures { result ≡ is_fixed_way way.now }
{
    match way {
        Way::ByBody(callee) => is_immutable(callee.volatility),
        Way::ByOutput | Way::ByInput | Way::ByRelabel => true,
    }
}

/// Whether every node of the tree with this top is no column and rests on immutable records alone.
pub fn is_fixed_over(node: &Node) -> bool
    ensures { result ≡ is_fixed (term_of node.now) }
{
    match node {
        Node::Constant { .. } | Node::Given { .. } => true,
        Node::Column { .. } => false,
        Node::Output { arg, .. }
        | Node::Input { arg, .. }
        | Node::Relabel { arg, .. }
        | Node::Sizing { arg, .. }
        | Node::Not { arg, .. }
        | Node::IsNull { arg, .. }
        | Node::IsTrue { arg, .. }
        | Node::IsFalse { arg, .. }
        | Node::IsUnknown { arg, .. } => arg.is_fixed(),
        Node::Elements { arg, way, .. } => is_fixed_way(way) && arg.is_fixed(),
        Node::Domain { arg, check, .. } => match check {
            Some(check) => arg.is_fixed() && check.is_fixed(),
            None => arg.is_fixed(),
        },
        Node::And { left, right, .. } | Node::Or { left, right, .. } => left.is_fixed()
            && right.is_fixed(),
        Node::NullIf {
            callee,
            left,
            right,
            ..
        }
        | Node::Distinct {
            callee,
            left,
            right,
            ..
        } => { is_fixed_callee(callee) && (left.is_fixed() && right.is_fixed()) }
        Node::Subscript { array, index, .. } => array.is_fixed() && index.is_fixed(),
        Node::Call { callee, args, .. } => is_fixed_callee(callee) && all_fixed(args.as_slice()),
        Node::Coalesce { args, .. }
        | Node::Greatest { args, .. }
        | Node::Least { args, .. }
        | Node::Array { args, .. } => all_fixed(args.as_slice()),
        Node::Case {
            arms,
            otherwise,
            ..
        } => arms_fixed(arms.as_slice()) && otherwise.is_fixed(),
    }
}

/// Whether VALUE stands in the tree with this top outside the domain node that gives it.
pub fn is_open_over(node: &Node) -> bool
    ensures { result ≡ is_open (term_of node.now) }
{
    match node {
        Node::Constant { .. } | Node::Column { .. } => false,
        Node::Given { .. } => true,
        Node::Output { arg, .. }
        | Node::Input { arg, .. }
        | Node::Relabel { arg, .. }
        | Node::Sizing { arg, .. }
        | Node::Not { arg, .. }
        | Node::IsNull { arg, .. }
        | Node::IsTrue { arg, .. }
        | Node::IsFalse { arg, .. }
        | Node::IsUnknown { arg, .. }
        | Node::Elements { arg, .. }
        | Node::Domain { arg, .. } => arg.is_open(),
        Node::And { left, right, .. }
        | Node::Or { left, right, .. }
        | Node::NullIf { left, right, .. }
        | Node::Distinct { left, right, .. } => left.is_open() || right.is_open(),
        Node::Subscript { array, index, .. } => array.is_open() || index.is_open(),
        Node::Call { args, .. }
        | Node::Coalesce { args, .. }
        | Node::Greatest { args, .. }
        | Node::Least { args, .. }
        | Node::Array { args, .. } => any_open(args.as_slice()),
        Node::Case {
            arms,
            otherwise,
            ..
        } => arms_open(arms.as_slice()) || otherwise.is_open(),
    }
}
