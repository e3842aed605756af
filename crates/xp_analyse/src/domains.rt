//! Whether a tree looks at a domain.
ghost use Rattle.std.specs.Prelude.{◌≡◌, ◌||◌};
ghost use Rattle.xp_tree.specs.Term.{terms};
ghost use Rattle.xp_tree.specs.View.{arms_of};
ghost use Rattle.xp_analyse.specs.Domains as spec;

use xp_tree::{CaseArm, Node, Tree};

/// Whether a domain's node stands in the tree.
#[cycle(domains)]
#[tactic(auto, using(xp_tree::proofs::Rest::height_at))]
pub fn has_domain(tree: &Tree) -> bool
    ensures { result ≡ spec.has_domain tree.now }
{
    match tree.top() {
        Node::Constant { .. } | Node::Column { .. } | Node::Given { .. } => false,
        Node::Domain { .. } => true,
        Node::Output { arg, .. }
        | Node::Input { arg, .. }
        | Node::Relabel { arg, .. }
        | Node::Elements { arg, .. }
        | Node::Sizing { arg, .. }
        | Node::Not { arg, .. }
        | Node::IsNull { arg, .. }
        | Node::IsTrue { arg, .. }
        | Node::IsFalse { arg, .. }
        | Node::IsUnknown { arg, .. } => has_domain(arg),
        Node::And { left, right, .. }
        | Node::Or { left, right, .. }
        | Node::NullIf { left, right, .. }
        | Node::Distinct { left, right, .. } => has_domain(left) || has_domain(right),
        Node::Subscript { array, index, .. } => has_domain(array) || has_domain(index),
        Node::Call { args, .. }
        | Node::Coalesce { args, .. }
        | Node::Greatest { args, .. }
        | Node::Least { args, .. }
        | Node::Array { args, .. } => some_have_domain(args.as_slice()),
        Node::Case {
            arms,
            otherwise,
            ..
        } => { arms_have_domain(arms.as_slice()) || has_domain(otherwise) }
    }
}

#[cycle(domains)]
#[tactic(auto, using(xp_tree::proofs::Rest::height_at, xp_base::proofs::Lists::drop_one, xp_base::proofs::Lists::drop_none))]
fn some_have_domain(trees: &[Tree]) -> bool
    ensures { result ≡ spec.some_have_domain (terms trees.now) }
{
    'trees: for tree in trees {
        if has_domain(tree) {
            return true;
        }
    }
    false
}

#[cycle(domains)]
#[tactic(auto, using(xp_tree::proofs::Rest::condition_at, xp_tree::proofs::Rest::result_at, xp_base::proofs::Lists::drop_one, xp_base::proofs::Lists::drop_none))]
fn arms_have_domain(arms: &[CaseArm]) -> bool
    ensures { result ≡ spec.arms_have_domain (arms_of arms.now) }
{
    'arms: for arm in arms {
        if has_domain(&arm.condition) || has_domain(&arm.result) {
            return true;
        }
    }
    false
}
