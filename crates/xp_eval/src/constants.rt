//! The error that is raised before any row is looked at.
ghost use Rattle.std.specs.Prelude.{◌≡◌, ◌∷◌, [], ◌++◌, IfOk, true, if◌then◌else◌};
ghost use Rattle.xp_call.specs.Calls.{is_built};
ghost use Rattle.xp_meaning.specs.Evaluable.{all_evaluable, arms_evaluable, is_evaluable};
ghost use Rattle.xp_meaning.specs.Early.{early as parts, early_all as parts_of_all, early_arms as parts_of_arms, early_first as parts_of_first, settles};
ghost use Rattle.xp_tree.specs.Term.{terms};
ghost use Rattle.xp_tree.specs.View.{arms_of};
ghost use Rattle.xp_eval.specs.Permitted.{ArePermittedEarly, IsPermittedEarly};
ghost use Rattle.xp_eval.specs.Real.{early_error, first_raised, real};
ghost use Rattle.xp_eval.specs.inner.Choices.{holds};

use crate::settled::{Test, settles};
use crate::walk::eval;
use std::alloc::Global;
use xp_base::{EvalError, Memory};
use xp_call::CallFault;
use xp_tree::{CaseArm, Node, Tree};

/// The error of a constant tree.
fn error_of(alloc: Global, t: &Tree) -> Result<Option<EvalError>, Memory>
    requires { is_evaluable is_built t.now ≡ true }
    ensures { IfOk result (λ e. e ≡ first_raised (t.now ∷ [])) }
{
    match eval(alloc, t, &[]) {
        Ok(_) => Ok(None),
        Err(CallFault::Raised(error)) => Ok(Some(error)),
        Err(CallFault::Memory) => Err(Memory),
    }
}

#[cycle(early)]
#[tactic(auto, using(crate::proofs::Raised::const_error, crate::proofs::Rest::check_evaluable))]
fn first_of(alloc: Global, t: &Tree) -> Result<Option<EvalError>, Memory>
    requires { is_evaluable is_built t.now ≡ true }
    ensures { IfOk result (λ e. e ≡ early_error t.now) }
{
    if t.is_const() {
        return error_of(alloc, t);
    }
    match t.top() {
        Node::Constant { .. } | Node::Column { .. } | Node::Given { .. } => Ok(None),
        Node::Output { arg, .. }
        | Node::Input { arg, .. }
        | Node::Relabel { arg, .. }
        | Node::Sizing { arg, .. }
        | Node::Not { arg, .. }
        | Node::IsNull { arg, .. }
        | Node::IsTrue { arg, .. }
        | Node::IsFalse { arg, .. }
        | Node::IsUnknown { arg, .. } => first_of(alloc, arg),
        Node::Call { args, .. } | Node::Greatest { args, .. } | Node::Least { args, .. } => {
            first_of_all(alloc, args.as_slice())
        }
        Node::And { left, right, .. } => first_unless(alloc, left, Test::IsFalse, right),
        Node::Or { left, right, .. } => first_unless(alloc, left, Test::IsTrue, right),
        Node::NullIf { left, right, .. } => first_of_both(alloc, left, right),
        Node::Distinct { left, right, .. } => first_of_both(alloc, left, right),
        Node::Case {
            arms,
            otherwise,
            ..
        } => first_of_arms(alloc, arms.as_slice(), otherwise),
        Node::Coalesce { args, .. } => first_of_choice(alloc, args.as_slice()),
        Node::Domain { arg, check, .. } => match check {
            Some(check) => first_of_both(alloc, arg, check),
            None => first_of(alloc, arg),
        },
        Node::Elements { .. } | Node::Array { .. } | Node::Subscript { .. } => unreachable!(),
    }
}

/// Of the parts of the one tree, and of the other.
#[cycle(early)]
#[tactic(auto, using(crate::proofs::Raised::raised_first, crate::proofs::Raised::raised_later))]
fn first_of_both(alloc: Global, a: &Tree, b: &Tree) -> Result<Option<EvalError>, Memory>
    requires a { is_evaluable is_built a.now ≡ true }
    requires b { is_evaluable is_built b.now ≡ true }
    ensures { IfOk result (λ e. e ≡ first_raised (parts real a.now ++ parts real b.now)) }
{
    match first_of(alloc, a)? {
        Some(error) => Ok(Some(error)),
        None => first_of(alloc, b),
    }
}

/// Of the parts of the one tree, and of the other unless the one is constant and its value so.
#[cycle(early)]
#[tactic(auto, using(crate::proofs::Raised::raised_first, crate::proofs::Raised::settled_none, crate::proofs::Raised::unsettled_later))]
fn first_unless(alloc: Global, a: &Tree, test: Test, b: &Tree) -> Result<Option<EvalError>, Memory>
    requires a { is_evaluable is_built a.now ≡ true }
    requires b { is_evaluable is_built b.now ≡ true }
    ensures { IfOk result (λ e. e ≡ first_raised (parts real a.now ++ (if settles real (holds test) a.now then [] else parts real b.now))) }
{
    if let Some(error) = first_of(alloc, a)? {
        return Ok(Some(error));
    }
    if settles(alloc, a, test)? {
        return Ok(None);
    }
    first_of(alloc, b)
}

#[cycle(early)]
#[tactic(auto, using(xp_tree::proofs::Rest::height_at, crate::proofs::Rest::evaluable_at, crate::proofs::Raised::raised_none, crate::proofs::Raised::raised_some, crate::proofs::Raised::raised_pass))]
fn first_of_all(alloc: Global, trees: &[Tree]) -> Result<Option<EvalError>, Memory>
    requires { all_evaluable is_built (terms trees.now) ≡ true }
    ensures { IfOk result (λ e. e ≡ first_raised (parts_of_all real (terms trees.now))) }
{
    'trees: for tree in trees {
        if let Some(error) = first_of(alloc, tree)? {
            return Ok(Some(error));
        }
    }
    Ok(None)
}

/// Of the parts up to a constant argument that isn't null.
#[cycle(early)]
#[tactic(auto, using(xp_tree::proofs::Rest::height_at, crate::proofs::Rest::evaluable_at, crate::proofs::Raised::no_argument, crate::proofs::Raised::argument_raised, crate::proofs::Raised::argument_settled, crate::proofs::Raised::argument_passed))]
fn first_of_choice(alloc: Global, trees: &[Tree]) -> Result<Option<EvalError>, Memory>
    requires { all_evaluable is_built (terms trees.now) ≡ true }
    ensures { IfOk result (λ e. e ≡ first_raised (parts_of_first real (terms trees.now))) }
{
    'trees: for tree in trees {
        if let Some(error) = first_of(alloc, tree)? {
            return Ok(Some(error));
        }
        if settles(alloc, tree, Test::IsntNull)? {
            return Ok(None);
        }
    }
    Ok(None)
}

/// Of the parts of the arms up to a constant condition that is true, and else of ELSE.
#[cycle(early)]
#[tactic(auto, using(xp_tree::proofs::Rest::condition_at, xp_tree::proofs::Rest::result_at, crate::proofs::Rest::condition_evaluable, crate::proofs::Rest::result_evaluable, crate::proofs::Raised::no_arms, crate::proofs::Raised::arm_raised, crate::proofs::Raised::arm_settled, crate::proofs::Raised::arm_passed))]
fn first_of_arms(
    alloc: Global,
    arms: &[CaseArm],
    otherwise: &Tree,
) -> Result<Option<EvalError>, Memory>
    requires arms { arms_evaluable is_built (arms_of arms.now) ≡ true }
    requires otherwise { is_evaluable is_built otherwise.now ≡ true }
    ensures { IfOk result (λ e. e ≡ first_raised (parts_of_arms real (arms_of arms.now) (parts real otherwise.now))) }
{
    'arms: for arm in arms {
        if let Some(error) = first_unless(alloc, &arm.condition, Test::IsntTrue, &arm.result)? {
            return Ok(Some(error));
        }
        if settles(alloc, &arm.condition, Test::IsTrue)? {
            return Ok(None);
        }
    }
    first_of(alloc, otherwise)
}

/// The error of the first part that may be evaluated early and raises, before any row is looked at;
/// none where no part does.
#[tactic(auto, using(crate::proofs::Permitted::is_permitted_early))]
pub fn early(alloc: Global, t: &Tree) -> Result<Option<EvalError>, Memory>
    requires { is_evaluable is_built t.now ≡ true }
    ensures first { IfOk result (λ e. e ≡ early_error t.now) }
    ensures permitted { IfOk result (λ e. IsPermittedEarly t.now e) }
{
    first_of(alloc, t)
}

/// The first error of the trees, in their order.
#[tactic(auto, using(crate::proofs::Permitted::are_permitted_early))]
pub fn early_all(alloc: Global, trees: &[Tree]) -> Result<Option<EvalError>, Memory>
    requires { all_evaluable is_built (terms trees.now) ≡ true }
    ensures first { IfOk result (λ e. e ≡ first_raised (parts_of_all real (terms trees.now))) }
    ensures permitted { IfOk result (λ e. ArePermittedEarly (terms trees.now) e) }
{
    first_of_all(alloc, trees)
}
