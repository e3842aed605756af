//! Lists of trees.
ghost use Rattle.std.specs.Prelude.{◌≡◌, min, ◌^◌, ◌-◌, ◌&&◌, ◌||◌};
ghost use Rattle.xp_tree.specs.Term.{all_fixed as each_fixed, arms_fixed as fixed_arms, arms_open as open_arms, is_fixed, is_open, size_all as sizes, size_arms as arms_size, some_open, terms};
ghost use Rattle.xp_tree.specs.View.{arms_of};

use crate::node::CaseArm;
use crate::tree::Tree;

/// The sizes together.
#[tactic(auto, using(crate::proofs::Rest::sizes_step, crate::proofs::Rest::sizes_end))]
pub fn size_all(trees: &[Tree]) -> u64
    ensures { result ≡ min (sizes (terms trees.now)) (2 ^ 64 - 1) }
{
    let mut sum = 0u64;
    for tree in trees {
        sum = sum.saturating_add(tree.size());
    }
    sum
}

/// The sizes together.
#[tactic(auto, using(crate::proofs::Rest::arms_size_step, crate::proofs::Rest::arms_size_end))]
pub fn size_arms(arms: &[CaseArm]) -> u64
    ensures { result ≡ min (arms_size (arms_of arms.now)) (2 ^ 64 - 1) }
{
    let mut sum = 0u64;
    for arm in arms {
        sum = sum
            .saturating_add(arm.condition.size())
            .saturating_add(arm.result.size());
    }
    sum
}

/// Whether each is fixed.
#[tactic(auto, using(crate::proofs::Rest::fixed_step, crate::proofs::Rest::fixed_end))]
pub fn all_fixed(trees: &[Tree]) -> bool
    ensures { result ≡ each_fixed (terms trees.now) }
{
    for tree in trees {
        if !tree.is_fixed() {
            return false;
        }
    }
    true
}

/// Whether one is open.
#[tactic(auto, using(crate::proofs::Rest::open_step, crate::proofs::Rest::open_end))]
pub fn any_open(trees: &[Tree]) -> bool
    ensures { result ≡ some_open (terms trees.now) }
{
    for tree in trees {
        if tree.is_open() {
            return true;
        }
    }
    false
}

fn is_fixed_arm(arm: &CaseArm) -> bool
    ensures { result ≡ (is_fixed arm.now.condition && is_fixed arm.now.result) }
{
    arm.condition.is_fixed() && arm.result.is_fixed()
}

/// Whether each condition and each result is fixed.
#[tactic(auto, using(crate::proofs::Rest::arms_fixed_step, crate::proofs::Rest::arms_fixed_end))]
pub fn arms_fixed(arms: &[CaseArm]) -> bool
    ensures { result ≡ fixed_arms (arms_of arms.now) }
{
    for arm in arms {
        if !is_fixed_arm(arm) {
            return false;
        }
    }
    true
}

fn is_open_arm(arm: &CaseArm) -> bool
    ensures { result ≡ (is_open arm.now.condition || is_open arm.now.result) }
{
    arm.condition.is_open() || arm.result.is_open()
}

/// Whether a condition or a result is open.
#[tactic(auto, using(crate::proofs::Rest::arms_open_step, crate::proofs::Rest::arms_open_end))]
pub fn arms_open(arms: &[CaseArm]) -> bool
    ensures { result ≡ open_arms (arms_of arms.now) }
{
    for arm in arms {
        if is_open_arm(arm) {
            return true;
        }
    }
    false
}
