//! The candidates that take the selected category at each unknown position (manual 10.2 step
//! 3.e).
ghost use Rattle.std.specs.Prelude.{◌≡◌, ◌≤◌, length};
ghost use Rattle.xp_base.specs.declared.limits.TheConstants.{ARGUMENT_LIMIT};
ghost use Rattle.xp_overload.specs.Places.{HaveSlots, kept, slots_at};
ghost use Rattle.xp_overload.specs.Categories.{of_category};
ghost use Rattle.xp_overload.specs.inner.Demands.{is_filled, meets_all, passing};

use crate::demands::{Demand, demands};
use crate::{CandSlots, InSlot};

fn meets_all(demands: &[Demand], slots: &[InSlot]) -> bool
    ensures { result ≡ meets_all demands.now slots.now }
{
    demands
        .iter()
        .zip(slots)
        .all(|(demand, slot)| demand.is_met_by(*slot))
}

/// Whether a candidate that is left meets all demands.
fn any_passes(candidates: &[CandSlots], demands: &[Demand], keep: &[bool]) -> bool
    requires { length candidates.now ≡ length keep.now }
    ensures { result ≡ is_filled (passing candidates.now demands.now (kept keep.now)) }
{
    for place in 0..keep.len() {
        if keep[place] && meets_all(demands, candidates[place].as_slice()) {
            return true;
        }
    }
    false
}

/// Leaves the candidates that meet all demands.
fn keep_passing(candidates: &[CandSlots], demands: &[Demand], keep: &mut [bool])
    requires { length candidates.now ≡ length keep.old }
    ensures { kept keep.new ≡ passing candidates.now demands.now (kept keep.old) }
{
    for place in 0..keep.len() {
        if keep[place] {
            keep[place] = meets_all(demands, candidates[place].as_slice());
        }
    }
}

/// Leaves the candidates that take the selected categories, or all where none does.
#[tactic(auto, using(crate::proofs::Survivors::passing_survive, crate::proofs::Survivors::some_pass, crate::proofs::Survivors::none_pass))]
pub fn keep_of_category(candidates: &[CandSlots], inputs: &[InSlot], keep: &mut [bool])
    requires lengths { length candidates.now ≡ length keep.old }
    requires slots { HaveSlots candidates.now (length inputs.now) }
    requires room { length inputs.now ≤ ARGUMENT_LIMIT }
    ensures { kept keep.new ≡ of_category (slots_at candidates.now) inputs.now (kept keep.old) }
{
    let demands = demands(candidates, inputs, keep);
    let demands = &demands[..inputs.len()];
    if any_passes(candidates, demands, keep) {
        keep_passing(candidates, demands, keep);
    }
}
