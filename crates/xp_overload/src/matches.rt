//! The candidates with the most matches at known positions (manual 10.2 step 3.c and 3.d).
ghost use Rattle.std.specs.Prelude.{◌≡◌, length};
ghost use Rattle.xp_overload.specs.Places.{kept, slots_at};
ghost use Rattle.xp_overload.specs.Matches.{greatest, is_match, matches, with_most};

use crate::slots::UNKNOWN_CATEGORY;
use crate::{CandSlots, InSlot};

/// How a slot matches a known input.
#[derive(Clone, Copy)]
pub enum Match {
    /// It has the input's type.
    Exact,
    /// It has another type, which is preferred in the input's category.
    Preferred,
}

impl Match {
    fn holds(self, input: &InSlot, slot: &InSlot) -> bool
        ensures { result ≡ is_match self input.now slot.now }
    {
        let known = input.category != UNKNOWN_CATEGORY;
        match self {
            Match::Exact => known && slot.ty.0 == input.ty.0,
            Match::Preferred => {
                known
                    && slot.ty.0 != input.ty.0
                    && slot.preferred
                    && slot.category == input.category
            }
        }
    }
}

/// At how many positions the slots match the inputs.
fn matches(kind: Match, inputs: &[InSlot], slots: &[InSlot]) -> usize
    ensures { result ≡ matches kind inputs.now slots.now }
{
    inputs
        .iter()
        .zip(slots)
        .filter(|(input, slot)| kind.holds(input, slot))
        .count()
}

/// The most matches that a candidate of those left has.
fn greatest(kind: Match, candidates: &[CandSlots], inputs: &[InSlot], keep: &[bool]) -> usize
    requires { length candidates.now ≡ length keep.now }
    ensures { result ≡ greatest (λ place. matches kind inputs.now (slots_at candidates.now place)) (kept keep.now) }
{
    let mut most = 0;
    for place in 0..keep.len() {
        if keep[place] {
            most = most.max(matches(kind, inputs, candidates[place].as_slice()));
        }
    }
    most
}

/// Leaves the candidates that have the most matches.
pub fn keep_most(kind: Match, candidates: &[CandSlots], inputs: &[InSlot], keep: &mut [bool])
    requires { length candidates.now ≡ length keep.old }
    ensures { kept keep.new ≡ with_most (λ place. matches kind inputs.now (slots_at candidates.now place)) (kept keep.old) }
{
    let most = greatest(kind, candidates, inputs, keep);
    for place in 0..keep.len() {
        if keep[place] {
            keep[place] = matches(kind, inputs, candidates[place].as_slice()) == most;
        }
    }
}
