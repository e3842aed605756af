//! The steps in their order (manual 10.2 step 3.c to 3.f, 10.3 step 4.c to 4.f).
ghost use Rattle.std.specs.Prelude.{◌≡◌, ◌≤◌, length};
ghost use Rattle.xp_base.specs.declared.limits.TheConstants.{ARGUMENT_LIMIT};
ghost use Rattle.xp_overload.specs.Places.{HaveSlots, is_marked, kept, slots_at};
ghost use Rattle.xp_overload.specs.Choosing.{choice_of, left};

use crate::categories::keep_of_category;
use crate::known::keep_as_known;
use crate::matches::{Match, keep_most};
use crate::{CandSlots, InSlot};

/// What the choice among several candidates comes to.
#[derive(Clone, Copy, Debug, PartialEq, Eq)]
pub enum Choice {
    /// The candidate at this place.
    One(usize),
    /// More than one is left.
    Several,
}

/// The place that is left, if it is one.
fn only_one(keep: &[bool]) -> Choice
    ensures { result ≡ choice_of (kept keep.now) }
{
    let mut found = None;
    for place in 0..keep.len() {
        if keep[place] {
            if found.is_some() {
                return Choice::Several;
            }
            found = Some(place);
        }
    }
    match found {
        Some(place) => Choice::One(place),
        None => Choice::Several,
    }
}

/// Chooses among the candidates that `keep` marks, each of which accepts the inputs, and leaves
/// the marks of those that are left. `as_known` marks the candidates that accept the unknown
/// inputs as having the type of the known ones; it marks none where the known ones have several
/// types, or all inputs are known, or none is.
pub fn choose(
    candidates: &[CandSlots],
    inputs: &[InSlot],
    as_known: &[bool],
    keep: &mut [bool],
) -> Choice
    requires several { 2 ≤ length (kept keep.old) }
    requires masks { length candidates.now ≡ length keep.old }
    requires as_known { length as_known.now ≡ length keep.old }
    requires slots { HaveSlots candidates.now (length inputs.now) }
    requires room { length inputs.now ≤ ARGUMENT_LIMIT }
    ensures left { kept keep.new ≡ left (slots_at candidates.now) (is_marked as_known.now) inputs.now (kept keep.old) }
    ensures choice { result ≡ choice_of (left (slots_at candidates.now) (is_marked as_known.now) inputs.now (kept keep.old)) }
{
    keep_most(Match::Exact, candidates, inputs, keep);
    keep_most(Match::Preferred, candidates, inputs, keep);
    keep_of_category(candidates, inputs, keep);
    keep_as_known(as_known, keep);
    only_one(keep)
}
