//! What follows from the definitions of the steps alone.
ghost use Rattle.std.specs.Prelude.{◌≡◌, ◌<◌, ◌≤◌, [], ◌∷◌, All, length, true};
ghost use Rattle.xp_overload.specs.Places.{is_marked, kept, slots_at};
ghost use Rattle.xp_overload.specs.Matches.{most_exact, most_preferred};
ghost use Rattle.xp_overload.specs.Categories.{of_category};
ghost use Rattle.xp_overload.specs.Choosing.{as_known_type, choice_of, left};
ghost use Rattle.xp_overload.specs.declared.choice.Choice.TheVariants.{Several};

use crate::{CandSlots, InSlot};

/// A candidate that a step leaves alone is the answer: each step leaves a list of one as it is.
pub fn one_stays(candidates: &[CandSlots], inputs: &[InSlot], as_known: &[bool], place: usize)
    ensures exact { most_exact (slots_at candidates.now) inputs.now (place ∷ []) ≡ place ∷ [] }
    ensures preferred { most_preferred (slots_at candidates.now) inputs.now (place ∷ []) ≡ place ∷ [] }
    ensures category { of_category (slots_at candidates.now) inputs.now (place ∷ []) ≡ place ∷ [] }
    ensures known { as_known_type (is_marked as_known.now) (place ∷ []) ≡ place ∷ [] }
{}

/// Those that are left are some of those that were kept, and two at least where the answer is
/// `Several`.
pub fn some_are_left(candidates: &[CandSlots], inputs: &[InSlot], as_known: &[bool], keep: &[bool])
    requires { 0 < length (kept keep.now) }
    ensures kept { All (λ place. is_marked keep.now place ≡ true) (left (slots_at candidates.now) (is_marked as_known.now) inputs.now (kept keep.now)) }
    ensures one { 0 < length (left (slots_at candidates.now) (is_marked as_known.now) inputs.now (kept keep.now)) }
    ensures several { choice_of (left (slots_at candidates.now) (is_marked as_known.now) inputs.now (kept keep.now)) ≡ Several → 2 ≤ length (left (slots_at candidates.now) (is_marked as_known.now) inputs.now (kept keep.now)) }
{}
