//! What follows from the definitions of the steps alone.
ghost use Rattle.std.specs.Prelude.{◌≡◌, [], ◌∷◌};
ghost use Rattle.xp_candidates.specs.Chosen.{accepting, chosen, outcome, picked};

use crate::Candidate;
use xp_base::TypeNo;
use xp_catalog::Catalog;

/// Where one candidate alone accepts the inputs, the choice is that candidate, or none where a type
/// that it is bound to isn't there. So it is never ambiguous.
pub fn one_decides(
    c: &Catalog,
    candidates: &[Candidate],
    inputs: &[TypeNo],
    variadic: bool,
    one: &Candidate,
)
    requires { accepting c.now variadic inputs.now candidates.now ≡ one.now ∷ [] }
    ensures { chosen c.now variadic inputs.now candidates.now ≡ picked c.now inputs.now one.now }
{}

/// Where no candidate accepts the inputs, none is chosen.
pub fn none_decides(c: &Catalog, candidates: &[Candidate], inputs: &[TypeNo], variadic: bool)
    requires { accepting c.now variadic inputs.now candidates.now ≡ [] }
    ensures { chosen c.now variadic inputs.now candidates.now ≡ outcome c.now inputs.now [] }
{}
