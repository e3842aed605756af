//! The steps in their order.
ghost use Rattle.std.specs.Prelude.{◌≡◌, ◌<◌, ◌≤◌, IfOk, length};
ghost use Rattle.xp_types.specs.Within.{AreTypes};
ghost use Rattle.std.specs.List.{All};
ghost use Rattle.xp_base.specs.declared.limits.TheConstants.{ARGUMENT_LIMIT};
ghost use Rattle.xp_candidates.specs.Accepted.{IsCandidate};
ghost use Rattle.xp_candidates.specs.Chosen.{Answers, IfAmbiguous};
ghost use Rattle.xp_func.specs.Picked.{AreLeftOf, IsKnownPick, chosen_call, picked_among, picked_function, request_or};
ghost use Rattle.xp_func.specs.Request.{cast_request};

use crate::candidates::candidates;
use crate::exact::exact;
use crate::request::cast_request;
use std::alloc::Global;
use xp_base::{RowNo, TypeNo};
use xp_candidates::{Candidate, Marked, Pick, choose_candidate};
use xp_catalog::Catalog;

/// What a call means.
#[derive(Clone, Copy, Debug, PartialEq, Eq)]
pub enum PickedFunc {
    /// A call of the function of that row. So many arguments stand for the elements of its variadic
    /// parameter; 0 where it is called as it stands.
    Call { row: RowNo, expanded: u32 },
    /// A cast of the argument to the type that the call names.
    CastRequest(TypeNo),
}

/// Step 4: the choice among the candidates.
fn choose_call(
    alloc: Global,
    c: &Catalog,
    candidates: &[Candidate],
    inputs: &[TypeNo],
    variadic: bool,
) -> Result<PickedFunc, Pick>
    requires candidates { All (IsCandidate c.now (length inputs.now)) candidates.now }
    requires rows { All (λ candidate. candidate.row.0 < length c.now.funcs) candidates.now }
    requires count { length inputs.now ≤ ARGUMENT_LIMIT }
    requires inputs { AreTypes c.now inputs.now }
    ensures value { Answers (chosen_call c.now variadic inputs.now candidates.now) result }
    ensures within { IfOk result (IsKnownPick c.now) }
{
    let picked = choose_candidate(alloc, c, candidates, inputs, variadic)?;
    Ok(PickedFunc::Call {
        row: picked.row,
        expanded: picked.expanded,
    })
}

/// Steps 3 and 4: the type that the call asks to cast to, else the choice among the candidates.
fn request_or_choose(
    alloc: Global,
    c: &Catalog,
    name: &str,
    candidates: &[Candidate],
    inputs: &[TypeNo],
    variadic: bool,
) -> Result<PickedFunc, Pick>
    requires candidates { All (IsCandidate c.now (length inputs.now)) candidates.now }
    requires rows { All (λ candidate. candidate.row.0 < length c.now.funcs) candidates.now }
    requires count { length inputs.now ≤ ARGUMENT_LIMIT }
    requires inputs { AreTypes c.now inputs.now }
    ensures value { Answers (request_or (cast_request c.now name.now inputs.now variadic) (chosen_call c.now variadic inputs.now candidates.now)) result }
    ensures within { IfOk result (IsKnownPick c.now) }
{
    match cast_request(c, name, inputs, variadic) {
        Some(ty) => Ok(PickedFunc::CastRequest(ty)),
        None => choose_call(alloc, c, candidates, inputs, variadic),
    }
}

/// The steps in their order, over the candidates.
fn pick_among(
    alloc: Global,
    c: &Catalog,
    name: &str,
    candidates: &[Candidate],
    inputs: &[TypeNo],
    variadic: bool,
) -> Result<PickedFunc, Pick>
    requires candidates { All (IsCandidate c.now (length inputs.now)) candidates.now }
    requires rows { All (λ candidate. candidate.row.0 < length c.now.funcs) candidates.now }
    requires count { length inputs.now ≤ ARGUMENT_LIMIT }
    requires inputs { AreTypes c.now inputs.now }
    ensures value { Answers (picked_among c.now name.now inputs.now variadic candidates.now) result }
    ensures within { IfOk result (IsKnownPick c.now) }
{
    let marked = exact(alloc, candidates, inputs)?;
    match marked {
        Marked::Nothing => request_or_choose(alloc, c, name, candidates, inputs, variadic),
        Marked::One(place) => Ok(PickedFunc::Call {
            row: candidates[place].row,
            expanded: candidates[place].expanded,
        }),
        Marked::Several { first, second } => Err(Pick::Ambiguous {
            first: candidates[first].row,
            second: candidates[second].row,
        }),
    }
}

/// The function of that name over these arguments, or the type that the call asks to cast to.
/// `variadic` tells whether the word VARIADIC stands before the last argument. Of several that are
/// left the first two are told, in the order of their records.
pub fn pick_function(
    alloc: Global,
    c: &Catalog,
    name: &str,
    inputs: &[TypeNo],
    variadic: bool,
) -> Result<PickedFunc, Pick>
    requires count { length inputs.now ≤ ARGUMENT_LIMIT }
    requires inputs { AreTypes c.now inputs.now }
    ensures value { Answers (picked_function c.now name.now inputs.now variadic) result }
    ensures within { IfOk result (IsKnownPick c.now) }
    ensures ambiguous { IfAmbiguous result (AreLeftOf c.now name.now inputs.now variadic) }
{
    let candidates = candidates(alloc, c, name, inputs.len(), variadic)?;
    pick_among(alloc, c, name, &candidates, inputs, variadic)
}
