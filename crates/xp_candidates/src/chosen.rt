//! The steps of the choice in their order.
ghost use Rattle.std.specs.Prelude.{◌≡◌, ◌<◌, ◌≤◌, IfOk, OnOk, length, true};
ghost use Rattle.std.specs.List.{All, list_any};
ghost use Rattle.xp_base.specs.declared.limits.TheConstants.{ARGUMENT_LIMIT};
ghost use Rattle.xp_types.specs.Within.{AreTypes};
ghost use Rattle.xp_overload.specs.Places.{kept};
ghost use Rattle.xp_candidates.specs.Known.{bases};
ghost use Rattle.xp_candidates.specs.Accepted.{IsCandidate};
ghost use Rattle.xp_candidates.specs.Chosen.{Answers, chosen, is_of, narrowed, remaining};
ghost use Rattle.xp_candidates.specs.inner.Marked.{AcceptsOne, IsWithin, outcome_at, those};

use crate::accepted::{mark_taking, mark_taking_as};
use crate::bound::binds;
use crate::known::{bases, known_type};
use crate::marked::{Marked, first_two};
use crate::slots::{all_slots, slots_of};
use crate::{Candidate, Pick, Picked};
use std::alloc::{AllocError, Global};
use xp_base::TypeNo;
use xp_catalog::Catalog;
use xp_overload::choose;

/// Leaves the marks of those that are left of several, over base types.
fn narrow(
    alloc: Global,
    c: &Catalog,
    candidates: &[Candidate],
    inputs: &[TypeNo],
    keep: &mut [bool],
) -> Result<(), AllocError>
    requires candidates { All (IsCandidate c.now (length inputs.now)) candidates.now }
    requires inputs { AreTypes c.now inputs.now }
    requires room { length inputs.now ≤ ARGUMENT_LIMIT }
    requires lengths { length keep.old ≡ length candidates.now }
    requires several { 2 ≤ length (kept keep.old) }
    ensures { OnOk result (those candidates.now (kept keep.new) ≡ narrowed c.now inputs.now (those candidates.now (kept keep.old))) }
{
    let as_known = mark_taking_as(alloc, c, candidates, inputs, known_type(inputs))?;
    let slots = all_slots(alloc, c, inputs.len(), candidates)?;
    let input_slots = slots_of(alloc, c, inputs)?;
    choose(&slots, input_slots.as_slice(), &as_known, keep);
    Ok(())
}

/// Leaves the marks of those that the steps leave of these.
fn narrow_several(
    alloc: Global,
    c: &Catalog,
    candidates: &[Candidate],
    inputs: &[TypeNo],
    keep: &mut [bool],
) -> Result<(), AllocError>
    requires candidates { All (IsCandidate c.now (length inputs.now)) candidates.now }
    requires inputs { AreTypes c.now inputs.now }
    requires room { length inputs.now ≤ ARGUMENT_LIMIT }
    requires lengths { length keep.old ≡ length candidates.now }
    ensures { OnOk result (those candidates.now (kept keep.new) ≡ narrowed c.now (bases c.now inputs.now) (those candidates.now (kept keep.old))) }
{
    match first_two(keep) {
        Marked::Several { .. } => {
            let types = bases(alloc, c, inputs)?;
            narrow(alloc, c, candidates, types.as_slice(), keep)
        }
        _ => Ok(()),
    }
}

/// Marks the candidates that the steps leave.
fn mark_remaining(
    alloc: Global,
    c: &Catalog,
    candidates: &[Candidate],
    inputs: &[TypeNo],
    variadic: bool,
) -> Result<Vec<bool>, AllocError>
    requires candidates { All (IsCandidate c.now (length inputs.now)) candidates.now }
    requires inputs { AreTypes c.now inputs.now }
    requires room { length inputs.now ≤ ARGUMENT_LIMIT }
    ensures value { IfOk result (λ keep. those candidates.now (kept keep.items) ≡ remaining c.now variadic inputs.now candidates.now) }
    ensures length { IfOk result (λ keep. length keep.items ≡ length candidates.now) }
{
    let mut keep = mark_taking(alloc, c, candidates, inputs, variadic)?;
    narrow_several(alloc, c, candidates, inputs, &mut keep)?;
    Ok(keep)
}

/// What the choice comes to where these are left.
fn outcome(
    c: &Catalog,
    candidates: &[Candidate],
    inputs: &[TypeNo],
    marked: Marked,
) -> Result<Picked, Pick>
    requires candidates { All (IsCandidate c.now (length inputs.now)) candidates.now }
    requires inputs { AreTypes c.now inputs.now }
    requires room { length inputs.now ≤ ARGUMENT_LIMIT }
    requires within { IsWithin (length candidates.now) marked }
    requires accepted { AcceptsOne c.now inputs.now candidates.now marked }
    ensures { result ≡ outcome_at c.now inputs.now candidates.now marked }
{
    match marked {
        Marked::Nothing => Err(Pick::Undefined),
        Marked::One(place) => {
            let candidate = &candidates[place];
            if !binds(c, candidate, inputs) {
                return Err(Pick::Undefined);
            }
            Ok(Picked {
                row: candidate.row,
                expanded: candidate.expanded,
            })
        }
        Marked::Several { first, second } => Err(Pick::Ambiguous {
            first: candidates[first].row,
            second: candidates[second].row,
        }),
    }
}

/// Chooses among the candidates of a name, in the order of their records. `variadic` tells whether
/// the word VARIADIC stands before the last input.
pub fn choose_candidate(
    alloc: Global,
    c: &Catalog,
    candidates: &[Candidate],
    inputs: &[TypeNo],
    variadic: bool,
) -> Result<Picked, Pick>
    requires candidates { All (IsCandidate c.now (length inputs.now)) candidates.now }
    requires inputs { AreTypes c.now inputs.now }
    requires room { length inputs.now ≤ ARGUMENT_LIMIT }
    ensures value { Answers (chosen c.now variadic inputs.now candidates.now) result }
    ensures among { IfOk result (λ picked. list_any (is_of picked) candidates.now ≡ true) }
{
    let keep = mark_remaining(alloc, c, candidates, inputs, variadic)?;
    outcome(c, candidates, inputs, first_two(&keep))
}
