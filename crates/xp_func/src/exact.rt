//! The functions that accept exactly the types of the arguments.
ghost use Rattle.std.specs.Prelude.{◌≡◌, IfOk, length, map};
ghost use Rattle.std.specs.List.{list_all};
ghost use Rattle.xp_types.specs.Readers.{is_known};
ghost use Rattle.xp_overload.specs.Places.{kept};
ghost use Rattle.xp_candidates.specs.inner.Marked.{IsWithin, first_two};
ghost use Rattle.xp_func.specs.Exact.{is_exact};

use crate::candidates::same_types;
use std::alloc::{AllocError, Global};
use xp_base::TypeNo;
use xp_candidates::{Candidate, Marked, first_two};
use xp_types::is_known;

fn all_known(types: &[TypeNo]) -> bool
    ensures { result ≡ list_all is_known types.now }
{
    types.iter().all(|ty| is_known(*ty))
}

fn mark_exact(
    alloc: Global,
    candidates: &[Candidate],
    inputs: &[TypeNo],
) -> Result<Vec<bool>, AllocError>
    ensures { IfOk result (λ marks. marks.items ≡ map (is_exact inputs.now) candidates.now) }
{
    let known = all_known(inputs);
    let mut marks = Vec::new(alloc);
    for candidate in candidates {
        marks.push(known && same_types(candidate.declared.as_slice(), inputs))?;
    }
    Ok(marks)
}

/// The first two that accept exactly the inputs.
pub fn exact(
    alloc: Global,
    candidates: &[Candidate],
    inputs: &[TypeNo],
) -> Result<Marked, AllocError>
    ensures value { IfOk result (λ marked. marked ≡ first_two (kept (map (is_exact inputs.now) candidates.now))) }
    ensures within { IfOk result (IsWithin (length candidates.now)) }
{
    let marks = mark_exact(alloc, candidates, inputs)?;
    Ok(first_two(&marks))
}
