//! The steps in their order.
ghost use Rattle.std.specs.Prelude.{◌≡◌, ◌<◌, ◌≤◌, IfOk, length};
ghost use Rattle.xp_types.specs.Within.{AreTypes};
ghost use Rattle.xp_candidates.specs.Chosen.{Answers, IfAmbiguous};
ghost use Rattle.xp_oper.specs.Picked.{AreLeftOf, chosen_operator, picked_operator};

use crate::candidates::candidates;
use crate::exact::matched;
use std::alloc::Global;
use xp_base::{RowNo, TypeNo};
use xp_candidates::{Pick, choose_candidate};
use xp_catalog::Catalog;

/// Step 3: the choice among the operators of that name.
fn choose_operator(alloc: Global, c: &Catalog, name: &str, inputs: &[TypeNo]) -> Result<RowNo, Pick>
    requires count { length inputs.now ≤ 2 }
    requires inputs { AreTypes c.now inputs.now }
    ensures value { Answers (chosen_operator c.now name.now inputs.now) result }
    ensures within { IfOk result (λ row. row.0 < length c.now.opers) }
{
    let candidates = candidates(alloc, c, name, inputs.len())?;
    let picked = choose_candidate(alloc, c, &candidates, inputs, false)?;
    Ok(picked.row)
}

/// The operator of that name over one operand, or over left and right. Of several that are left
/// the first two are told.
pub fn pick_operator(
    alloc: Global,
    c: &Catalog,
    name: &str,
    inputs: &[TypeNo],
) -> Result<RowNo, Pick>
    requires count { length inputs.now ≤ 2 }
    requires inputs { AreTypes c.now inputs.now }
    ensures value { Answers (picked_operator c.now name.now inputs.now) result }
    ensures ambiguous { IfAmbiguous result (AreLeftOf c.now name.now inputs.now) }
    ensures within { IfOk result (λ row. row.0 < length c.now.opers) }
{
    match matched(c, name, inputs) {
        Some(row) => Ok(row),
        None => choose_operator(alloc, c, name, inputs),
    }
}
