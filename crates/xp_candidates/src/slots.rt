//! Types as the steps of the choice look at them.
ghost use Rattle.std.specs.Prelude.{◌≡◌, ◌<◌, IfOk, length, map};
ghost use Rattle.std.specs.List.{All};
ghost use Rattle.xp_types.specs.Within.{AreTypes};
ghost use Rattle.xp_candidates.specs.Accepted.{IsCandidate};
ghost use Rattle.xp_candidates.specs.Slots.{slot_of, slots_of};

use crate::Candidate;
use std::alloc::{AllocError, Global};
use xp_base::TypeNo;
use xp_catalog::Catalog;
use xp_overload::{CandSlots, InSlot};
use xp_types::{category, preferred};

fn slot_of(c: &Catalog, ty: TypeNo) -> InSlot
    requires { ty.0 < length c.now.types }
    ensures { result ≡ slot_of c.now ty }
{
    InSlot {
        ty,
        category: category(c, ty),
        preferred: preferred(c, ty),
    }
}

pub fn slots_of(alloc: Global, c: &Catalog, types: &[TypeNo]) -> Result<CandSlots, AllocError>
    requires { AreTypes c.now types.now }
    ensures { IfOk result (λ slots. slots ≡ slots_of c.now types.now) }
{
    let mut slots = CandSlots::new(alloc);
    for ty in types {
        slots.push(slot_of(c, *ty))?;
    }
    Ok(slots)
}

/// The slots of each candidate.
pub fn all_slots(
    alloc: Global,
    c: &Catalog,
    inputs: usize,
    candidates: &[Candidate],
) -> Result<Vec<CandSlots>, AllocError>
    requires { All (IsCandidate c.now inputs) candidates.now }
    ensures { IfOk result (λ list. list.items ≡ map (λ candidate. slots_of c.now candidate.declared) candidates.now) }
{
    let mut list = Vec::new(alloc);
    for candidate in candidates {
        list.push(slots_of(alloc, c, candidate.declared.as_slice())?)?;
    }
    Ok(list)
}
