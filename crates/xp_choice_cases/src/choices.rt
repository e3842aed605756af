//! What is answered for the choice between two candidates by what they declare.
use crate::types::{MOST, types_named};
use anyhow::{Result, bail, ensure};
use std::alloc::Global;
use xp_catalog::Catalog;
use xp_overload::{CandSlots, Choice, InSlot, choose};
use xp_types::{category, preferred};

/// The slots of the types of a list.
fn slots_named(alloc: Global, c: &Catalog, list: &str) -> Result<CandSlots> {
    let mut slots = CandSlots::new(alloc);
    for ty in types_named(alloc, c, list)?.iter() {
        ensure!(ty.0 < c.counts().types, "no type of the catalogue");
        let slot = InSlot {
            ty: *ty,
            category: category(c, *ty),
            preferred: preferred(c, *ty),
        };
        slots.push(slot)?;
    }
    Ok(slots)
}

/// A candidate, and whether it accepts the unknown inputs as having the type of the known ones.
fn candidate_named(alloc: Global, c: &Catalog, text: &str) -> Result<(CandSlots, bool)> {
    match text.strip_suffix(" known") {
        Some(list) => Ok((slots_named(alloc, c, list)?, true)),
        None => Ok((slots_named(alloc, c, text)?, false)),
    }
}

/// Chooses between two candidates behind one that was discarded before, which would match exactly.
/// Tells which is chosen, and which are left, by their places.
#[tactic(auto, using(crate::proofs::ShortLists::three_have_slots))]
pub fn choose_answer(alloc: Global, c: &Catalog, text: &str) -> Result<String> {
    let mut lists = text.split(" | ");
    let (Some(inputs), Some(second), Some(third)) = (lists.next(), lists.next(), lists.next())
    else {
        bail!("inputs and two candidates are wanted");
    };
    let first = slots_named(alloc, c, inputs)?;
    let inputs = slots_named(alloc, c, inputs)?;
    let (second, second_known) = candidate_named(alloc, c, second)?;
    let (third, third_known) = candidate_named(alloc, c, third)?;
    let count = inputs.as_slice().len();
    ensure!(count <= MOST, "too many inputs");
    ensure!(first.as_slice().len() == count, "as many types are wanted");
    ensure!(second.as_slice().len() == count, "as many types are wanted");
    ensure!(third.as_slice().len() == count, "as many types are wanted");
    let candidates = [first, second, third];
    let as_known = [true, second_known, third_known];
    let mut keep = [false, true, true];
    let mut out = String::new(alloc);
    match choose(&candidates, inputs.as_slice(), &as_known, &mut keep) {
        Choice::One(place) => write!(out, "one, {place}; left:")?,
        Choice::Several => write!(out, "several; left:")?,
    }
    for (place, kept) in keep.iter().enumerate() {
        if *kept {
            write!(out, " {place}")?;
        }
    }
    Ok(out)
}
