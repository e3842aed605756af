//! What is demanded of a candidate at each unknown position (manual 10.2 step 3.e).
ghost use Rattle.std.specs.Prelude.{◌≡◌, ◌≤◌, length, take};
ghost use Rattle.std.specs.List.{list_any};
ghost use Rattle.xp_base.specs.declared.limits.TheConstants.{ARGUMENT_LIMIT};
ghost use Rattle.xp_overload.specs.Places.{HaveSlots, kept, slots_at};
ghost use Rattle.xp_overload.specs.Categories.{column, selected, shared_category};
ghost use Rattle.xp_overload.specs.inner.Demands.{Reaches, demand_at, demands_from, first_of, is_wanted, meets};

use crate::slots::{STRING_CATEGORY, UNKNOWN_CATEGORY};
use crate::{CandSlots, InSlot};
use xp_base::ARGUMENT_LIMIT;

/// Room for a demand at each input of a call.
const ROOM: usize = ARGUMENT_LIMIT as usize;

/// A slot that is looked for.
#[derive(Clone, Copy)]
enum Wanted {
    Category(u8),
    OtherCategory(u8),
    PreferredOf(u8),
}

impl Wanted {
    fn fits(self, slot: InSlot) -> bool
        ensures { result ≡ is_wanted self slot }
    {
        match self {
            Wanted::Category(category) => slot.category == category,
            Wanted::OtherCategory(category) => slot.category != category,
            Wanted::PreferredOf(category) => slot.preferred && slot.category == category,
        }
    }
}

/// What is demanded of a candidate's slot at one position.
#[derive(Clone, Copy)]
pub enum Demand {
    Anything,
    Slot { category: u8, preferred: bool },
    Nothing,
}

impl Demand {
    pub fn is_met_by(self, slot: InSlot) -> bool
        ensures { result ≡ meets self slot }
    {
        match self {
            Demand::Anything => true,
            Demand::Slot {
                category,
                preferred,
            } => slot.category == category && (slot.preferred || !preferred),
            Demand::Nothing => false,
        }
    }
}

/// Whether a candidate that is left has such a slot at the position.
fn any_slot(wanted: Wanted, candidates: &[CandSlots], position: usize, keep: &[bool]) -> bool
    requires lengths { length candidates.now ≡ length keep.now }
    requires reach { Reaches candidates.now position }
    ensures { result ≡ list_any (is_wanted wanted) (column (slots_at candidates.now) position (kept keep.now)) }
{
    for place in 0..keep.len() {
        if keep[place] && wanted.fits(candidates[place].as_slice()[position]) {
            return true;
        }
    }
    false
}

/// The slot that the first candidate that is left has at the position.
fn first_slot(candidates: &[CandSlots], position: usize, keep: &[bool]) -> Option<InSlot>
    requires lengths { length candidates.now ≡ length keep.now }
    requires reach { Reaches candidates.now position }
    ensures { result ≡ first_of (column (slots_at candidates.now) position (kept keep.now)) }
{
    for place in 0..keep.len() {
        if keep[place] {
            return Some(candidates[place].as_slice()[position]);
        }
    }
    None
}

/// The category that all candidates that are left have at the position.
#[tactic(auto, using(crate::proofs::Survivors::shared_none))]
fn shared_category(candidates: &[CandSlots], position: usize, keep: &[bool]) -> Option<u8>
    requires lengths { length candidates.now ≡ length keep.now }
    requires reach { Reaches candidates.now position }
    ensures { result ≡ shared_category (column (slots_at candidates.now) position (kept keep.now)) }
{
    let first = first_slot(candidates, position, keep)?;
    let other = Wanted::OtherCategory(first.category);
    if any_slot(other, candidates, position, keep) {
        None
    } else {
        Some(first.category)
    }
}

/// String where a candidate has it at the position, else the category that all have.
fn selected_category(candidates: &[CandSlots], position: usize, keep: &[bool]) -> Option<u8>
    requires lengths { length candidates.now ≡ length keep.now }
    requires reach { Reaches candidates.now position }
    ensures { result ≡ selected (column (slots_at candidates.now) position (kept keep.now)) }
{
    let string = Wanted::Category(STRING_CATEGORY);
    if any_slot(string, candidates, position, keep) {
        Some(STRING_CATEGORY)
    } else {
        shared_category(candidates, position, keep)
    }
}

fn demand_at(input: InSlot, candidates: &[CandSlots], position: usize, keep: &[bool]) -> Demand
    requires lengths { length candidates.now ≡ length keep.now }
    requires reach { Reaches candidates.now position }
    ensures { result ≡ demand_at input (column (slots_at candidates.now) position (kept keep.now)) }
{
    if input.category != UNKNOWN_CATEGORY {
        return Demand::Anything;
    }
    match selected_category(candidates, position, keep) {
        Some(category) => Demand::Slot {
            category,
            preferred: any_slot(Wanted::PreferredOf(category), candidates, position, keep),
        },
        None => Demand::Nothing,
    }
}

/// The demands at the positions of the inputs, which come first.
pub fn demands(candidates: &[CandSlots], inputs: &[InSlot], keep: &[bool]) -> [Demand; ROOM]
    requires lengths { length candidates.now ≡ length keep.now }
    requires slots { HaveSlots candidates.now (length inputs.now) }
    requires room { length inputs.now ≤ ARGUMENT_LIMIT }
    ensures { take (length inputs.now) result ≡ demands_from candidates.now (kept keep.now) 0 inputs.now }
{
    let mut demands = [Demand::Anything; ROOM];
    for position in 0..inputs.len() {
        demands[position] = demand_at(inputs[position], candidates, position, keep);
    }
    demands
}
