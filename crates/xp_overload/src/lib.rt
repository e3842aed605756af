//! The choice of one candidate among several that accept the inputs (manual 10.2 step 3.c to 3.f,
//! 10.3 step 4.c to 4.f). It stands on numbers of types alone: what a type is comes in with its slot.
//! It never looks at a catalogue, and never asks for memory.
#![tactic(auto)]

mod categories;
mod choice;
mod demands;
mod known;
mod laws;
mod matches;
mod slots;

pub use choice::{Choice, choose};
pub use laws::{one_stays, some_are_left};
pub use slots::{CandSlots, InSlot};
