//! The function that a call's name and the types of its arguments mean, or the cast that the call
//! asks for (manual 10.3). It stands on the choice among candidates of xp_candidates. It never
//! converts an argument, and never loads records.
#![tactic(auto)]

mod candidates;
mod exact;
mod expanded;
mod laws;
mod pick;
mod request;

pub use candidates::unexpanded_of;
pub use expanded::expansion;
pub use laws::{a_candidate_is_picked, other_functions_change_nothing};
pub use pick::{PickedFunc, pick_function};
pub use xp_candidates::Pick;
