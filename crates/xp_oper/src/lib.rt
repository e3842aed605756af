//! The operator that a name and the types of its operands mean (manual 10.2). It stands on the
//! choice among candidates of xp_candidates. It never converts an operand, and never loads records.
#![tactic(auto)]

mod candidates;
mod exact;
mod laws;
mod pick;

pub use laws::{a_candidate_is_picked, other_operators_change_nothing};
pub use pick::pick_operator;
pub use xp_candidates::Pick;
