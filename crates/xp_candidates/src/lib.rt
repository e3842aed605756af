//! The choice of one candidate among those of a name, by their declared types (manual 10.2 step 3,
//! 10.3 step 4): what operators and functions share. It stands on types and on the steps of
//! xp_overload. It never lists candidates, and never looks for exact matches of names.
#![tactic(auto)]

mod accepted;
mod bound;
mod candidate;
mod chosen;
mod known;
mod laws;
mod marked;
mod pick;
mod slots;

pub use candidate::{Candidate, push_some};
pub use chosen::choose_candidate;
pub use laws::{none_decides, one_decides};
pub use marked::{Marked, first_two};
pub use pick::{Pick, Picked};
