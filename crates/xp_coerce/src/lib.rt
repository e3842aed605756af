//! The tree that an expression becomes as one of another type: along the path between the types, then
//! brought to a modifier, then looked at by a domain (manual 10.1 to 10.4). It stands on the paths of
//! `xp_types`, the trees of `xp_tree` and the text forms of `xp_io`, and chooses no operator and no
//! function.
#![tactic(auto)]

mod along;
mod conversion;
mod domains;
mod fault;
mod literals;
mod types;
mod ways;

pub use conversion::coerce;
pub use fault::CoerceFault;
pub use literals::{literal, null, read_text};
pub use types::node_type;
pub use ways::callee_of;
