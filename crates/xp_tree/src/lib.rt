//! Typed trees of expressions (manual 4.2): nodes over trees, each with the type of its value, and
//! the checks of a catalogue's domains. It stands on values, rows of a catalogue and the table of
//! bodies, and evaluates nothing.
#![tactic(auto)]

mod checks;
mod copies;
mod drops;
mod kept;
mod lists;
mod make;
mod node;
mod parts;
mod stacks;
mod tree;

pub use checks::{Checks, DomainCheck};
pub use node::{CaseArm, CaseArms, Node, Trees};
pub use parts::{Callee, Modifier, NodeType, Way};
pub use tree::Tree;
