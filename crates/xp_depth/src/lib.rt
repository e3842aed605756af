//! How deep a list of tokens nests, found in one pass before anything is read of it.
//! Stands on the tokens and on their kinds in the grammar.
//! Never asks whether the tokens are a statement: any list has a depth.
#![tactic(auto)]

mod depth;

pub use depth::{Part, Role, first_deep};
