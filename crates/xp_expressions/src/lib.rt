//! What an expression of a statement means over a catalogue, columns and VALUE: the typed tree, the overloads
//! that are chosen, or the first refusal, each form by one clause over its parts, which are resolved from left
//! to right (manual 4.2, chapters 9 and 10). It goes down the syntax and leaves what a form makes of its
//! operands to `xp_resolve` and `xp_forms`. It looks at no statement, and evaluates nothing.
#![tactic(auto)]

mod branches;
mod casts;
mod composed;
mod empty;
mod expressions;
mod operands;

pub use expressions::{resolve, with_operand};
pub use operands::{begun, nothing_yet};
