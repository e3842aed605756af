//! The value of a typed tree at a row, from left to right, and the error that its constant parts
//! raise before any row is looked at. It stands on what trees mean and on calls of bodies. It never
//! folds or compiles a tree, and never prints a value.
#![tactic(auto)]

mod calls;
mod choices;
mod columns;
mod comparisons;
mod connectives;
mod constants;
mod decimals;
mod domains;
mod evaluable;
mod settled;
mod sizes;
mod steps;
mod texts;
mod truths;
mod walk;

pub use constants::{early, early_all};
pub use evaluable::is_evaluable;
pub use walk::{eval, eval_all};
