//! What typed trees mean: the outcome of a tree from left to right, the outcomes that are permitted
//! beside it, the parts that may be evaluated before any row is looked at, and which trees can be
//! evaluated. It stands on typed trees, and on no evaluator: what bodies do and how texts are read is
//! a parameter. It has no code but laws.
#![tactic(auto)]

mod permitted;
mod worked;

pub use permitted::permitted_outcomes;
pub use worked::{worked_outcomes, worked_permits};
