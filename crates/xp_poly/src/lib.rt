//! Polymorphic types: whether declared types accept inputs, and what they stand for in a call
//! (manual 38.2.5). It stands on paths and common types. It never chooses among candidates, and
//! never asks for memory.
#![tactic(auto)]

mod acceptance;
mod bound;
mod members;
mod roles;
mod room;

pub use acceptance::accepts;
pub use bound::{Binding, bind};
pub use roles::{Form, Role, declared_role};
