//! What the words of a type name: its number and its modifier, in a statement and in the header of a
//! rows file; and the refusals of analysis. It stands on the grammar's words, on a catalogue's types
//! and on the modifiers of trees. It never takes memory, and never looks at a value.
#![tactic(auto)]

mod header;
mod modifiers;
mod named;
mod names;
mod refusal;

pub use header::header_type;
pub use modifiers::{LENGTH_LIMIT, length_limit_is_this, takes_modifier};
pub use named::{NamedType, name_type};
pub use refusal::Refusal;
