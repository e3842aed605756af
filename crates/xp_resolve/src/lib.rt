//! What constants, columns, operators, functions and casts of a statement mean over a catalogue: typed
//! trees over operands that are resolved already, with the overloads that are chosen and the first
//! refusal (manual 4.2 and 10). It stands on the choice of an operator or function and on
//! conversions. It reads no statement, and evaluates nothing.
#![tactic(auto)]

mod calls;
mod choice;
mod conversions;
mod lists;
mod literals;
mod made;
mod nodes;
mod operators;
mod order;
mod queue;
mod scene;
mod targets;
mod typed;

pub use calls::{called, refusal_of, types_of};
pub use choice::{Choice, chosen_call};
pub use conversions::{Converted, ConvertedAll, arguments, convert, plainly, text_type};
pub use lists::{push, reversed};
pub use literals::{named_column, null_literal, number, text_literal, truth, typed_literal};
pub use made::{Gathered, Made, Part, Parts, Progress, finished, refused};
pub use nodes::{are_typed_law, array_over};
pub use operators::operated;
pub use order::Order;
pub use queue::Queue;
pub use scene::Scene;
pub use targets::{Target, Targets};
pub use typed::{Use, Uses};
pub use xp_named::Refusal;
