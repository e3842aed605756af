//! What bodies give of their arguments, by the number of a body in the table: those of integers,
//! booleans, numerics, texts but for concat and concat_ws, byte strings and dates. It stands on the
//! functions of the types, one crate a family. It never looks at a catalogue or a tree.
#![tactic(auto)]

mod answers;
mod arguments;
mod bytes;
mod calls;
mod dates;
mod fault;
mod integers;
mod made_texts;
mod numerics;
mod operations;
mod text_places;
mod texts;

pub use calls::{call, is_built};
pub use fault::CallFault;
