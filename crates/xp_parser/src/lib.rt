//! The parser of statements (manual 4.1.6 and 4.2): the tree of a list of tokens, or the place of its first fault.
//! Stands on the grammar's table and trees, the tokens and their depth, which bounds how deeply a statement nests.
//! Never looks at a catalogue: names, types and what an expression means are left as they are written.
#![tactic(auto)]

mod cases;
mod chains;
mod cursor;
mod fault;
mod forms;
mod grammar;
mod held;
mod laws;
mod lists;
mod operands;
mod parse_error;
mod parsing;
mod predicates;
mod primaries;
mod reading;
mod statements;
mod types;

pub use fault::ParseFault;
pub use laws::parsed_is_exact;
pub use parsing::parse;
