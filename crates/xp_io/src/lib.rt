//! The text forms of values: which value of a type a text is, and the text of a value.
//! Stands on values, the catalogue's types and what the lexer says of whole numbers.
//! Never reads or writes more than one value, and never looks at null, which has no text.
#![tactic(auto)]

mod booleans;
mod integers;
mod laws;
mod reading;
mod representations;
mod space;
mod worked;
mod writing;

pub use laws::whole_numbers_are_the_lexers;
pub use reading::{InFault, read_text, read_value};
pub use representations::{element_rep, rep_of};
pub use worked::worked_forms;
pub use writing::{text_of, write_text, write_value};
