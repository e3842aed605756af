//! Rows files: the header and the rows of a text, or its first fault. It stands on `csv` for the
//! records, on what names mean as types, and on the text forms of values. It reads no file, and runs no
//! check of a domain.
#![tactic(auto)]

mod fault;
mod fields;
mod header;
mod loading;
mod records;

pub use fault::RowsFault;
pub use loading::{Rows, load_rows};
