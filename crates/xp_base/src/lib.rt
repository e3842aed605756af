//! What every layer stands on: names, texts and bytes, decimal numbers, codes, limits, what spells
//! an operator, and the outside. It stands on the standard library alone, and never reads a file or
//! writes a line: a shelf and a sink that do are their user's.
#![tactic(auto)]

mod codes;
mod decimal;
mod find;
mod limits;
mod memory;
mod numbers;
mod operators;
mod outside;
mod quiet;
mod texts;
mod want;

pub use codes::{Code, EvalError};
pub use decimal::Dec;
pub use limits::{
    ARGUMENT_LIMIT, CATALOG_LIMIT, COLUMN_LIMIT, DEPTH_LIMIT, DIGIT_LIMIT, ELEMENT_LIMIT,
    NODE_LIMIT, RECORD_LIMIT, ROW_LIMIT, ROWS_LIMIT, SCRIPT_LIMIT, TOKEN_LIMIT, VALUE_LIMIT,
    limits_are_these,
};
pub use memory::{MemoryShelf, MemorySink, StoredFile};
pub use numbers::{BodyNo, RowNo, Span, TypeNo};
pub use operators::{is_operator_byte, is_operator_name, is_sign, is_special_byte};
pub use outside::{Failed, LoadFault, Shelf, Sink};
pub use quiet::{QuietShelf, QuietSink};
pub use texts::{Byts, Name, Txt};
pub use want::Memory;
