//! Values of every type, their order, copies, and which values a type's representation has.
//! It stands on xp_base, and never reads or writes a value's text.
#![tactic(auto)]

mod copies;
mod numbers;
mod ordering;
mod value;
mod worked;

pub use copies::copy_all;
pub use ordering::{order, order_all, order_is_total, order_numbers, same, unpadded};
pub use value::{Array, FIRST_DAY, LAST_DAY, Range, RangeKind, Rep, Row, Value};
pub use worked::worked_representations;
