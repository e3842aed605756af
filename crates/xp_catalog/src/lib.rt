//! The catalogue: the rows of types, casts, functions, operators, domains and ranges, what a record
//! adds to them, and the look-ups. It stands on `xp_base`. It reads no text, and a row that breaks a
//! rule never enters it: `add` asks for a record that keeps them.
#![tactic(auto)]

mod catalog;
mod header;
mod laws;
mod lookups;
pub mod names;
mod record;
mod rows;
mod types;
mod why;

pub use catalog::{Catalog, Counts};
pub use header::{Header, HeaderColumn};
pub use laws::look_ups_find_the_one_row;
pub use record::{Record, RecordKind};
pub use rows::{
    CastMethod, CastRow, Context, DomainRow, Family, FuncRow, OperRow, PseudoType, RangeRow,
    TypeKind, TypeRow, Volatility,
};
pub use why::{CatFault, Why};
