//! What the columns of VALUES and of UNION ALL come to over items that are resolved already: all items of a
//! column converted to one type, or the first refusal (manual 10.5). It stands on `xp_forms`, reads no
//! statement, and evaluates nothing.
#![tactic(auto)]

mod columns;

pub use columns::{Lists, Table, UnionArm, united, values_made};
