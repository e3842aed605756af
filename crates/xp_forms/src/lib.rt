//! What connectives, tests, the selections by a common type, CASE, NULLIF, IS DISTINCT FROM, LIKE, BETWEEN,
//! IN, ARRAY and subscripts mean over operands that are resolved already: the typed tree, the overloads that
//! are chosen, or the first refusal (manual 4.2.3, 4.2.12, 9.1, 9.2, 9.7.1, 9.18, 9.24.1, 10.5). It stands on
//! `xp_resolve`, reads no statement, goes down no syntax, and evaluates nothing.
#![tactic(auto)]

mod arrays;
mod cases;
mod common;
mod connectives;
mod equality;
mod operands;
mod rewritten;
mod tests;
mod truths;

pub use arrays::{array_made, empty_array, subscripted};
pub use cases::{When, Whens, cased};
pub use common::{alike, common_type, selected};
pub use connectives::{Connective, connected, negated};
pub use equality::{distinct, null_if};
pub use operands::Both;
pub use rewritten::{
    between_connective, first_half, in_connective, judged, like_operator, liked, lower_operator,
    member_operator, upper_operator,
};
pub use tests::tested;
