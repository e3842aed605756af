//! The grammar of statements (manual 4.1.6 and 4.2): the trees that a parser builds, the kinds of tokens
//! by which it goes, and the table of lines that says which tokens are which statement, with its laws.
//! It stands on the tokens alone, and never reads a statement: that is the parser's.
#![tactic(auto)]

mod ast;
mod kind;
mod laws;
mod statement;
mod types;

pub use ast::{Arm, Ast, Exprs, Selection, Side, TruthTest};
pub use kind::{Class, Kind, token_kind};
pub use laws::{derivation_builds_a_statement, grammar_has_one_reading, reading_goes_by_the_table};
pub use statement::{ExprLists, Item, ItemLists, Items, SelectArm, Statement};
pub use types::{Moment, TypeModifier, TypeName, TypeWords};
