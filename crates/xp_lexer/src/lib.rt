//! The lexer (manual 4.1): from the bytes of a script, the tokens of the statement at a place, or its first fault.
//! Stands on xp_token, whose tokens it makes, and on xp_base.
//! Never looks behind that statement's end, and never asks whether its tokens are a statement.
#![tactic(auto)]

mod bytes;
mod laws;
mod lexed;
mod lexing;
mod names;
mod numbers;
mod operators;
mod quoted;
mod scan;
mod scan_error;
mod space;

pub use laws::{lexed_is_the_grammar, operator_names_are_tokens};
pub use lexed::{LexFault, Lexed};
pub use lexing::lex;
