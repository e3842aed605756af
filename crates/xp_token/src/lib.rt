//! Tokens of the script language (manual 4.1), for the lexer that makes them and the grammar and parser that read them.
//! Stands on xp_base alone, and on the kit's lists that hold themselves.
//! Never looks at a text: which bytes make which token is the lexer's.
#![tactic(auto)]

mod token;
mod words;

pub use token::{Mark, Token, TokenKind, Tokens};
pub use words::{Word, word_named};
