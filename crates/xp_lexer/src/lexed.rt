//! What the lexer answers.
use thiserror::Error;
use xp_token::Tokens;

/// The tokens of a statement with its End, and the place behind it.
#[derive(Debug, Drop)]
pub struct Lexed {
    pub tokens: Tokens,
    pub next: u64,
}

/// Why a statement has no tokens. Places are bytes of the script.
#[derive(Clone, Copy, Debug, PartialEq, Eq, Error)]
pub enum LexFault {
    /// No token begins here, or no character of a string or quoted name.
    #[error("invalid character at byte {at}")]
    BadByte { at: u64 },
    /// The string, quoted name or comment that begins here has no end.
    #[error("unclosed string, quoted name or comment at byte {start}")]
    Unclosed { start: u64 },
    /// One token more than a statement may have begins here.
    #[error("too many tokens at byte {at}")]
    TooManyTokens { at: u64 },
    #[error("out of memory")]
    Memory,
}
