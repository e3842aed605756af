//! Why tokens are no statement.
use thiserror::Error;

/// Why a list of tokens is no statement. Places are bytes of the script.
#[derive(Clone, Copy, Debug, PartialEq, Eq, Error)]
pub enum ParseFault {
    /// The first token with which no statement continues begins here.
    #[error("syntax error at byte {at}")]
    Syntax { at: u32 },
    /// The first token at which the depth passes its limit begins here, and some statement continues with it.
    #[error("nested too deeply at byte {at}")]
    TooDeep { at: u32 },
    #[error("out of memory")]
    Memory,
}
