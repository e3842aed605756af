//! Operands that are resolved.
use xp_resolve::{Part, Progress};

/// Two operands, and what is made so far with them.
#[derive(Drop)]
pub struct Both {
    pub left: Part,
    pub right: Part,
    pub progress: Progress,
}
