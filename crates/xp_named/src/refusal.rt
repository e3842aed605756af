//! Refusals of analysis.
ghost use Rattle.std.specs.Prelude.{◌≡◌};

use thiserror::Error;
use xp_base::{Code, Memory};

/// Why a statement is refused, with the byte of the script at which it is, or that there was no
/// memory.
#[derive(Clone, Copy, Debug, PartialEq, Eq, Error)]
pub enum Refusal {
    #[error("byte {at}: {code}")]
    At { code: Code, at: u64 },
    #[error("out of memory")]
    Memory,
}

impl From<Memory> for Refusal {
    ghost use Rattle.xp_named.specs.declared.refusal.Refusal.TheVariants as refusal;

    ghost from_gives = { λ _ e. e ≡ refusal.Memory };

    fn from(_: Memory) -> Refusal {
        Refusal::Memory
    }
}
