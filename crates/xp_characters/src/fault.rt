//! Why there is no text.
ghost use Rattle.std.specs.Prelude.{◌≡◌, if◌then◌else◌, nat_le, Ok, Err};
ghost use Rattle.xp_characters.specs.Faults.{too_large};

use std::alloc::AllocError;
use thiserror::Error;
use xp_base::{EvalError, Memory, VALUE_LIMIT};

/// Why a function of texts or bytes gave no value.
#[derive(Clone, Copy, Debug, PartialEq, Eq, Error)]
pub enum TextFault {
    /// It raised an error.
    #[error("{0}")]
    Raised(EvalError),
    #[error("out of memory")]
    Memory,
}

impl From<Memory> for TextFault {
    ghost use Rattle.std.specs.Prelude.{◌≡◌};
    ghost use Rattle.xp_characters.specs.declared.fault.TextFault.TheVariants as fault;

    ghost from_gives = { λ _ e. e ≡ fault.Memory };

    fn from(_: Memory) -> TextFault {
        TextFault::Memory
    }
}

impl From<AllocError> for TextFault {
    ghost use Rattle.std.specs.Prelude.{◌≡◌};
    ghost use Rattle.xp_characters.specs.declared.fault.TextFault.TheVariants as fault;

    ghost from_gives = { λ _ e. e ≡ fault.Memory };

    fn from(_: AllocError) -> TextFault {
        TextFault::Memory
    }
}

/// Refuses what has more bytes than a value may have.
pub fn check_size(bytes: usize) -> Result<(), TextFault>
    ensures { result ≡ (if nat_le bytes VALUE_LIMIT then Ok tt else Err too_large) }
{
    if bytes <= VALUE_LIMIT as usize {
        Ok(())
    } else {
        Err(TextFault::Raised(EvalError::Limit))
    }
}
