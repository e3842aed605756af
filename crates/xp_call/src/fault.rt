//! Why there is no value.
use std::alloc::AllocError;
use thiserror::Error;
use xp_base::{EvalError, Memory};

/// Why an evaluation gave no value.
#[derive(Clone, Copy, Debug, PartialEq, Eq, Error)]
pub enum CallFault {
    /// It raised an error.
    #[error("{0}")]
    Raised(EvalError),
    #[error("out of memory")]
    Memory,
}

impl From<Memory> for CallFault {
    ghost use Rattle.std.specs.Prelude.{◌≡◌};
    ghost use Rattle.xp_call.specs.declared.fault.CallFault.TheVariants as fault;

    ghost from_gives = { λ _ e. e ≡ fault.Memory };

    fn from(_: Memory) -> CallFault {
        CallFault::Memory
    }
}

impl From<AllocError> for CallFault {
    ghost use Rattle.std.specs.Prelude.{◌≡◌};
    ghost use Rattle.xp_call.specs.declared.fault.CallFault.TheVariants as fault;

    ghost from_gives = { λ _ e. e ≡ fault.Memory };

    fn from(_: AllocError) -> CallFault {
        CallFault::Memory
    }
}
