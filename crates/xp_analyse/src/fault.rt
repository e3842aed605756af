//! Why a catalogue's checks are refused.
ghost use Rattle.std.specs.Prelude.{◌≡◌};

use thiserror::Error;
use xp_base::Memory;

/// The first domain whose check is none, or no fault of a check.
#[derive(Clone, Copy, Debug, PartialEq, Eq, Error)]
pub enum CheckFault {
    /// The domain of that record, counted from 1.
    #[error("record {line}: not a truth value over VALUE")]
    BadCheck { line: u32 },
    #[error("out of memory")]
    Memory,
}

impl From<Memory> for CheckFault {
    ghost use Rattle.xp_analyse.specs.declared.fault.CheckFault.TheVariants as fault;

    ghost from_gives = { λ _ e. e ≡ fault.Memory };

    fn from(_: Memory) -> CheckFault {
        CheckFault::Memory
    }
}
