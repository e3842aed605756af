//! Why a tree can't be converted.
ghost use Rattle.std.specs.Prelude.{◌≡◌};

use thiserror::Error;
use xp_base::{Code, Memory, TypeNo};
use xp_io::InFault;

/// Why a tree can't be converted.
#[derive(Clone, Copy, Debug, PartialEq, Eq, Error)]
pub enum CoerceFault {
    /// There is no path from the one type to the other (42846).
    #[error("no path from one type to the other")]
    CannotCoerce { from: TypeNo, to: TypeNo },
    /// A literal isn't a text of the type that is wanted. The code is that of its text form.
    #[error("{code}")]
    BadLiteral { code: Code },
    #[error("out of memory")]
    Memory,
}

impl From<Memory> for CoerceFault {
    ghost use Rattle.xp_coerce.specs.declared.fault.CoerceFault.TheVariants as fault;

    ghost from_gives = { λ _ e. e ≡ fault.Memory };

    fn from(_: Memory) -> CoerceFault {
        CoerceFault::Memory
    }
}

impl From<InFault> for CoerceFault {
    ghost use Rattle.xp_coerce.specs.inner.Faults.{fault_of};

    ghost from_gives = { λ fault e. e ≡ fault_of fault };

    fn from(fault: InFault) -> CoerceFault {
        match fault {
            InFault::Bad(error) => CoerceFault::BadLiteral {
                code: Code::Raised(error),
            },
            InFault::Memory => CoerceFault::Memory,
        }
    }
}
