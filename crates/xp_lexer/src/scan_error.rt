//! Why a piece of the script could not be read, by the number of bytes left from that place on.
use std::alloc::{AllocError, AllocFailed};
use xp_base::Memory;

#[derive(Clone, Copy, Debug)]
pub enum ScanError {
    BadByte { left: usize },
    Unclosed { left: usize },
    TooManyTokens { left: usize },
    Memory,
}

impl From<AllocError> for ScanError {
    ghost use Rattle.std.specs.Prelude.{◌≡◌};
    ghost use Rattle.xp_lexer.specs.declared.scan_error.ScanError.TheVariants.{Memory};

    ghost from_gives = { λ _ e. e ≡ Memory };

    fn from(_: AllocError) -> ScanError {
        ScanError::Memory
    }
}

impl<T: Drop> From<AllocFailed<T>> for ScanError {
    ghost use Rattle.std.specs.Prelude.{◌≡◌};
    ghost use Rattle.xp_lexer.specs.declared.scan_error.ScanError.TheVariants.{Memory};

    ghost from_gives = { λ _ e. e ≡ Memory };

    fn from(_: AllocFailed<T>) -> ScanError {
        ScanError::Memory
    }
}

impl From<Memory> for ScanError {
    ghost use Rattle.std.specs.Prelude.{◌≡◌};
    ghost use Rattle.xp_lexer.specs.declared.scan_error.ScanError.TheVariants as error;

    ghost from_gives = { λ _ e. e ≡ error.Memory };

    fn from(_: Memory) -> ScanError {
        ScanError::Memory
    }
}
