//! Faults of rows files.
ghost use Rattle.std.specs.Prelude.{◌≡◌};

use std::alloc::{AllocError, AllocFailed};
use thiserror::Error;
use xp_base::{EvalError, Memory};
use xp_catalog::Why;

/// Why there are no rows of a text: its first fault, or none of its own. Rows count from 1 behind the
/// header, columns from 1.
#[derive(Clone, Copy, Debug, PartialEq, Eq, Error)]
pub enum RowsFault {
    #[error("header, column {column}: {why}")]
    Header {
        column: u32,
        why: Why,
    },
    #[error("row {row}: not as many fields as columns")]
    Width {
        row: u32,
    },
    #[error("row {row}, column {column}: {error}")]
    Field {
        row: u32,
        column: u32,
        error: EvalError,
    },
    #[error("row {row}: too many rows")]
    TooMany {
        row: u32,
    },
    /// The reader of the text failed, which no text makes it do.
    #[error("the text could not be read")]
    Unread,
    #[error("out of memory")]
    Memory,
}

impl From<Memory> for RowsFault {
    ghost use Rattle.xp_rows.specs.declared.fault.RowsFault.TheVariants as fault;

    ghost from_gives = { λ _ e. e ≡ fault.Memory };

    fn from(_: Memory) -> RowsFault {
        RowsFault::Memory
    }
}

impl From<AllocError> for RowsFault {
    ghost use Rattle.xp_rows.specs.declared.fault.RowsFault.TheVariants as fault;

    ghost from_gives = { λ _ e. e ≡ fault.Memory };

    fn from(_: AllocError) -> RowsFault {
        RowsFault::Memory
    }
}

impl<T: Drop> From<AllocFailed<T>> for RowsFault {
    ghost use Rattle.xp_rows.specs.declared.fault.RowsFault.TheVariants as fault;

    ghost from_gives = { λ _ e. e ≡ fault.Memory };

    fn from(_: AllocFailed<T>) -> RowsFault {
        RowsFault::Memory
    }
}
