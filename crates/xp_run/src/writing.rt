//! How lines are written, and how writing is cut off.
ghost use Rattle.std.specs.Prelude.{◌≡◌, ◌≤◌};
ghost use Rattle.xp_run.specs.inner.Writing.{Writes};

use std::alloc::AllocError;
use thiserror::Error;
use xp_base::{Failed, Memory, Sink};

/// Why a report was not written to its end.
#[derive(Clone, Copy, Debug, PartialEq, Eq, Error)]
pub enum WriteError {
    #[error("out of memory")]
    Memory,
    #[error("a line could not be written")]
    Failed,
}

impl From<AllocError> for WriteError {
    ghost use Rattle.xp_run.specs.declared.writing.WriteError.TheVariants as error;

    ghost from_gives = { λ _ e. e ≡ error.Memory };

    fn from(_: AllocError) -> WriteError {
        WriteError::Memory
    }
}

impl From<Memory> for WriteError {
    ghost use Rattle.xp_run.specs.declared.writing.WriteError.TheVariants as error;

    ghost from_gives = { λ _ e. e ≡ error.Memory };

    fn from(_: Memory) -> WriteError {
        WriteError::Memory
    }
}

impl From<Failed> for WriteError {
    ghost use Rattle.xp_run.specs.declared.writing.WriteError.TheVariants as error;

    ghost from_gives = { λ _ e. e ≡ error.Failed };

    fn from(_: Failed) -> WriteError {
        WriteError::Failed
    }
}

/// Puts a line.
pub fn put_line<K: Sink>(line: &[u8], out: &mut K) -> Result<(), WriteError>
    ensures wrote { Writes (K.contents out.old) (K.contents out.new) line.now (K.faults out.old) (K.faults out.new) result }
    ensures rises { K.faults out.old ≤ K.faults out.new }
{
    out.put(line)?;
    Ok(())
}
