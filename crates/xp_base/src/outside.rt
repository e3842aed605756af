//! What is outside of a run: the texts that it reads, and where its lines go.
ghost use Rattle.std.specs.Prelude.{◌≡◌, ◌≤◌, ℕ, List, Option};
ghost use Rattle.xp_base.specs.Outside.{Files, Loads, Puts};

use crate::{Byts, Memory};
use std::alloc::Global;
use thiserror::Error;

/// Why a text was not loaded.
#[derive(Clone, Copy, Debug, PartialEq, Eq, Error)]
pub enum LoadFault {
    /// The shelf failed, or has no text of that name.
    #[error("the text could not be read")]
    Failed,
    /// The text is longer than the limit; this many bytes were read, one more than the limit.
    #[error("the text has {read} bytes or more")]
    TooLong { read: u64 },
    #[error("out of memory")]
    Memory,
}

impl From<Memory> for LoadFault {
    ghost use Rattle.xp_base.specs.declared.outside.LoadFault.TheVariants as fault;

    ghost from_gives = { λ _ e. e ≡ fault.Memory };

    fn from(_: Memory) -> LoadFault {
        LoadFault::Memory
    }
}

/// The sink failed.
#[derive(Clone, Copy, Debug, PartialEq, Eq, Error)]
#[error("the line could not be written")]
pub struct Failed;

/// Texts under names.
pub trait Shelf {
    /// The texts, where they are told.
    ghost held: { Self → Option Files };

    /// How often the shelf has failed, up to the greatest `u64`.
    ghost faults: { Self → ℕ };

    /// Reads the text of that name, which may have up to `limit` bytes.
    fn load(&mut self, alloc: Global, name: &str, limit: u64) -> Result<Byts, LoadFault>
        ensures answer { Loads (held self.old) name.now limit (faults self.old) (faults self.new) result }
        ensures same { held self.new ≡ held self.old }
        ensures rises { faults self.old ≤ faults self.new };
}

/// Where lines go.
pub trait Sink {
    /// The bytes so far, where they are told.
    ghost contents: { Self → Option (List ℕ) };

    /// How often the sink has failed, up to the greatest `u64`.
    ghost faults: { Self → ℕ };

    /// Adds the piece at the end, or a prefix of it where it fails.
    fn put(&mut self, piece: &[u8]) -> Result<(), Failed>
        ensures answer { Puts (contents self.old) (contents self.new) piece.now (faults self.old) (faults self.new) result }
        ensures rises { faults self.old ≤ faults self.new };
}
