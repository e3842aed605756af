//! A shelf and a sink that never fault.
ghost use Rattle.std.specs.Prelude.{◌≡◌, ◌≤◌, IsOk, None, Some};
ghost use Rattle.xp_base.specs.Outside.{Loads, Puts};

use crate::{Byts, Failed, LoadFault, Shelf, Sink, StoredFile, find};
use std::alloc::Global;

/// Files in memory. A name that isn't there is the only failure, and no fault is counted. Of two
/// files of one name the first counts.
#[derive(Debug, Drop)]
pub struct QuietShelf {
    files: Vec<StoredFile>,
}

impl QuietShelf {
    ghost use Rattle.xp_base.specs.Stored.{pairs, quiet_files};

    pub fn new(files: Vec<StoredFile>) -> QuietShelf
        ensures { quiet_files result ≡ pairs files.items }
    {
        QuietShelf { files }
    }
}

impl Shelf for QuietShelf {
    ghost use Rattle.std.specs.Prelude.{Some};
    ghost use Rattle.xp_base.specs.Stored.{AnswersShelf, file_answer, quiet_files};

    ghost held = { λ s. Some (quiet_files s) };

    ghost faults = { λ _. 0 };

    fn load(&mut self, alloc: Global, name: &str, limit: u64) -> Result<Byts, LoadFault>
        ensures answer { Loads (Some (quiet_files self.old)) name.now limit 0 0 result }
        ensures same { Some (quiet_files self.new) ≡ Some (quiet_files self.old) }
        ensures rises { 0 ≤ 0 }

        ensures exact { AnswersShelf (file_answer (quiet_files self.old) name.now limit) result }
    {
        find::load_file(alloc, &self.files, name, limit)
    }
}

/// Drops what it is given, tells nothing of it, and never fails.
#[derive(Clone, Copy, Debug, PartialEq, Eq)]
pub struct QuietSink;

impl Sink for QuietSink {
    ghost use Rattle.std.specs.Prelude.{None};

    ghost contents = { λ _. None };

    ghost faults = { λ _. 0 };

    fn put(&mut self, piece: &[u8]) -> Result<(), Failed>
        ensures answer { Puts None None piece.now 0 0 result }
        ensures rises { 0 ≤ 0 }

        ensures exact { IsOk result }
    {
        let _ = piece;
        Ok(())
    }
}
