//! A shelf and a sink in memory, which fail at the calls that they are told.
ghost use Rattle.std.specs.Prelude.{◌≡◌, ◌+◌, ◌≤◌, [], OnOk, OnErr, Some, is_ok, max, vec_capacity, vec_len};
ghost use Rattle.xp_base.specs.Outside.{Loads, Puts};

use crate::{Byts, Failed, LoadFault, Memory, Shelf, Sink, Txt, find};
use std::alloc::Global;

/// A text under a name.
#[derive(Debug, Drop)]
pub struct StoredFile {
    pub name: Txt,
    pub text: Byts,
}

/// Files in memory, and the numbers of the calls, counted from 1, that fail. Of two files of one
/// name the first counts.
#[derive(Debug, Drop)]
pub struct MemoryShelf {
    files: Vec<StoredFile>,
    failing: Vec<u64>,
    calls: u64,
    faults: u64,
}

impl MemoryShelf {
    ghost use Rattle.xp_base.specs.Stored.{pairs, shelf_files, shelf_failing, shelf_calls, shelf_faults};

    pub fn new(files: Vec<StoredFile>, failing: Vec<u64>) -> MemoryShelf
        ensures files { shelf_files result ≡ pairs files.items }
        ensures failing { shelf_failing result ≡ failing.items }
        ensures calls { shelf_calls result ≡ 0 }
        ensures faults { shelf_faults result ≡ 0 }
    {
        MemoryShelf {
            files,
            failing,
            calls: 0,
            faults: 0,
        }
    }
}

impl Shelf for MemoryShelf {
    ghost use Rattle.std.specs.Prelude.{Some};
    ghost use Rattle.xp_base.specs.Stored.{AnswersShelf, next_call, shelf_answer, shelf_calls, shelf_failing, shelf_faults, shelf_faults_after, shelf_files};

    ghost held = { λ s. Some (shelf_files s) };

    ghost faults = { λ s. shelf_faults s };

    fn load(&mut self, alloc: Global, name: &str, limit: u64) -> Result<Byts, LoadFault>
        ensures answer { Loads (Some (shelf_files self.old)) name.now limit (shelf_faults self.old) (shelf_faults self.new) result }
        ensures same { Some (shelf_files self.new) ≡ Some (shelf_files self.old) }
        ensures rises { shelf_faults self.old ≤ shelf_faults self.new }

        ensures exact { AnswersShelf (shelf_answer self.old name.now limit) result }
        ensures counted { shelf_faults self.new ≡ shelf_faults_after self.old }
        ensures failing { shelf_failing self.new ≡ shelf_failing self.old }
        ensures calls { shelf_calls self.new ≡ next_call (shelf_calls self.old) }
    {
        self.calls = self.calls.saturating_add(1);
        if self.failing.contains(&self.calls) {
            self.faults = self.faults.saturating_add(1);
            return Err(LoadFault::Failed);
        }
        find::load_file(alloc, &self.files, name, limit)
    }
}

/// Bytes in memory, the room that is left for more, and the numbers of the calls, counted from 1,
/// that fail. The memory of the room is reserved, so `put` takes none.
#[derive(Debug, Drop)]
pub struct MemorySink {
    bytes: Vec<u8>,
    room: u64,
    failing: Vec<u64>,
    calls: u64,
    faults: u64,
    ghost reserved: { vec_len bytes + room ≤ vec_capacity bytes },
}

impl MemorySink {
    ghost use Rattle.xp_base.specs.Stored.{sink_bytes, sink_calls, sink_failing, sink_faults, sink_room};

    /// An empty sink without room.
    pub fn new(alloc: Global, failing: Vec<u64>) -> MemorySink
        ensures bytes { sink_bytes result ≡ [] }
        ensures room { sink_room result ≡ 0 }
        ensures failing { sink_failing result ≡ failing.items }
        ensures calls { sink_calls result ≡ 0 }
        ensures faults { sink_faults result ≡ 0 }
    {
        MemorySink {
            bytes: Vec::new(alloc),
            room: 0,
            failing,
            calls: 0,
            faults: 0,
        }
    }

    /// Makes the room at least `bytes`.
    pub fn reserve(&mut self, bytes: u64) -> Result<(), Memory>
        ensures bytes { sink_bytes self.new ≡ sink_bytes self.old }
        ensures room { OnOk result (sink_room self.new ≡ max (sink_room self.old) bytes) }
        ensures err { OnErr result (sink_room self.new ≡ sink_room self.old) }
        ensures failing { sink_failing self.new ≡ sink_failing self.old }
        ensures calls { sink_calls self.new ≡ sink_calls self.old }
        ensures faults { sink_faults self.new ≡ sink_faults self.old }
    {
        if bytes <= self.room {
            return Ok(());
        }
        self.bytes.reserve(bytes as usize)?;
        self.room = bytes;
        Ok(())
    }

    pub fn contents(&self) -> &[u8]
        ensures { result.now ≡ sink_bytes self.now }
    {
        self.bytes.as_slice()
    }
}

impl Sink for MemorySink {
    ghost use Rattle.std.specs.Prelude.{Some};
    ghost use Rattle.xp_base.specs.Stored.{next_call, puts_in_memory, room_after, sink_bytes, sink_calls, sink_failing, sink_faults, sink_faults_after, sink_room};

    ghost contents = { λ s. Some (sink_bytes s) };

    ghost faults = { λ s. sink_faults s };

    fn put(&mut self, piece: &[u8]) -> Result<(), Failed>
        ensures answer { Puts (Some (sink_bytes self.old)) (Some (sink_bytes self.new)) piece.now (sink_faults self.old) (sink_faults self.new) result }
        ensures rises { sink_faults self.old ≤ sink_faults self.new }

        ensures exact { is_ok result ≡ puts_in_memory self.old piece.now }
        ensures unchanged { OnErr result (sink_bytes self.new ≡ sink_bytes self.old) }
        ensures counted { sink_faults self.new ≡ sink_faults_after self.old piece.now }
        ensures room { sink_room self.new ≡ room_after self.old piece.now }
        ensures failing { sink_failing self.new ≡ sink_failing self.old }
        ensures calls { sink_calls self.new ≡ next_call (sink_calls self.old) }
    {
        self.calls = self.calls.saturating_add(1);
        let size = piece.len() as u64;
        if self.failing.contains(&self.calls) || size > self.room {
            self.faults = self.faults.saturating_add(1);
            return Err(Failed);
        }
        self.room -= size;
        match self.bytes.extend_from_slice(piece) {
            Ok(()) => Ok(()),
            Err(_) => unreachable!(),
        }
    }
}
