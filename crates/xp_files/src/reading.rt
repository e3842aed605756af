//! Reads what a reader has left, within a limit.
ghost use Rattle.std.specs.Prelude.{◌≡◌, ◌+◌, ◌≤◌, length};
ghost use Rattle.xp_files.specs.Reading.{AnswersReading, TakesAtMost};

use std::alloc::Global;
use std::io::Read;
use xp_base::{Byts, LoadFault};

/// The most bytes that are asked for at once.
const CHUNK: usize = 4096;

/// Reads to the end, or until there is a byte more than the limit. `Failed` is a read that failed.
pub fn read_within<R: Read>(alloc: Global, reader: &mut R, limit: u64) -> Result<Byts, LoadFault>
    ensures answer { AnswersReading (R.remaining reader.old) limit result }
    ensures budget { TakesAtMost (R.remaining reader.old) (R.remaining reader.new) (limit + 1) }
{
    let mut text = Byts::new(alloc);
    let mut left = limit;
    let mut chunk = [0u8; CHUNK];
    for _ in 0..u64::MAX {
        let most = left.saturating_add(1).min(CHUNK as u64) as usize;
        let Ok(count) = reader.read(&mut chunk[..most]) else {
            return Err(LoadFault::Failed);
        };
        if count == 0 {
            return Ok(text);
        }
        if count as u64 > left {
            return Err(LoadFault::TooLong { read: limit + 1 });
        }
        left -= count as u64;
        text.append(&chunk[..count])?;
    }
    Err(LoadFault::Failed)
}
