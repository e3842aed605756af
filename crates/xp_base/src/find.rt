//! Looks a file up by its name.
ghost use Rattle.std.specs.Prelude.{◌≡◌, option_map};
ghost use Rattle.xp_base.specs.Outside.{text_at};
ghost use Rattle.xp_base.specs.Stored.{AnswersShelf, file_answer, pairs};

use crate::{Byts, LoadFault, StoredFile};
use std::alloc::Global;

/// The text of the first file of that name.
fn find_text<'a>(files: &'a [StoredFile], name: &str) -> Option<&'a [u8]>
    ensures { option_map (λ t. t.now) result ≡ text_at (pairs files.now) name.now }
{
    for file in files {
        if file.name.as_str() == name {
            return Some(file.text.as_slice());
        }
    }
    None
}

/// A copy of the first text of that name, which may have up to `limit` bytes.
pub fn load_file(
    alloc: Global,
    files: &[StoredFile],
    name: &str,
    limit: u64,
) -> Result<Byts, LoadFault>
    ensures { AnswersShelf (file_answer (pairs files.now) name.now limit) result }
{
    let Some(text) = find_text(files, name) else {
        return Err(LoadFault::Failed);
    };
    if text.len() as u64 > limit {
        return Err(LoadFault::TooLong { read: limit + 1 });
    }
    let mut bytes = Byts::new(alloc);
    bytes.append(text)?;
    Ok(bytes)
}
