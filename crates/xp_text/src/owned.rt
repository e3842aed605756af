//! A part of a text as a text of its own.
ghost use Rattle.std.specs.Prelude.{◌≡◌, IfOk};
ghost use Rattle.std.specs.Str.{chars, encode_utf8_all};

use std::alloc::Global;
use xp_base::{Memory, Txt};

/// The text of these characters.
pub fn owned(alloc: Global, part: &str) -> Result<Txt, Memory>
    ensures { IfOk result (λ text. text ≡ encode_utf8_all (chars part.now)) }
{
    Txt::from_str(alloc, part)
}
