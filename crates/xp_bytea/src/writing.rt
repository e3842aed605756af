//! The text of bytes.
ghost use Rattle.std.specs.Prelude.{◌≡◌, ◌++◌, OnErr, OnOk};
ghost use Rattle.xp_bytea.specs.Texts.{text};

use std::alloc::Global;
use xp_base::{Byts, Memory};

/// Adds the text of the bytes: `\x` and two hexadecimal digits each.
pub fn write_bytea(alloc: Global, bytes: &[u8], out: &mut Byts) -> Result<(), Memory>
    ensures ok { OnOk result (out.new ≡ out.old ++ text bytes.now) }
    ensures err { OnErr result (out.new ≡ out.old) }
{
    let digits = hex::encode(alloc, bytes)?;
    let mut piece = Byts::new(alloc);
    piece.append(b"\\x")?;
    piece.append(digits.as_bytes())?;
    out.append(piece.as_slice())
}
