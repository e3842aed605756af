//! Laws of the definitions.
ghost use Rattle.std.specs.Prelude.{◌≡◌, ℕ, List, Ok};
ghost use Rattle.hex.specs.Hex.{IsBytes};
ghost use Rattle.xp_bytea.specs.Texts.{bytes_in, text};

/// A law: what is written of bytes is read as these bytes.
pub fn texts_are_read_back()
    ensures { (bytes : List ℕ) → IsBytes bytes → bytes_in (text bytes) ≡ Ok bytes }
{}
