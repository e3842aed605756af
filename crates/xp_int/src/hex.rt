//! Hexadecimal texts.
ghost use Rattle.std.specs.Prelude.{◌≡◌, IfOk};
ghost use Rattle.xp_int.specs.Integers.{hex, int4, int8};

use std::alloc::Global;
use xp_base::{Memory, Txt};

/// The two's complement in hexadecimal digits.
pub fn to_hex_int4(alloc: Global, a: i32) -> Result<Txt, Memory>
    ensures { IfOk result (λ text. text ≡ hex int4 a) }
{
    let digits = format!(in alloc; "{:x}", a.cast_unsigned())?;
    Ok(Txt::from_string(digits))
}

/// The two's complement in hexadecimal digits.
pub fn to_hex_int8(alloc: Global, a: i64) -> Result<Txt, Memory>
    ensures { IfOk result (λ text. text ≡ hex int8 a) }
{
    let digits = format!(in alloc; "{:x}", a.cast_unsigned())?;
    Ok(Txt::from_string(digits))
}
