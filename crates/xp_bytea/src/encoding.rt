//! Bytes as hexadecimal digits, and back.
ghost use Rattle.std.specs.Prelude.{◌≡◌, codes};
ghost use Rattle.std.specs.Str.{bytes_eq};
ghost use Rattle.xp_base.specs.OrMemory.{OrMemory};
ghost use Rattle.xp_bytea.specs.Texts.{decode as decode_so, encode as encode_so, from_digits as from_digits_so};
ghost use Rattle.xp_base.specs.declared.codes.EvalError.{EvalError};
ghost use Rattle.xp_characters.specs.Faults.{is_memory};

use hex::FromHexError;
use std::alloc::Global;
use xp_base::{Byts, EvalError, Txt};
use xp_characters::{TextFault, check_size};

fn is_hex(format: &str) -> bool
    ensures { result ≡ bytes_eq format.now (codes "hex") }
{
    format == "hex"
}

/// The bytes that digits write, or this error where they aren't digits or an odd number of them.
pub fn from_digits(alloc: Global, digits: &[u8], error: EvalError) -> Result<Byts, TextFault>
    ensures { OrMemory is_memory (from_digits_so digits.now error) result }
{
    match hex::decode(alloc, digits) {
        Ok(decoded) => {
            let mut bytes = Byts::new(alloc);
            bytes.append(decoded.as_slice())?;
            Ok(bytes)
        }
        Err(FromHexError::OutOfMemory) => Err(TextFault::Memory),
        Err(_) => Err(TextFault::Raised(error)),
    }
}

/// The bytes as digits, in the format `hex`.
pub fn encode(alloc: Global, a: &[u8], format: &str) -> Result<Txt, TextFault>
    ensures { OrMemory is_memory (encode_so a.now format.now) result }
{
    if !is_hex(format) {
        return Err(TextFault::Raised(EvalError::BadParameter));
    }
    check_size(a.len().saturating_mul(2))?;
    let digits = hex::encode(alloc, a)?;
    Ok(Txt::from_string(digits))
}

/// The bytes that digits write, in the format `hex`.
pub fn decode(alloc: Global, a: &str, format: &str) -> Result<Byts, TextFault>
    ensures { OrMemory is_memory (decode_so a.now format.now) result }
{
    if !is_hex(format) {
        return Err(TextFault::Raised(EvalError::BadParameter));
    }
    from_digits(alloc, a.as_bytes(), EvalError::BadParameter)
}
