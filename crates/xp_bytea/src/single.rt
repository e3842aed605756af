//! Single bytes, whose places count from 0.
ghost use Rattle.std.specs.Prelude.{◌≡◌, ◌<◌, IfOk, IfSome, length, slice_set};
ghost use Rattle.xp_base.specs.OrMemory.{OrMemory};
ghost use Rattle.xp_bytea.specs.Single.{byte_of as byte_so, get_byte as get_so, place_in as place_so, set_byte as set_so};
ghost use Rattle.xp_characters.specs.Faults.{is_memory};

use std::alloc::Global;
use xp_base::{Byts, EvalError, Memory};
use xp_characters::TextFault;

/// The place, where there is one.
fn place_in(size: usize, n: i32) -> Option<usize>
    ensures value { result ≡ place_so size n }
    ensures within { IfSome result (λ place. place < size) }
{
    if n < 0 || n as usize >= size {
        return None;
    }
    Some(n as usize)
}

/// The byte at a place.
pub fn get_byte(a: &[u8], n: i32) -> Result<u8, EvalError>
    ensures { result ≡ get_so a.now n }
{
    match place_in(a.len(), n) {
        Some(place) => Ok(a[place]),
        None => Err(EvalError::BadSubscript),
    }
}

/// The number modulo 256.
fn byte_of(value: i32) -> u8
    ensures { result ≡ byte_so value }
{
    if value < 0 {
        255 - (!value as u32 % 256) as u8
    } else {
        (value as u32 % 256) as u8
    }
}

/// The bytes with another one at a place.
fn changed(alloc: Global, a: &[u8], place: usize, byte: u8) -> Result<Byts, Memory>
    requires { place < length a.now }
    ensures { IfOk result (λ bytes. bytes ≡ slice_set a.now place byte) }
{
    let mut bytes = Byts::new(alloc);
    bytes.append(&a[..place])?;
    bytes.append(&[byte])?;
    bytes.append(&a[place + 1..])?;
    Ok(bytes)
}

/// The bytes with another one at a place, the new value modulo 256.
pub fn set_byte(alloc: Global, a: &[u8], n: i32, value: i32) -> Result<Byts, TextFault>
    ensures { OrMemory is_memory (set_so a.now n value) result }
{
    let Some(place) = place_in(a.len(), n) else {
        return Err(TextFault::Raised(EvalError::BadSubscript));
    };
    let bytes = changed(alloc, a, place, byte_of(value))?;
    Ok(bytes)
}
