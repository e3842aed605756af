//! The pieces of the shipped catalogue, put together.
ghost use Rattle.std.specs.Prelude.{◌≡◌, ◌<◌, IfOk, length, map};
ghost use Rattle.std.specs.List.{concat};

use crate::{arrays, casts, dates, integers, numeric, ranges, resolved, texts, types};
use std::alloc::Global;
use xp_base::{Byts, Memory};

// Each record names earlier ones alone: types come first, and functions before the casts and
// operators that call them.
const PIECES: [&str; 17] = [
    types::TYPES,
    types::RANGES,
    integers::FUNCTIONS,
    numeric::FUNCTIONS,
    texts::FUNCTIONS,
    dates::FUNCTIONS,
    arrays::FUNCTIONS,
    ranges::FUNCTIONS,
    resolved::FUNCTIONS,
    casts::CASTS,
    integers::OPERATORS,
    numeric::OPERATORS,
    texts::OPERATORS,
    dates::OPERATORS,
    arrays::OPERATORS,
    ranges::OPERATORS,
    resolved::OPERATORS,
];

/// The pieces, one behind the other.
fn joined(alloc: Global, pieces: &[&str]) -> Result<Byts, Memory>
    ensures { IfOk result (λ text. text ≡ concat (map (λ piece. piece.now) pieces.now)) }
{
    let mut text = Byts::new(alloc);
    for piece in pieces {
        text.append(piece.as_bytes())?;
    }
    Ok(text)
}

/// The text of the shipped catalogue, which has at least one record.
pub fn shipped(alloc: Global) -> Result<Byts, Memory>
    ensures { IfOk result (λ text. 0 < length text) }
{
    joined(alloc, &PIECES)
}
