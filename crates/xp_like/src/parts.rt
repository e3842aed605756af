//! The parts of a pattern.
ghost use Rattle.std.specs.Prelude.{◌≡◌, [], ◌∷◌, ◌<◌, MatchOption, IfSome, length};
ghost use Rattle.xp_like.specs.Patterns.{ends_in_escape as ends_so, part as part_of, parts};
ghost use Rattle.xp_like.specs.inner.Runs.{is_any_text, takes};

use crate::units::Units;

/// What a part of a pattern stands for.
#[derive(Clone, Copy, Debug)]
pub enum Part {
    /// Any text, also none: `%`.
    AnyText,
    /// Any one character, or byte: `_`.
    AnyOne,
    /// This character, or byte.
    Plain(u32),
}

const BACKSLASH: u32 = b'\\' as u32;

const PERCENT: u32 = b'%' as u32;

const UNDERSCORE: u32 = b'_' as u32;

impl Part {
    /// What a unit stands for that has no backslash before it.
    fn bare(unit: u32) -> Part
        ensures { result ≡ part_of unit }
    {
        match unit {
            PERCENT => Part::AnyText,
            UNDERSCORE => Part::AnyOne,
            _ => Part::Plain(unit),
        }
    }

    pub fn is_any_text(self) -> bool
        ensures { result ≡ is_any_text self }
    {
        match self {
            Part::AnyText => true,
            Part::AnyOne | Part::Plain(_) => false,
        }
    }

    /// Whether the part stands for this one unit.
    pub fn takes(self, unit: u32) -> bool
        ensures { result ≡ takes self unit }
    {
        match self {
            Part::AnyText => false,
            Part::AnyOne => true,
            Part::Plain(plain) => unit == plain,
        }
    }
}

/// The first part of a pattern, and the place behind it.
pub fn first_part<U: Units>(pattern: U) -> Option<(Part, U)>
    ensures cases { MatchOption result (parts (U.units pattern) ≡ []) (λ r. parts (U.units pattern) ≡ r.0 ∷ parts (U.units r.1)) }
    ensures shorter { IfSome result (λ r. length (U.units r.1) < length (U.units pattern)) }
{
    let (unit, rest) = pattern.first()?;
    if unit != BACKSLASH {
        return Some((Part::bare(unit), rest));
    }
    let (plain, behind) = rest.first()?;
    Some((Part::Plain(plain), behind))
}

/// Whether a pattern ends in a single backslash.
pub fn ends_in_escape<U: Units>(pattern: U) -> bool
    ensures { result ≡ ends_so (U.units pattern) }
{
    let mut place = pattern;
    while let Some((unit, rest)) = place.first() {
        place = rest;
        if unit == BACKSLASH {
            let Some((_, behind)) = rest.first() else {
                return true;
            };
            place = behind;
        }
    }
    false
}
