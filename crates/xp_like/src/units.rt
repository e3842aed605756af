//! What patterns and texts are read by: characters, characters without case, or bytes.
ghost use Rattle.std.specs.Prelude.{◌≡◌, ℕ, List, [], ◌∷◌, MatchOption, map};
ghost use Rattle.std.specs.Char.{to_ascii_lowercase};
ghost use Rattle.std.specs.Str.{chars};

use xp_characters::first_character;

/// A place in a text, with the units that are still to be read there.
pub trait Units: Copy {
    ghost units: { Self → List ℕ };

    /// The first unit, and the place behind it.
    fn first(self) -> Option<(u32, Self)>
        ensures { MatchOption result (units self ≡ []) (λ r. units self ≡ r.0 ∷ units r.1) };
}

/// The characters of a text.
#[derive(Clone, Copy)]
pub struct Characters<'a> {
    pub rest: &'a str,
}

impl<'a> Units for Characters<'a> {
    ghost units = { λ s. chars s.rest.now };

    fn first(self) -> Option<(u32, Characters<'a>)> {
        let (c, rest) = first_character(self.rest)?;
        Some((u32::from(c), Characters { rest }))
    }
}

/// The characters of a text, with small letters in place of ASCII capitals.
#[derive(Clone, Copy)]
pub struct Folded<'a> {
    pub rest: &'a str,
}

impl<'a> Units for Folded<'a> {
    ghost units = { λ s. map to_ascii_lowercase (chars s.rest.now) };

    fn first(self) -> Option<(u32, Folded<'a>)> {
        let (c, rest) = first_character(self.rest)?;
        Some((u32::from(c.to_ascii_lowercase()), Folded { rest }))
    }
}

/// Bytes.
#[derive(Clone, Copy)]
pub struct Octets<'a> {
    pub rest: &'a [u8],
}

impl<'a> Units for Octets<'a> {
    ghost units = { λ s. s.rest.now };

    fn first(self) -> Option<(u32, Octets<'a>)> {
        match self.rest {
            [byte, rest @ ..] => Some((u32::from(*byte), Octets { rest })),
            [] => None,
        }
    }
}
