//! Places, which count from 1, as counts of what stands before them.
ghost use Rattle.std.specs.Prelude.{◌≡◌};
ghost use Rattle.xp_characters.specs.Places.{before as before_place};

/// How many elements stand before the place; none before one below 1.
pub fn before(place: i64) -> usize
    ensures { result ≡ before_place place }
{
    if place <= 0 { 0 } else { (place - 1) as usize }
}
