//! Counts that an argument says.
ghost use Rattle.std.specs.Prelude.{◌≡◌};
ghost use Rattle.xp_text.specs.Made.{times};

/// The count, 0 where it is below.
pub fn at_least_none(n: i32) -> usize
    ensures { result ≡ times n }
{
    if n <= 0 { 0 } else { n as usize }
}
