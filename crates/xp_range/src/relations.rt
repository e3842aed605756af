//! What two ranges are to each other, and a range to a point.
ghost use Rattle.std.specs.Prelude.{◌≡◌};
ghost use Rattle.xp_range.specs.Bounds.{includes};
ghost use Rattle.xp_range.specs.Relations.{adjacent, before, contains, meets, neither_is_empty, not_left, not_right, overlaps, reaches_down, reaches_up};

use crate::bounds::{is_from, is_under, is_until, isempty, lower, upper};
use xp_value::Range;

/// Whether the first lower bound is as low as the second, or lower.
fn reaches_down(x: Option<i64>, y: Option<i64>) -> bool
    ensures { result ≡ reaches_down x y }
{
    x.cmp(&y).is_le()
}

/// Whether the first upper bound is as high as the second, or higher.
fn reaches_up(x: Option<i64>, y: Option<i64>) -> bool
    ensures { result ≡ reaches_up x y }
{
    match (x, y) {
        (None, _) => true,
        (Some(_), None) => false,
        (Some(x), Some(y)) => x.cmp(&y).is_ge(),
    }
}

/// Whether the upper bound is finite, and is the lower one.
fn meets(upper: Option<i64>, lower: Option<i64>) -> bool
    ensures { result ≡ meets upper lower }
{
    match (upper, lower) {
        (Some(upper), Some(lower)) => upper == lower,
        _ => false,
    }
}

fn neither_is_empty(a: Range, b: Range) -> bool
    ensures { result ≡ neither_is_empty a b }
{
    !isempty(a) && !isempty(b)
}

/// Whether the range includes the point.
pub fn contains_element(range: Range, point: i64) -> bool
    ensures { result ≡ includes range point }
{
    !isempty(range) && is_from(lower(range), point) && is_until(upper(range), point)
}

/// Whether the point is in the range.
pub fn contained_element(point: i64, range: Range) -> bool
    ensures { result ≡ includes range point }
{
    contains_element(range, point)
}

/// Whether every point of the second is in the first.
pub fn contains_range(a: Range, b: Range) -> bool
    ensures { result ≡ contains a b }
{
    isempty(b) || !isempty(a) && reaches_down(lower(a), lower(b)) && reaches_up(upper(a), upper(b))
}

/// Whether every point of the first is in the second.
pub fn contained_range(a: Range, b: Range) -> bool
    ensures { result ≡ contains b a }
{
    contains_range(b, a)
}

/// Whether the ranges have a point in common.
pub fn overlaps(a: Range, b: Range) -> bool
    ensures { result ≡ overlaps a b }
{
    neither_is_empty(a, b) && is_under(lower(a), upper(b)) && is_under(lower(b), upper(a))
}

/// Whether every point of the first is below every point of the second.
pub fn before(a: Range, b: Range) -> bool
    ensures { result ≡ before a b }
{
    neither_is_empty(a, b) && !is_under(lower(b), upper(a))
}

/// Whether every point of the first is above every point of the second.
pub fn after(a: Range, b: Range) -> bool
    ensures { result ≡ before b a }
{
    before(b, a)
}

/// Whether no point of the first is above the second.
pub fn notright(a: Range, b: Range) -> bool
    ensures { result ≡ not_right a b }
{
    neither_is_empty(a, b) && reaches_up(upper(b), upper(a))
}

/// Whether no point of the first is below the second.
pub fn notleft(a: Range, b: Range) -> bool
    ensures { result ≡ not_left a b }
{
    neither_is_empty(a, b) && reaches_down(lower(b), lower(a))
}

/// Whether the ranges touch: the upper bound of one is the lower bound of the other.
pub fn adjacent(a: Range, b: Range) -> bool
    ensures { result ≡ adjacent a b }
{
    neither_is_empty(a, b) && (meets(upper(a), lower(b)) || meets(upper(b), lower(a)))
}
