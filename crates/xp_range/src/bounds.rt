//! The bounds of ranges.
ghost use Rattle.std.specs.Prelude.{◌≡◌, ◌&&◌, false, not};
ghost use Rattle.std.specs.Option.{is_none, is_some};
ghost use Rattle.xp_range.specs.Bounds.{between, inner_lower, inner_upper, is_empty, is_from, is_under, is_until, lower_of, outer_lower, outer_upper, upper_of};

use xp_value::{Range, RangeKind};

/// The lower bound, none where it is infinite or the range is empty.
pub fn lower(range: Range) -> Option<i64>
    ensures { result ≡ lower_of range }
{
    match range {
        Range::Empty { .. } => None,
        Range::Bounds { lower, .. } => lower,
    }
}

/// The upper bound, none where it is infinite or the range is empty.
pub fn upper(range: Range) -> Option<i64>
    ensures { result ≡ upper_of range }
{
    match range {
        Range::Empty { .. } => None,
        Range::Bounds { upper, .. } => upper,
    }
}

/// Whether the range is empty.
pub fn isempty(range: Range) -> bool
    ensures { result ≡ is_empty range }
{
    matches!(range, Range::Empty { .. })
}

/// Whether the lower bound belongs to the range: it does where it is finite.
pub fn lower_inc(range: Range) -> bool
    ensures { result ≡ is_some (lower_of range) }
{
    lower(range).is_some()
}

/// Whether the upper bound belongs to the range: in the canonical form it never does.
pub fn upper_inc(_range: Range) -> bool
    ensures { result ≡ false }
{
    false
}

/// Whether the range has no least point, and isn't empty.
pub fn lower_inf(range: Range) -> bool
    ensures { result ≡ (not (is_empty range) && is_none (lower_of range)) }
{
    !isempty(range) && lower(range).is_none()
}

/// Whether the range has no greatest point, and isn't empty.
pub fn upper_inf(range: Range) -> bool
    ensures { result ≡ (not (is_empty range) && is_none (upper_of range)) }
{
    !isempty(range) && upper(range).is_none()
}

/// Whether the point isn't below the lower bound.
pub fn is_from(lower: Option<i64>, point: i64) -> bool
    ensures { result ≡ is_from lower point }
{
    match lower {
        None => true,
        Some(lower) => lower <= point,
    }
}

/// Whether the point is below the upper bound.
pub fn is_until(upper: Option<i64>, point: i64) -> bool
    ensures { result ≡ is_until upper point }
{
    match upper {
        None => true,
        Some(upper) => point < upper,
    }
}

/// Whether a point lies between the bounds.
pub fn is_under(lower: Option<i64>, upper: Option<i64>) -> bool
    ensures { result ≡ is_under lower upper }
{
    match (lower, upper) {
        (Some(lower), Some(upper)) => lower < upper,
        _ => true,
    }
}

/// The range between two bounds, empty where no point lies there.
pub fn between(kind: RangeKind, lower: Option<i64>, upper: Option<i64>) -> Range
    ensures { result ≡ between kind lower upper }
{
    if is_under(lower, upper) {
        Range::Bounds { lower, upper, kind }
    } else {
        Range::Empty { kind }
    }
}

/// The lower of two lower bounds.
pub fn outer_lower(x: Option<i64>, y: Option<i64>) -> Option<i64>
    ensures { result ≡ outer_lower x y }
{
    Some(x?.min(y?))
}

/// The higher of two lower bounds.
pub fn inner_lower(x: Option<i64>, y: Option<i64>) -> Option<i64>
    ensures { result ≡ inner_lower x y }
{
    match (x, y) {
        (None, y) => y,
        (x, None) => x,
        (Some(x), Some(y)) => Some(x.max(y)),
    }
}

/// The higher of two upper bounds.
pub fn outer_upper(x: Option<i64>, y: Option<i64>) -> Option<i64>
    ensures { result ≡ outer_upper x y }
{
    Some(x?.max(y?))
}

/// The lower of two upper bounds.
pub fn inner_upper(x: Option<i64>, y: Option<i64>) -> Option<i64>
    ensures { result ≡ inner_upper x y }
{
    match (x, y) {
        (None, y) => y,
        (x, None) => x,
        (Some(x), Some(y)) => Some(x.min(y)),
    }
}
