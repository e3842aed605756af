//! Ranges made of two ranges. A result is of the kind that both ranges have.
ghost use Rattle.std.specs.Prelude.{◌≡◌, IfOk, true};
ghost use Rattle.xp_range.specs.Sets.{behind, below, difference, intersection, merged, single, union as union_of};
ghost use Rattle.xp_value.specs.Representation.{is_range};
ghost use Rattle.xp_value.specs.declared.value.RangeKind.{RangeKind};

use crate::bounds::{between, inner_lower, inner_upper, outer_lower, outer_upper};
use crate::relations::{adjacent, overlaps};
use xp_base::EvalError;
use xp_value::Range;

/// The least range that contains both.
pub fn range_merge(a: Range, b: Range) -> Range
    ensures value { result ≡ merged a b }
    ensures range { (kind : RangeKind) → is_range kind a ≡ true → is_range kind b ≡ true → is_range kind result ≡ true }
{
    match (a, b) {
        (Range::Empty { .. }, b) => b,
        (a, Range::Empty { .. }) => a,
        (
            Range::Bounds { lower, upper, kind },
            Range::Bounds {
                lower: other_lower,
                upper: other_upper,
                ..
            },
        ) => Range::Bounds {
            lower: outer_lower(lower, other_lower),
            upper: outer_upper(upper, other_upper),
            kind,
        },
    }
}

/// The range of the points of both, where these are a range.
pub fn union(a: Range, b: Range) -> Result<Range, EvalError>
    ensures value { result ≡ union_of a b }
    ensures range { (kind : RangeKind) → is_range kind a ≡ true → is_range kind b ≡ true → IfOk result (λ range. is_range kind range ≡ true) }
{
    match (a, b) {
        (Range::Empty { .. }, b) => Ok(b),
        (a, Range::Empty { .. }) => Ok(a),
        (a, b) if overlaps(a, b) || adjacent(a, b) => Ok(range_merge(a, b)),
        _ => Err(EvalError::RangeData),
    }
}

/// The range of the points that both have in common.
pub fn intersect(a: Range, b: Range) -> Range
    ensures value { result ≡ intersection a b }
    ensures range { (kind : RangeKind) → is_range kind a ≡ true → is_range kind b ≡ true → is_range kind result ≡ true }
{
    match (a, b) {
        (Range::Empty { kind }, _) => Range::Empty { kind },
        (Range::Bounds { kind, .. }, Range::Empty { .. }) => Range::Empty { kind },
        (
            Range::Bounds { lower, upper, kind },
            Range::Bounds {
                lower: other_lower,
                upper: other_upper,
                ..
            },
        ) => between(
            kind,
            inner_lower(lower, other_lower),
            inner_upper(upper, other_upper),
        ),
    }
}

/// What of the range lies below a lower bound.
fn below(range: Range, bound: Option<i64>) -> Range
    ensures { result ≡ below range bound }
{
    match (range, bound) {
        (Range::Bounds { lower, upper, kind }, Some(_)) => {
            between(kind, lower, inner_upper(upper, bound))
        }
        (Range::Empty { kind } | Range::Bounds { kind, .. }, _) => Range::Empty { kind },
    }
}

/// What of the range lies from an upper bound on.
fn behind(range: Range, bound: Option<i64>) -> Range
    ensures { result ≡ behind range bound }
{
    match (range, bound) {
        (Range::Bounds { lower, upper, kind }, Some(_)) => {
            between(kind, inner_lower(lower, bound), upper)
        }
        (Range::Empty { kind } | Range::Bounds { kind, .. }, _) => Range::Empty { kind },
    }
}

/// The one of two parts that isn't empty.
fn single(a: Range, b: Range) -> Result<Range, EvalError>
    ensures { result ≡ single a b }
{
    match (a, b) {
        (Range::Empty { .. }, b) => Ok(b),
        (a, Range::Empty { .. }) => Ok(a),
        _ => Err(EvalError::RangeData),
    }
}

/// The range of the points of the first that aren't in the second, where these are a range.
pub fn minus(a: Range, b: Range) -> Result<Range, EvalError>
    ensures value { result ≡ difference a b }
    ensures range { (kind : RangeKind) → is_range kind a ≡ true → is_range kind b ≡ true → IfOk result (λ range. is_range kind range ≡ true) }
{
    match b {
        Range::Empty { .. } => Ok(a),
        Range::Bounds { lower, upper, .. } => single(below(a, lower), behind(a, upper)),
    }
}
