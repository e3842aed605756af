//! The comparisons of ranges, by their order: the empty range comes first, then the lower bounds
//! decide, then the upper ones.
ghost use Rattle.std.specs.Prelude.{◌≡◌};
ghost use Rattle.std.specs.Ordering.{is_eq, is_ge, is_gt, is_le, is_lt, is_ne};
ghost use Rattle.xp_value.specs.Order.{range_order};

use std::cmp::Ordering;
use xp_value::{Range, Value, order};

fn order_ranges(a: Range, b: Range) -> Ordering
    ensures { result ≡ range_order a b }
{
    order(&Value::Rng(a), &Value::Rng(b))
}

pub fn eq_range(a: Range, b: Range) -> bool
    ensures { result ≡ is_eq (range_order a b) }
{
    order_ranges(a, b).is_eq()
}

pub fn ne_range(a: Range, b: Range) -> bool
    ensures { result ≡ is_ne (range_order a b) }
{
    order_ranges(a, b).is_ne()
}

pub fn lt_range(a: Range, b: Range) -> bool
    ensures { result ≡ is_lt (range_order a b) }
{
    order_ranges(a, b).is_lt()
}

pub fn le_range(a: Range, b: Range) -> bool
    ensures { result ≡ is_le (range_order a b) }
{
    order_ranges(a, b).is_le()
}

pub fn gt_range(a: Range, b: Range) -> bool
    ensures { result ≡ is_gt (range_order a b) }
{
    order_ranges(a, b).is_gt()
}

pub fn ge_range(a: Range, b: Range) -> bool
    ensures { result ≡ is_ge (range_order a b) }
{
    order_ranges(a, b).is_ge()
}
