//! The comparisons of arrays, by their elements and then their lengths.
ghost use Rattle.std.specs.Prelude.{◌≡◌};
ghost use Rattle.std.specs.Cmp.Lexicographic.{slice_cmp};
ghost use Rattle.std.specs.Ordering.{is_eq, is_ge, is_gt, is_le, is_lt, is_ne};
ghost use Rattle.xp_value.specs.Order.{value_order};

use xp_value::{Value, order_all};

pub fn eq_array(a: &[Value], b: &[Value]) -> bool
    ensures { result ≡ is_eq (slice_cmp value_order a.now b.now) }
{
    order_all(a, b).is_eq()
}

pub fn ne_array(a: &[Value], b: &[Value]) -> bool
    ensures { result ≡ is_ne (slice_cmp value_order a.now b.now) }
{
    order_all(a, b).is_ne()
}

pub fn lt_array(a: &[Value], b: &[Value]) -> bool
    ensures { result ≡ is_lt (slice_cmp value_order a.now b.now) }
{
    order_all(a, b).is_lt()
}

pub fn le_array(a: &[Value], b: &[Value]) -> bool
    ensures { result ≡ is_le (slice_cmp value_order a.now b.now) }
{
    order_all(a, b).is_le()
}

pub fn gt_array(a: &[Value], b: &[Value]) -> bool
    ensures { result ≡ is_gt (slice_cmp value_order a.now b.now) }
{
    order_all(a, b).is_gt()
}

pub fn ge_array(a: &[Value], b: &[Value]) -> bool
    ensures { result ≡ is_ge (slice_cmp value_order a.now b.now) }
{
    order_all(a, b).is_ge()
}
