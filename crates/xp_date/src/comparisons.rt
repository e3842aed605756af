//! The comparisons of dates: the earlier is the less.
ghost use Rattle.std.specs.Prelude.{◌≡◌};
ghost use Rattle.std.specs.Ordering.{int_cmp, is_eq, is_ge, is_gt, is_le, is_lt, is_ne};

pub fn eq_date(a: i32, b: i32) -> bool
    ensures { result ≡ is_eq (int_cmp a b) }
{
    a == b
}

pub fn ne_date(a: i32, b: i32) -> bool
    ensures { result ≡ is_ne (int_cmp a b) }
{
    a != b
}

pub fn lt_date(a: i32, b: i32) -> bool
    ensures { result ≡ is_lt (int_cmp a b) }
{
    a < b
}

pub fn le_date(a: i32, b: i32) -> bool
    ensures { result ≡ is_le (int_cmp a b) }
{
    a <= b
}

pub fn gt_date(a: i32, b: i32) -> bool
    ensures { result ≡ is_gt (int_cmp a b) }
{
    a > b
}

pub fn ge_date(a: i32, b: i32) -> bool
    ensures { result ≡ is_ge (int_cmp a b) }
{
    a >= b
}
