//! The comparisons of integers, whatever their types, and of booleans, false before true.
ghost use Rattle.std.specs.Prelude.{◌≡◌};
ghost use Rattle.std.specs.Ordering.{bool_cmp, int_cmp, is_eq, is_ge, is_gt, is_le, is_lt, is_ne};

pub fn eq_int(a: i64, b: i64) -> bool
    ensures { result ≡ is_eq (int_cmp a b) }
{
    a == b
}

pub fn ne_int(a: i64, b: i64) -> bool
    ensures { result ≡ is_ne (int_cmp a b) }
{
    a != b
}

pub fn lt_int(a: i64, b: i64) -> bool
    ensures { result ≡ is_lt (int_cmp a b) }
{
    a < b
}

pub fn le_int(a: i64, b: i64) -> bool
    ensures { result ≡ is_le (int_cmp a b) }
{
    a <= b
}

pub fn gt_int(a: i64, b: i64) -> bool
    ensures { result ≡ is_gt (int_cmp a b) }
{
    a > b
}

pub fn ge_int(a: i64, b: i64) -> bool
    ensures { result ≡ is_ge (int_cmp a b) }
{
    a >= b
}

pub fn eq_bool(a: bool, b: bool) -> bool
    ensures { result ≡ is_eq (bool_cmp a b) }
{
    a == b
}

pub fn ne_bool(a: bool, b: bool) -> bool
    ensures { result ≡ is_ne (bool_cmp a b) }
{
    a != b
}

pub fn lt_bool(a: bool, b: bool) -> bool
    ensures { result ≡ is_lt (bool_cmp a b) }
{
    a < b
}

pub fn le_bool(a: bool, b: bool) -> bool
    ensures { result ≡ is_le (bool_cmp a b) }
{
    a <= b
}

pub fn gt_bool(a: bool, b: bool) -> bool
    ensures { result ≡ is_gt (bool_cmp a b) }
{
    a > b
}

pub fn ge_bool(a: bool, b: bool) -> bool
    ensures { result ≡ is_ge (bool_cmp a b) }
{
    b <= a
}
