//! Comparisons, by value whatever the scales.
ghost use Rattle.std.specs.Prelude.{◌≡◌};
ghost use Rattle.std.specs.Ordering.{int_cmp, is_eq, is_ge, is_gt, is_le, is_lt, is_ne};
ghost use Rattle.xp_value.specs.Order.{units};

use xp_base::Dec;
use xp_value::order_numbers;

pub fn eq_numeric(a: Dec, b: Dec) -> bool
    ensures { result ≡ is_eq (int_cmp (units a) (units b)) }
{
    order_numbers(&a, &b).is_eq()
}

pub fn ne_numeric(a: Dec, b: Dec) -> bool
    ensures { result ≡ is_ne (int_cmp (units a) (units b)) }
{
    order_numbers(&a, &b).is_ne()
}

pub fn lt_numeric(a: Dec, b: Dec) -> bool
    ensures { result ≡ is_lt (int_cmp (units a) (units b)) }
{
    order_numbers(&a, &b).is_lt()
}

pub fn le_numeric(a: Dec, b: Dec) -> bool
    ensures { result ≡ is_le (int_cmp (units a) (units b)) }
{
    order_numbers(&a, &b).is_le()
}

pub fn gt_numeric(a: Dec, b: Dec) -> bool
    ensures { result ≡ is_gt (int_cmp (units a) (units b)) }
{
    order_numbers(&a, &b).is_gt()
}

pub fn ge_numeric(a: Dec, b: Dec) -> bool
    ensures { result ≡ is_ge (int_cmp (units a) (units b)) }
{
    order_numbers(&a, &b).is_ge()
}
