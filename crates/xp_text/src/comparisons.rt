//! The comparisons of texts, by their bytes, and of padded texts without the spaces at their ends.
ghost use Rattle.std.specs.Prelude.{◌≡◌};
ghost use Rattle.std.specs.Cmp.Lexicographic.{slice_cmp};
ghost use Rattle.std.specs.Ordering.{is_eq, is_ge, is_gt, is_le, is_lt, is_ne, nat_cmp};
ghost use Rattle.xp_value.specs.Order.{unpadded as unpadded_of};

use xp_value::unpadded;

pub fn eq_text(a: &str, b: &str) -> bool
    ensures { result ≡ is_eq (slice_cmp nat_cmp a.now b.now) }
{
    a.cmp(b).is_eq()
}

pub fn ne_text(a: &str, b: &str) -> bool
    ensures { result ≡ is_ne (slice_cmp nat_cmp a.now b.now) }
{
    a.cmp(b).is_ne()
}

pub fn lt_text(a: &str, b: &str) -> bool
    ensures { result ≡ is_lt (slice_cmp nat_cmp a.now b.now) }
{
    a.cmp(b).is_lt()
}

pub fn le_text(a: &str, b: &str) -> bool
    ensures { result ≡ is_le (slice_cmp nat_cmp a.now b.now) }
{
    a.cmp(b).is_le()
}

pub fn gt_text(a: &str, b: &str) -> bool
    ensures { result ≡ is_gt (slice_cmp nat_cmp a.now b.now) }
{
    a.cmp(b).is_gt()
}

pub fn ge_text(a: &str, b: &str) -> bool
    ensures { result ≡ is_ge (slice_cmp nat_cmp a.now b.now) }
{
    a.cmp(b).is_ge()
}

pub fn eq_bpchar(a: &str, b: &str) -> bool
    ensures { result ≡ is_eq (slice_cmp nat_cmp (unpadded_of a.now) (unpadded_of b.now)) }
{
    unpadded(a).cmp(unpadded(b)).is_eq()
}

pub fn ne_bpchar(a: &str, b: &str) -> bool
    ensures { result ≡ is_ne (slice_cmp nat_cmp (unpadded_of a.now) (unpadded_of b.now)) }
{
    unpadded(a).cmp(unpadded(b)).is_ne()
}

pub fn lt_bpchar(a: &str, b: &str) -> bool
    ensures { result ≡ is_lt (slice_cmp nat_cmp (unpadded_of a.now) (unpadded_of b.now)) }
{
    unpadded(a).cmp(unpadded(b)).is_lt()
}

pub fn le_bpchar(a: &str, b: &str) -> bool
    ensures { result ≡ is_le (slice_cmp nat_cmp (unpadded_of a.now) (unpadded_of b.now)) }
{
    unpadded(a).cmp(unpadded(b)).is_le()
}

pub fn gt_bpchar(a: &str, b: &str) -> bool
    ensures { result ≡ is_gt (slice_cmp nat_cmp (unpadded_of a.now) (unpadded_of b.now)) }
{
    unpadded(a).cmp(unpadded(b)).is_gt()
}

pub fn ge_bpchar(a: &str, b: &str) -> bool
    ensures { result ≡ is_ge (slice_cmp nat_cmp (unpadded_of a.now) (unpadded_of b.now)) }
{
    unpadded(a).cmp(unpadded(b)).is_ge()
}
