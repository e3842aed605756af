//! The comparisons of byte strings, byte by byte.
ghost use Rattle.std.specs.Prelude.{◌≡◌};
ghost use Rattle.std.specs.Cmp.Lexicographic.{slice_cmp};
ghost use Rattle.std.specs.Ordering.{is_eq, is_ge, is_gt, is_le, is_lt, is_ne, nat_cmp};

pub fn eq_bytea(a: &[u8], b: &[u8]) -> bool
    ensures { result ≡ is_eq (slice_cmp nat_cmp a.now b.now) }
{
    a.cmp(b).is_eq()
}

pub fn ne_bytea(a: &[u8], b: &[u8]) -> bool
    ensures { result ≡ is_ne (slice_cmp nat_cmp a.now b.now) }
{
    a.cmp(b).is_ne()
}

pub fn lt_bytea(a: &[u8], b: &[u8]) -> bool
    ensures { result ≡ is_lt (slice_cmp nat_cmp a.now b.now) }
{
    a.cmp(b).is_lt()
}

pub fn le_bytea(a: &[u8], b: &[u8]) -> bool
    ensures { result ≡ is_le (slice_cmp nat_cmp a.now b.now) }
{
    a.cmp(b).is_le()
}

pub fn gt_bytea(a: &[u8], b: &[u8]) -> bool
    ensures { result ≡ is_gt (slice_cmp nat_cmp a.now b.now) }
{
    a.cmp(b).is_gt()
}

pub fn ge_bytea(a: &[u8], b: &[u8]) -> bool
    ensures { result ≡ is_ge (slice_cmp nat_cmp a.now b.now) }
{
    a.cmp(b).is_ge()
}
