//! The functions and operators of the integer types and of boolean (manual 9.1, 9.3, 9.4). It
//! stands on xp_base, takes and gives Rust's own numbers, and knows nothing of values or nulls.
#![tactic(auto)]

mod arithmetic;
mod bits;
mod casts;
mod comparisons;
mod hex;

pub use arithmetic::{
    abs_int2, abs_int4, abs_int8, add_int2, add_int4, add_int8, div_int2, div_int4, div_int8,
    mod_int2, mod_int4, mod_int8, mul_int2, mul_int4, mul_int8, neg_int2, neg_int4, neg_int8,
    plus_int2, plus_int4, plus_int8, sub_int2, sub_int4, sub_int8,
};
pub use bits::{
    and_int2, and_int4, and_int8, not_int2, not_int4, not_int8, or_int2, or_int4, or_int8,
    shl_int2, shl_int4, shl_int8, shr_int2, shr_int4, shr_int8, xor_int2, xor_int4, xor_int8,
};
pub use casts::{bool_int4, int2, int4, int4_bool, int8};
pub use comparisons::{
    eq_bool, eq_int, ge_bool, ge_int, gt_bool, gt_int, le_bool, le_int, lt_bool, lt_int, ne_bool,
    ne_int,
};
pub use hex::{to_hex_int4, to_hex_int8};
