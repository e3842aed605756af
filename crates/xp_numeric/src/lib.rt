//! The functions and operators of numeric (manual 8.1.2, 9.3) over whole numbers and a scale. It
//! stands on xp_base and on the order of xp_value, and takes no memory but for texts.
#![tactic(auto)]

mod casts;
mod comparisons;
mod laws;
mod making;
mod places;
mod quotients;
mod reading;
mod scales;
mod signs;
mod sums;
mod weights;
mod wide;
mod writing;

pub use casts::{int2_numeric, int4_numeric, int8_numeric, numeric};
pub use comparisons::{eq_numeric, ge_numeric, gt_numeric, le_numeric, lt_numeric, ne_numeric};
pub use laws::{remainder_is_the_rest, texts_are_read_back};
pub use places::{
    ceil_numeric, floor_numeric, round_numeric, round_numeric_int4, trunc_numeric,
    trunc_numeric_int4,
};
pub use quotients::{div_numeric, intdiv_numeric, mod_numeric};
pub use reading::read_numeric;
pub use scales::{scale_numeric, trim_scale_numeric};
pub use signs::{abs_numeric, neg_numeric, plus_numeric, sign_numeric};
pub use sums::{add_numeric, mul_numeric, sub_numeric};
pub use writing::write_numeric;
