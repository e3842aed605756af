//! The functions and operators of texts and padded texts (manual 9.4), over characters. It stands
//! on the characters of xp_characters and on the order of xp_value, knows no collation, and folds
//! ASCII letters alone.
#![tactic(auto)]

mod casts;
mod comparisons;
mod counts;
mod exchanging;
mod fields;
mod finding;
mod joining;
mod letters;
mod measures;
mod owned;
mod padding;
mod parts;
mod trimming;

pub use casts::{bpchar_bool, text_bool, text_bpchar, varchar_bool, varchar_bpchar};
pub use comparisons::{
    eq_bpchar, eq_text, ge_bpchar, ge_text, gt_bpchar, gt_text, le_bpchar, le_text, lt_bpchar,
    lt_text, ne_bpchar, ne_text,
};
pub use exchanging::translate;
pub use fields::{replace, split_part};
pub use finding::{starts_with, strpos_text};
pub use joining::{anytext, cat_text, repeat, textany};
pub use letters::{lower, reverse, upper};
pub use measures::{
    ascii, chr, length_bpchar, length_text, octet_length_bpchar, octet_length_text,
};
pub use padding::{lpad, lpad_fill, rpad, rpad_fill};
pub use parts::{left, right, substr_text, substr_text_count};
pub use trimming::{btrim, btrim_set, ltrim, ltrim_set, rtrim, rtrim_set};
