//! The functions and operators of ranges over int4, int8 and date (manual 8.17, 9.19), their
//! constructors, and the parts of their texts. It stands on the ranges of xp_value, never reads or
//! writes a bound's own text, and takes no memory but for texts.
#![tactic(auto)]

mod bounds;
mod comparisons;
mod constructors;
mod laws;
mod relations;
mod sets;
mod texts;

pub use bounds::{isempty, lower, lower_inc, lower_inf, upper, upper_inc, upper_inf};
pub use comparisons::{eq_range, ge_range, gt_range, le_range, lt_range, ne_range};
pub use constructors::{Flags, make_range, make_range_of, make_range_with};
pub use laws::{
    points_are_within_the_bounds, ranges_are_sets, relations_are_of_points, texts_are_read_back,
    what_is_refused_is_no_range,
};
pub use relations::{
    adjacent, after, before, contained_element, contained_range, contains_element, contains_range,
    notleft, notright, overlaps,
};
pub use sets::{intersect, minus, range_merge, union};
pub use texts::{RangeText, split_range, write_range};
