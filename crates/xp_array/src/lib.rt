//! The functions and operators of arrays of one dimension, and their text form (manual 8.15, 9.19).
//! It stands on the order of xp_value and on the fields of xp_text, knows no array of more
//! dimensions, and never reads or writes the text of an element.
#![tactic(auto)]

mod comparisons;
mod dividing;
mod joining;
mod limits;
mod making;
mod marks;
mod measures;
mod reading;
mod searching;
mod worked;
mod writing;

pub use comparisons::{eq_array, ge_array, gt_array, le_array, lt_array, ne_array};
pub use dividing::{string_to_array, string_to_array_nulls};
pub use joining::{array_to_string, array_to_string_nulls};
pub use making::{array_append, array_cat, array_prepend, array_remove, array_replace, trim_array};
pub use measures::{array_length, array_lower, array_ndims, array_upper, cardinality};
pub use reading::{ElementTexts, element_texts};
pub use searching::{array_position, array_positions, contained, contains, overlaps};
pub use worked::worked_texts;
pub use writing::write_array;
