//! The functions and operators of date (manual 8.5, 9.9) and its texts, over days since 1970-01-01.
//! It stands on xp_base, on the years of xp_value and on the calendar of jiff_core, knows neither times nor
//! zones, and takes no memory but for texts.
#![tactic(auto)]

mod calendar;
mod comparisons;
mod days;
mod fields;
mod laws;
mod texts;

pub use comparisons::{eq_date, ge_date, gt_date, le_date, lt_date, ne_date};
pub use days::{add_date_int4, add_int4_date, make_date, sub_date_date, sub_date_int4};
pub use fields::extract;
pub use laws::{days_are_made_of_their_parts, texts_are_read_back, years_are_1_to_9999};
pub use texts::{read_date, write_date};
