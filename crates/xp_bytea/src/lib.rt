//! The functions and operators of bytea (manual 9.5) and its texts (8.4). It stands on the places
//! and the search of xp_characters and on the digits of hex, and never takes bytes for characters.
#![tactic(auto)]

mod comparisons;
mod encoding;
mod laws;
mod parts;
mod reading;
mod single;
mod writing;

pub use comparisons::{eq_bytea, ge_bytea, gt_bytea, le_bytea, lt_bytea, ne_bytea};
pub use encoding::{decode, encode};
pub use laws::texts_are_read_back;
pub use parts::{
    cat_bytea, length_bytea, octet_length_bytea, strpos_bytea, substr_bytea, substr_bytea_count,
};
pub use reading::read_bytea;
pub use single::{get_byte, set_byte};
pub use writing::write_bytea;
