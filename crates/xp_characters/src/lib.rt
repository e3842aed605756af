//! The characters of texts, which are kept as UTF-8, and what functions of texts and of bytes share:
//! the limit on the bytes of a value, and why there is no value. It stands on xp_base, takes no
//! memory, and knows no function of SQL.
#![tactic(auto)]

mod characters;
mod fault;
mod places;

pub use characters::{first_character, last_character, split_characters};
pub use fault::{TextFault, check_size};
pub use places::before;
