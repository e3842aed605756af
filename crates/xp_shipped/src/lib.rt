//! The text of the shipped catalogue, a selection of PostgreSQL 16's own: types, functions, casts and
//! operators, family by family. It stands on `xp_base`, and reads nothing: the text is part of the
//! program, and the file `pg16.csv` of the program's data is the same.
#![tactic(auto)]

mod arrays;
mod casts;
mod catalogue;
mod dates;
mod integers;
mod numeric;
mod ranges;
mod resolved;
mod texts;
mod types;

pub use catalogue::shipped;
