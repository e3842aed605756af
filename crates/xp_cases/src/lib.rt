//! What the programs of cases share: a table is read, each line is printed, and below a case also
//! what is answered. It stands on no crate of the product and has no contract: what a table shows
//! is compared with the program's file `stdout`.
#![tactic(auto)]

mod tables;
mod texts;

pub use tables::{Answers, run_tables};
pub use texts::bytes;
