//! The table of bodies: what functions are made of, and whether a function of a catalogue is as its
//! body says. It stands on `xp_catalog`, and runs no body: a row says what one takes and gives.
#![tactic(auto)]

mod fitting;
mod list;
mod table;

pub use fitting::fits;
pub use table::{BodySig, body_named, row_at, sig};
