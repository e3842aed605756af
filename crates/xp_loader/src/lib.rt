//! The loader: the text of a catalogue, record by record, each against the rules, up to the first that
//! breaks one. It stands on `xp_catalog`, whose rules it looks at, on the bodies of `xp_bodies`, and on
//! `csv` for the fields of records. It reads no file, and reads no check of a domain.
#![tactic(auto)]

mod form;
mod kind;
mod loader;
mod names;
mod reading;
mod record;
mod rules;
mod text;
mod types;
mod worked;

pub use loader::load;
pub use worked::worked_texts;
