//! The run: reads a catalogue, a script and rows off a shelf, and puts the report on the script into
//! a sink. It stands on the crates that load catalogues and rows, that read and analyse statements and
//! that evaluate them, and on the outside as `xp_base` has it. It opens no file, and writes nothing of
//! texts that are not in order.
#![tactic(auto)]

mod analysis;
mod arms;
mod block;
mod ending;
mod fields;
mod inputs;
mod laws;
mod lines;
mod printer;
mod program;
mod report;
mod script;
mod uses;
mod words;
mod worked;
mod writing;

pub use ending::{Ending, Exit, exit_of};
pub use laws::blocks_end_as_they_say;
pub use program::run;
pub use worked::worked_reports;
