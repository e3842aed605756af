//! The system's files as a shelf, and its standard output as a sink: the edge of the program. It
//! stands on the outside as `xp_base` has it. It tells no content of a file and no line that was
//! written, and never looks into either.
#![tactic(auto)]

mod reading;
mod shelf;
mod sink;

pub use reading::read_within;
pub use shelf::FileShelf;
pub use sink::StdSink;
