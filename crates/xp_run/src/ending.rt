//! How a run ends.
ghost use Rattle.std.specs.Prelude.{◌≡◌};
ghost use Rattle.xp_run.specs.Status.{status_of};

use std::fmt;
use xp_catalog::Why;
use xp_rows::RowsFault;

/// How a run ended. It shows as the line that the program writes of it.
#[derive(Clone, Copy, Debug, PartialEq, Eq)]
pub enum Ending {
    /// The whole report is written. `steps` is how many machine steps its statements took.
    Done { steps: u64 },
    /// The words are no command.
    BadWords,
    /// The record of that line, counted from 1, is refused.
    BadCatalog { line: u32, why: Why },
    /// The rows file is refused.
    BadRows { fault: RowsFault },
    /// A text is longer than its limit; `read` is the limit and one.
    TooLong { read: u64 },
    /// The shelf failed, or has no text of that name.
    ReadFault,
    /// The sink failed.
    WriteFault,
    Memory,
}

/// Writes the fault of a rows file. Those that are none of the text end no run so.
fn write_fault<W: fmt::Write>(fault: RowsFault, f: &mut fmt::Formatter<W>) -> fmt::Result {
    match fault {
        RowsFault::Header { column, why } => {
            let why = why.word();
            write!(f, "header column {column} {why}")
        }
        RowsFault::Width { row } => write!(f, "width row {row}"),
        RowsFault::Field { row, column, error } => {
            let word = error.code().word();
            write!(f, "field row {row} column {column} {word}")
        }
        RowsFault::TooMany { row } => write!(f, "TooMany row {row}"),
        RowsFault::Unread => f.write_str("Unread"),
        RowsFault::Memory => f.write_str("Memory"),
    }
}

impl fmt::Display for Ending {
    fn fmt<W: fmt::Write>(&self, f: &mut fmt::Formatter<W>) -> fmt::Result {
        match self {
            Ending::Done { steps } => write!(f, "Done {steps}"),
            Ending::BadWords => f.write_str("BadWords"),
            Ending::BadCatalog { line, why } => {
                let why = why.word();
                write!(f, "BadCatalog line {line} {why}")
            }
            Ending::BadRows { fault } => {
                f.write_str("BadRows ")?;
                write_fault(*fault, f)
            }
            Ending::TooLong { read } => write!(f, "TooLong {read}"),
            Ending::ReadFault => f.write_str("ReadFault"),
            Ending::WriteFault => f.write_str("WriteFault"),
            Ending::Memory => f.write_str("Memory"),
        }
    }
}

/// How a run ended, and the status of its process.
#[derive(Clone, Copy, Debug, PartialEq, Eq)]
pub struct Exit {
    pub status: u8,
    pub end: Ending,
}

/// The exit of a run; `fine` is whether every block ends in `ok`.
pub fn exit_of(end: Ending, fine: bool) -> Exit
    ensures end { result.end ≡ end }
    ensures status { result.status ≡ status_of fine end }
{
    let status = match end {
        Ending::Done { .. } => { if fine { 0 } else { 1 } }
        Ending::BadWords
        | Ending::BadCatalog { .. }
        | Ending::BadRows { .. }
        | Ending::TooLong { .. } => 2,
        Ending::ReadFault => 3,
        Ending::WriteFault => 4,
        Ending::Memory => 5,
    };
    Exit { status, end }
}
