//! `xp_cli run CATALOG SCRIPT [ROWS]`: types and evaluates the statements of a script over a
//! catalogue, and over rows where a file of them is named. It hands the words, the files and standard
//! output to `xp_run`, and writes the line of an ending other than `Done` to standard error; it
//! decides nothing else.
#![tactic(auto)]

use std::alloc::Global;
use std::process::ExitCode;
use std::rt::Env;
use std::{env, io};
use xp_base::Txt;
use xp_files::{FileShelf, StdSink};
use xp_run::{Ending, exit_of, run};

/// The words behind the program's name.
fn words<R: Env + AllocGlobal>(rt: &R) -> io::Result<Vec<Txt>> {
    let mut words = Vec::new(rt.alloc());
    for word in env::args(rt)?.skip(1) {
        words.push(Txt::from_string(word))?;
    }
    Ok(words)
}

/// How a run ends whose words could not be read: a word that isn't UTF-8 is no word of a command.
fn unread(error: io::Error) -> Ending {
    match error.kind() {
        io::ErrorKind::OutOfMemory => Ending::Memory,
        _ => Ending::BadWords,
    }
}

fn main(rt: HostRuntime) -> ExitCode {
    let alloc: Global = rt.alloc();
    let exit = match words(&rt) {
        Ok(words) => run(
            alloc,
            &words,
            &mut FileShelf::new(&rt),
            &mut StdSink::new(&rt),
        ),
        Err(error) => exit_of(unread(error), true),
    };
    if !matches!(exit.end, Ending::Done { .. }) {
        let _ = rt.eprintln(exit.end);
    }
    ExitCode::from(exit.status)
}
