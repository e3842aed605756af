//! Tables of cases.
use anyhow::{Context, Result};
use std::alloc::Global;
use std::env::{self, Env};
use std::fs::{self, Files};
use std::io::Print;

/// What a program answers to a case, which is a line of a table: a word that says what is asked,
/// and its arguments.
pub trait Answers {
    fn answer(&self, alloc: Global, case: &str) -> Result<String>;
}

/// Prints a line of a table, and below it what is answered where it is a case.
fn run_line<R: Print + AllocGlobal, A: Answers>(rt: &R, answers: &A, line: &str) -> Result<()> {
    println!(rt; "{line}")?;
    if line.is_empty() || line.starts_with('#') {
        return Ok(());
    }
    let answer = answers
        .answer(rt.alloc(), line)
        .context(format_args!("at {line}"))?;
    println!(rt; "  {answer}")?;
    Ok(())
}

/// Runs the tables that the program's words name, one after another.
pub fn run_tables<R: Print + AllocGlobal + Env + Files, A: Answers>(
    rt: &R,
    answers: &A,
) -> Result<()> {
    for name in env::args(rt)?.skip(1) {
        let table = fs::read_to_string(rt, name.as_str())?;
        for line in table.lines() {
            run_line(rt, answers, line)?;
        }
    }
    Ok(())
}
