//! `xp_tree_cases TABLE..`: runs the cases of each table over the shipped catalogue, with the records
//! behind it that the tables name, and prints each line of a table, below a case also what is
//! answered. It stands on the conversions of trees, and proves nothing about them: its output is
//! compared with the file `stdout`.
#![tactic(auto)]

mod answers;
mod checks;
mod nodes;
mod sources;
mod targets;

use answers::Cases;
use anyhow::{Result, bail, ensure};
use checks::checks_of;
use std::alloc::Global;
use std::{env, fs};
use xp_base::Byts;
use xp_cases::run_tables;
use xp_loader::load;
use xp_shipped::shipped;

/// More bytes than the shipped catalogue and the tables have together.
const LIMIT: usize = 1_000_000;

/// Puts the records that a table names behind the text.
fn put_records(text: &mut Byts, table: &str) -> Result<()> {
    for line in table.lines() {
        if let Some(record) = line.strip_prefix("# record: ") {
            text.append(record.as_bytes())?;
            text.append(b"\n")?;
        }
    }
    Ok(())
}

fn cases(alloc: Global, text: &[u8]) -> Result<Cases> {
    ensure!(text.len() < LIMIT, "the records are too long");
    match load(alloc, text) {
        Ok(catalogue) => {
            let checks = checks_of(alloc, &catalogue)?;
            Ok(Cases { catalogue, checks })
        }
        Err(_) => bail!("the records are refused"),
    }
}

fn main(rt: HostRuntime) -> Result<()> {
    let mut text = shipped(rt.alloc())?;
    for name in env::args(&rt)?.skip(1) {
        put_records(&mut text, &fs::read_to_string(&rt, name.as_str())?)?;
    }
    let cases = cases(rt.alloc(), text.as_slice())?;
    run_tables(&rt, &cases)
}
