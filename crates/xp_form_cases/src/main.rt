//! `xp_form_cases TABLE..`: which value a text of a type is, and the text of that value, case by
//! case, over the shipped catalogue and the records that the tables name. It stands on xp_io, and
//! proves nothing about it: its output is compared with the file `stdout`, which says the rules.
#![tactic(auto)]

mod answers;

use answers::Forms;
use anyhow::{Result, bail, ensure};
use std::alloc::Global;
use std::{env, fs};
use xp_base::Byts;
use xp_cases::run_tables;
use xp_catalog::Catalog;
use xp_loader::load;
use xp_shipped::shipped;

/// More bytes than the shipped catalogue and the tables have together.
const LIMIT: usize = 1_000_000;

/// Puts the records that a table names behind the text.
fn put_records(text: &mut Byts, table: &str) -> Result<()> {
    for line in table.lines() {
        if let Some(record) = line.strip_prefix("# record: ") {
            text.append(record.as_bytes())?;
            text.append(b"\n")?;
        }
    }
    Ok(())
}

fn catalogue(alloc: Global, text: &[u8]) -> Result<Catalog> {
    ensure!(text.len() < LIMIT, "the records are too long");
    match load(alloc, text) {
        Ok(c) => Ok(c),
        Err(_) => bail!("the records are refused"),
    }
}

fn main(rt: HostRuntime) -> Result<()> {
    let mut text = shipped(rt.alloc())?;
    for name in env::args(&rt)?.skip(1) {
        put_records(&mut text, &fs::read_to_string(&rt, name.as_str())?)?;
    }
    let catalogue = catalogue(rt.alloc(), text.as_slice())?;
    run_tables(&rt, &Forms { catalogue })
}
