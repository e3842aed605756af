//! `xp_rows_cases TABLE..`: the types that words name, and the headers and rows of rows files, case by
//! case. It stands on xp_named and xp_rows, over the shipped catalogue with two domains more; `stdout`
//! is what the manual and the pages on types and rows files say.
#![tactic(auto)]

mod answers;
mod naming;
mod rows;

use answers::Cases;
use anyhow::{Result, bail, ensure};
use std::alloc::Global;
use xp_cases::run_tables;
use xp_catalog::Catalog;
use xp_loader::load;
use xp_shipped::shipped;

/// What stands behind the shipped records: a domain with a check, and one over a type with a length.
const DOMAINS: &str = "domain,posint,int4,t,VALUE > 0\ndomain,label,varchar,f,\n";

fn catalogue(alloc: Global) -> Result<Catalog> {
    let mut text = shipped(alloc)?;
    text.append(DOMAINS.as_bytes())?;
    ensure!(
        text.as_slice().len() < 4_194_304,
        "the catalogue is too long"
    );
    match load(alloc, text.as_slice()) {
        Ok(catalogue) => Ok(catalogue),
        Err(fault) => bail!("{fault}"),
    }
}

fn main(rt: HostRuntime) -> Result<()> {
    let catalogue = catalogue(rt.alloc())?;
    run_tables(&rt, &Cases { catalogue })
}
