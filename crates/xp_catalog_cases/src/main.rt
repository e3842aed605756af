//! `xp_catalog_cases TABLE..`: which records of a catalogue are accepted, the rows that they give,
//! look-ups, bodies, and what the shipped catalogue has, case by case. It stands on xp_catalog,
//! xp_bodies, xp_loader and xp_shipped; `stdout` is what the rules of records say.
#![tactic(auto)]

mod answers;
mod bases;
mod bodies;
mod lookups;
mod many;
mod rows;
mod shipped;

use answers::Catalogues;
use anyhow::Result;
use xp_cases::run_tables;

fn main(rt: HostRuntime) -> Result<()> {
    run_tables(&rt, &Catalogues)
}
