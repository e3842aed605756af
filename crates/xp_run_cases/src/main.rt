//! `xp_run_cases TABLE..`: runs the cases of each table, and prints each line of a table, below a
//! case also the report and how the run ends. It stands on `xp_run` and on the shelves and sinks,
//! and never looks into a report: what is printed is compared with the file `stdout`.
#![tactic(auto)]

mod runs;
mod texts;

use anyhow::Result;
use runs::Runs;
use xp_cases::run_tables;

fn main(rt: HostRuntime) -> Result<()> {
    run_tables(&rt, &Runs::new(&rt))
}
