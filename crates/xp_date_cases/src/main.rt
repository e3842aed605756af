//! `xp_date_cases TABLE..`: the functions of date and its texts, case by case. It stands on
//! xp_date; `stdout` is what the manual's rules say.
#![tactic(auto)]

mod answers;
mod dates;

use answers::Dates;
use anyhow::Result;
use xp_cases::run_tables;

fn main(rt: HostRuntime) -> Result<()> {
    run_tables(&rt, &Dates)
}
