//! `xp_numeric_cases TABLE..`: the functions of numeric and its texts, case by case. It stands on
//! xp_numeric; `stdout` is what the manual's rules say.
#![tactic(auto)]

mod answers;
mod numbers;

use answers::Numerics;
use anyhow::Result;
use xp_cases::run_tables;

fn main(rt: HostRuntime) -> Result<()> {
    run_tables(&rt, &Numerics)
}
