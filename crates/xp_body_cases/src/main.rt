//! `xp_body_cases TABLE..`: the functions of the integer types, calls of bodies, and values,
//! their order and copies, case by case. It stands on xp_int, xp_call and xp_value; `stdout` is what
//! the manual's rules say.
#![tactic(auto)]

mod answers;
mod calls;
mod integers;
mod values;

use answers::Bodies;
use anyhow::Result;
use xp_cases::run_tables;

fn main(rt: HostRuntime) -> Result<()> {
    run_tables(&rt, &Bodies)
}
