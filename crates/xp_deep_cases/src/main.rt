//! `xp_deep_cases TABLE..`: deep and wide trees of each node, made, copied and given up, case by
//! case. It stands on xp_tree; `stdout` is the count of nodes that follows from how a tree was made.
#![tactic(auto)]

mod links;
mod one;
mod several;
mod trees;
mod two;
mod typed;

use anyhow::Result;
use trees::Deep;
use xp_cases::run_tables;

fn main(rt: HostRuntime) -> Result<()> {
    run_tables(&rt, &Deep)
}
