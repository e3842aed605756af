//! `xp_text_cases TABLE..`: the functions of texts and of bytea, LIKE, and the texts of bytea, case by
//! case. It stands on xp_text, xp_bytea and xp_like; `stdout` is what the manual's rules say.
#![tactic(auto)]

mod answers;
mod arguments;
mod octets;
mod printing;
mod texts;

use answers::Texts;
use anyhow::Result;
use xp_cases::run_tables;

fn main(rt: HostRuntime) -> Result<()> {
    run_tables(&rt, &Texts)
}
