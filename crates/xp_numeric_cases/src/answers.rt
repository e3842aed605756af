//! What is answered for a case: a word that says what is asked, and its arguments.
use crate::numbers;
use anyhow::{Result, bail};
use std::alloc::Global;
use xp_cases::Answers;

/// The cases of numerics.
pub struct Numerics;

impl Answers for Numerics {
    fn answer(&self, alloc: Global, case: &str) -> Result<String> {
        let (word, rest) = case.split_once(' ').unwrap_or((case, ""));
        match word {
            "sums" => numbers::sums(alloc, rest),
            "quotients" => numbers::quotients(alloc, rest),
            "compare" => numbers::compare(alloc, rest),
            "signs" => numbers::signs(alloc, rest),
            "whole" => numbers::whole(alloc, rest),
            "places" => numbers::places(alloc, rest),
            "scale" => numbers::scale(alloc, rest),
            "from" => numbers::from_int(alloc, rest),
            "casts" => numbers::casts(alloc, rest),
            "text" => numbers::text(alloc, rest),
            _ => bail!("no such word"),
        }
    }
}
