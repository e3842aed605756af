//! What is answered for a case: a word that says what is asked, and its arguments.
use crate::{calls, integers, values};
use anyhow::{Result, bail};
use std::alloc::Global;
use xp_cases::Answers;

/// The cases of bodies and values.
pub struct Bodies;

impl Answers for Bodies {
    fn answer(&self, alloc: Global, case: &str) -> Result<String> {
        let (word, rest) = case.split_once(' ').unwrap_or((case, ""));
        match word {
            "call" => calls::calls(alloc, rest),
            "body" => calls::calls_of_values(alloc, rest),
            "arithmetic" => integers::arithmetic(alloc, rest),
            "signs" => integers::signs(alloc, rest),
            "bits" => integers::bits(alloc, rest),
            "shifts" => integers::shifts(alloc, rest),
            "hex" => integers::hex(alloc, rest),
            "casts" => integers::casts(alloc, rest),
            "bool" => integers::as_bool(alloc, rest),
            "compare" => integers::compare(alloc, rest),
            "compare-bool" => integers::compare_bool(alloc, rest),
            "order" => values::order_text(alloc, rest),
            "ascending" => values::ascending_text(alloc, rest),
            "copy" => values::copy_text(alloc, rest),
            _ => bail!("no such word"),
        }
    }
}
