//! What is answered for a case: a word that says what is asked, and its arguments.
use crate::dates;
use anyhow::{Result, bail};
use std::alloc::Global;
use xp_cases::Answers;

/// The cases of dates.
pub struct Dates;

impl Answers for Dates {
    fn answer(&self, alloc: Global, case: &str) -> Result<String> {
        let (word, rest) = case.split_once(' ').unwrap_or((case, ""));
        match word {
            "fields" => dates::fields(alloc, rest),
            "field" => dates::field(alloc, rest),
            "make" => dates::make(alloc, rest),
            "count" => dates::count(alloc, rest),
            "between" => dates::between(alloc, rest),
            "compare" => dates::compare(alloc, rest),
            "text" => dates::text(alloc, rest),
            _ => bail!("no such word"),
        }
    }
}
