//! What is answered for a case: a word that says what is asked, and its text.
use crate::naming::{header_answer, name_answer};
use crate::rows::{many_answer, rows_answer, wide_answer};
use anyhow::{Result, bail};
use std::alloc::{AllocError, Global};
use xp_cases::Answers;
use xp_catalog::Catalog;

/// The cases over a catalogue.
#[derive(Drop)]
pub struct Cases {
    pub catalogue: Catalog,
}

/// The lines below one another, as far in as the first.
fn indented(alloc: Global, text: &str) -> Result<String, AllocError> {
    let mut out = String::new(alloc);
    for (place, line) in text.lines().enumerate() {
        let before = if place == 0 { "" } else { "\n  " };
        write!(out, "{before}{line}")?;
    }
    Ok(out)
}

impl Answers for Cases {
    fn answer(&self, alloc: Global, case: &str) -> Result<String> {
        let c = &self.catalogue;
        let (word, text) = case.split_once(' ').unwrap_or((case, ""));
        let answer = match word {
            "name" => name_answer(alloc, c, text)?,
            "header" => header_answer(alloc, c, text)?,
            "rows" => rows_answer(alloc, c, text)?,
            "wide" => wide_answer(alloc, c, text)?,
            "many" => many_answer(alloc, c, text)?,
            _ => bail!("no such word"),
        };
        Ok(indented(alloc, answer.as_str())?)
    }
}
