//! What is answered for a case: a word that says which function is called, and its types.
use crate::choices::choose_answer;
use crate::paths::{common_answer, converts_answer, path_answer, type_answer};
use crate::picks::{function_answer, operator_answer};
use crate::polymorphic::{accepts_answer, bind_answer};
use anyhow::{Result, bail};
use std::alloc::Global;
use xp_cases::Answers;
use xp_catalog::Catalog;

/// The cases over a catalogue.
#[derive(Drop)]
pub struct Cases {
    pub catalogue: Catalog,
}

impl Answers for Cases {
    fn answer(&self, alloc: Global, case: &str) -> Result<String> {
        let c = &self.catalogue;
        let (word, text) = case.split_once(' ').unwrap_or((case, ""));
        match word {
            "type" => type_answer(alloc, c, text),
            "path" => path_answer(alloc, c, text),
            "converts" => converts_answer(alloc, c, text),
            "common" => common_answer(alloc, c, text),
            "accepts" => accepts_answer(alloc, c, text),
            "bind" => bind_answer(alloc, c, text),
            "choose" => choose_answer(alloc, c, text),
            "operator" => operator_answer(alloc, c, text),
            "function" => function_answer(alloc, c, text),
            _ => bail!("no such function"),
        }
    }
}
