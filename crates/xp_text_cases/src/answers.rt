//! What is answered for a case: a word that says what is asked, and its arguments.
use crate::{octets, texts};
use anyhow::{Result, bail};
use std::alloc::Global;
use xp_cases::Answers;

/// The cases of texts and of bytea.
pub struct Texts;

/// Of texts.
fn of_texts(alloc: Global, word: &str, args: &str) -> Result<Option<String>> {
    let answer = match word {
        "cat" => texts::joined(alloc, args)?,
        "repeat" => texts::repeated(alloc, args)?,
        "compare" => texts::compare(alloc, args)?,
        "compare_bpchar" => texts::compare_padded(alloc, args)?,
        "like" => texts::matches(alloc, args)?,
        "length" => texts::lengths(alloc, args)?,
        "bpchar" => texts::unpadded(alloc, args)?,
        "bool" => texts::truth(alloc, args)?,
        "letters" => texts::letters(alloc, args)?,
        "substr" => texts::part(alloc, args)?,
        "ends" => texts::ends(alloc, args)?,
        "pad" => texts::padded(alloc, args)?,
        "trim" => texts::trimmed(alloc, args)?,
        _ => return Ok(None),
    };
    Ok(Some(answer))
}

/// Of texts within texts, and of characters.
fn of_parts(alloc: Global, word: &str, args: &str) -> Result<Option<String>> {
    let answer = match word {
        "strpos" => texts::place(alloc, args)?,
        "replace" => texts::replaced(alloc, args)?,
        "translate" => texts::translated(alloc, args)?,
        "split_part" => texts::field(alloc, args)?,
        "ascii" => texts::code(alloc, args)?,
        "chr" => texts::character(alloc, args)?,
        _ => return Ok(None),
    };
    Ok(Some(answer))
}

/// Of bytea.
fn of_octets(alloc: Global, word: &str, args: &str) -> Result<Option<String>> {
    let answer = match word {
        "octets" => octets::measured(alloc, args)?,
        "octets_cat" => octets::joined(alloc, args)?,
        "octets_compare" => octets::compare(alloc, args)?,
        "octets_like" => octets::matches(alloc, args)?,
        "octets_substr" => octets::part(alloc, args)?,
        "octets_strpos" => octets::place(alloc, args)?,
        "get_byte" => octets::byte(alloc, args)?,
        "set_byte" => octets::changed(alloc, args)?,
        "encode" => octets::encoded(alloc, args)?,
        "decode" => octets::decoded(alloc, args)?,
        "bytea" => octets::text(alloc, args)?,
        _ => return Ok(None),
    };
    Ok(Some(answer))
}

impl Answers for Texts {
    fn answer(&self, alloc: Global, case: &str) -> Result<String> {
        let (word, args) = case.split_once(' ').unwrap_or((case, ""));
        if let Some(answer) = of_texts(alloc, word, args)? {
            return Ok(answer);
        }
        if let Some(answer) = of_parts(alloc, word, args)? {
            return Ok(answer);
        }
        match of_octets(alloc, word, args)? {
            Some(answer) => Ok(answer),
            None => bail!("no such word"),
        }
    }
}
