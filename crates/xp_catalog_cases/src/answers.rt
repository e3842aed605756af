//! What a case calls, and what it answers.
use crate::bases::{base, with_record};
use crate::bodies::{body_text, fit_text};
use crate::lookups::{cast_text, columns_text, function_text, operator_text, type_text};
use crate::many::{arguments_text, records_text};
use crate::rows::{counts_text, rows_text};
use crate::shipped::{digest_text, kinds_text, twice_text};
use anyhow::{Result, bail, ensure};
use std::alloc::{AllocError, Global};
use std::str;
use xp_base::is_operator_name;
use xp_cases::{Answers, bytes};
use xp_catalog::{CatFault, Catalog, Counts, Why};
use xp_loader::load;

/// The catalogue of the text, or why there is none.
pub fn loaded(alloc: Global, text: &[u8]) -> Result<Result<Catalog, CatFault>> {
    ensure!(text.len() < 4_194_304, "the text is too long");
    Ok(load(alloc, text))
}

/// The catalogue of the text, which is one.
pub fn catalogue(alloc: Global, text: &[u8]) -> Result<Catalog> {
    match loaded(alloc, text)? {
        Ok(catalog) => Ok(catalog),
        Err(fault) => bail!("{fault}"),
    }
}

pub fn fault_text(alloc: Global, fault: CatFault) -> Result<String, AllocError> {
    match fault {
        CatFault::Row { line, why } => { format!(in alloc; "record {line}: {}, {why}", why.word()) }
        CatFault::TooManyRows { .. } | CatFault::Unread | CatFault::Memory => {
            format!(in alloc; "{fault}")
        }
    }
}

/// How many rows the text gives.
fn load_text(alloc: Global, text: &[u8]) -> Result<String> {
    match loaded(alloc, text)? {
        Ok(catalog) => Ok(counts_text(alloc, catalog.counts())?),
        Err(fault) => Ok(fault_text(alloc, fault)?),
    }
}

/// The rows that the record gives behind those of the text.
fn with_text(alloc: Global, given: &[u8], record: &str) -> Result<String> {
    let before = catalogue(alloc, given)?.counts();
    let text = with_record(alloc, given, record)?;
    match loaded(alloc, text.as_slice())? {
        Ok(catalog) => rows_text(alloc, &catalog, before),
        Err(fault) => Ok(fault_text(alloc, fault)?),
    }
}

/// All rows of the text.
fn all_text(alloc: Global, given: &[u8]) -> Result<String> {
    let none = Counts {
        types: 0,
        casts: 0,
        funcs: 0,
        opers: 0,
        domains: 0,
        ranges: 0,
    };
    rows_text(alloc, &catalogue(alloc, given)?, none)
}

fn whys_text(alloc: Global) -> Result<String> {
    let whys = [
        Why::BadKind,
        Why::FieldCount,
        Why::BadName,
        Why::BadFlag,
        Why::BadCategory,
        Why::BadContext,
        Why::UnknownType,
        Why::Duplicate,
        Why::BadBase,
        Why::BadArgs,
        Why::UnknownBody,
        Why::UnknownFunction,
        Why::BodyMismatch,
        Why::BadCheck,
        Why::TooMany,
    ];
    let mut out = String::new(alloc);
    for why in whys {
        write!(out, "{}: {why}\n", why.word())?;
    }
    Ok(out)
}

fn yes_or_no(alloc: Global, yes: bool) -> Result<String> {
    Ok(String::from_str(alloc, if yes { "yes" } else { "no" })?)
}

/// The text of the base.
fn base_text(alloc: Global, given: &[u8]) -> Result<String> {
    Ok(String::from_str(alloc, str::from_utf8(given)?)?)
}

/// What is asked of a base.
fn asked(alloc: Global, word: &str, given: &[u8], rest: &str) -> Result<String> {
    match word {
        "text" => base_text(alloc, given),
        "with" => with_text(alloc, given, rest),
        "rows" => all_text(alloc, given),
        "counts" => load_text(alloc, given),
        "type" => type_text(alloc, &catalogue(alloc, given)?, rest),
        "cast" => cast_text(alloc, &catalogue(alloc, given)?, rest),
        "function" => function_text(alloc, &catalogue(alloc, given)?, rest),
        "operator" => operator_text(alloc, &catalogue(alloc, given)?, rest),
        "columns" => columns_text(alloc, &catalogue(alloc, given)?, rest),
        "fit" => fit_text(alloc, &catalogue(alloc, given)?),
        "arguments" => arguments_text(alloc, given, rest),
        "digest" => digest_text(alloc, given),
        "kinds" => kinds_text(alloc, given),
        "twice" => twice_text(alloc, given),
        _ => bail!("no such word"),
    }
}

/// What is asked without a base, or behind one, which `rest` then begins with.
fn answered(alloc: Global, word: &str, rest: &str) -> Result<String> {
    match word {
        "load" => load_text(alloc, bytes(alloc, rest)?.as_slice()),
        "empty" => Ok(counts_text(alloc, Catalog::empty(alloc)?.counts())?),
        "body" => body_text(alloc, rest),
        "whys" => whys_text(alloc),
        "is_operator" => yes_or_no(alloc, is_operator_name(rest.as_bytes())),
        "records" => records_text(alloc, rest),
        _ => {
            let (name, rest) = split(rest);
            asked(alloc, word, base(alloc, name)?.as_slice(), rest)
        }
    }
}

/// The first word, and what stands behind it.
fn split(text: &str) -> (&str, &str) {
    match text.split_once(' ') {
        Some(parts) => parts,
        None => (text, ""),
    }
}

/// The lines below one another, as far in as the first.
fn indented(alloc: Global, text: &str) -> Result<String> {
    let mut out = String::new(alloc);
    for (place, line) in text.lines().enumerate() {
        let before = if place == 0 { "" } else { "\n  " };
        write!(out, "{before}{line}")?;
    }
    Ok(out)
}

/// Answers cases of catalogues.
pub struct Catalogues;

impl Answers for Catalogues {
    fn answer(&self, alloc: Global, case: &str) -> Result<String> {
        let (word, rest) = split(case);
        indented(alloc, answered(alloc, word, rest)?.as_str())
    }
}
