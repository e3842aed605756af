//! The arguments of a case, divided by single spaces: texts in quotes, and numbers.
use anyhow::{Result, bail};
use std::alloc::Global;
use xp_cases::bytes;

/// What stands between two quotes, and the arguments behind it.
pub fn quoted(args: &str) -> Result<(&str, &str)> {
    let Some(rest) = args.strip_prefix('\'') else {
        bail!("a quote is wanted");
    };
    let Some((inner, behind)) = rest.split_once('\'') else {
        bail!("a quote has no end");
    };
    Ok((inner, behind.strip_prefix(' ').unwrap_or(behind)))
}

/// A number, and the arguments behind it.
pub fn number(args: &str) -> Result<(i32, &str)> {
    let (digits, behind) = args.split_once(' ').unwrap_or((args, ""));
    Ok((digits.parse()?, behind))
}

/// The text that stands between quotes.
pub fn text_of(alloc: Global, inner: &str) -> Result<String> {
    let text = bytes(alloc, inner)?;
    match String::from_utf8(text) {
        Ok(text) => Ok(text),
        Err(_) => bail!("a text is wanted"),
    }
}
