//! The functions of date.
ghost use Rattle.std.specs.Prelude.{◌≡◌, IfOk, true};
ghost use Rattle.xp_value.specs.Representation.{is_date};

use anyhow::{Result, bail, ensure};
use std::alloc::{AllocError, Global};
use xp_base::{Byts, Dec, EvalError};
use xp_cases::bytes;
use xp_date::*;
use xp_value::{FIRST_DAY, LAST_DAY};

const FIELDS: [&str; 10] = [
    "year", "month", "day", "quarter", "doy", "dow", "isodow", "week", "isoyear", "epoch",
];

/// Adds a comma where something stands before it.
fn put_comma(out: &mut String) -> Result<(), AllocError> {
    if !out.is_empty() {
        write!(out, ", ")?;
    }
    Ok(())
}

/// A day that lies in the years of dates.
fn checked(day: i32) -> Result<i32>
    ensures { IfOk result (λ d. is_date d ≡ true) }
{
    ensure!(FIRST_DAY <= day && day <= LAST_DAY, "a date is wanted");
    Ok(day)
}

fn day(text: &str) -> Result<i32>
    ensures { IfOk result (λ d. is_date d ≡ true) }
{
    match read_date(text.as_bytes()) {
        Ok(day) => checked(day),
        Err(_) => bail!("a date is wanted"),
    }
}

fn split(text: &str) -> Result<(&str, &str)> {
    match text.split_once(' ') {
        Some(parts) => Ok(parts),
        None => bail!("one argument more is wanted"),
    }
}

fn unquoted(text: &str) -> Result<&str> {
    match text
        .strip_prefix('\'')
        .and_then(|rest| rest.strip_suffix('\''))
    {
        Some(inner) => Ok(inner),
        None => bail!("quotes are wanted"),
    }
}

/// Adds a word and the date that its function answered.
fn put_date(
    alloc: Global,
    out: &mut String,
    word: &str,
    answer: Result<i32, EvalError>,
) -> Result<()> {
    put_comma(out)?;
    match answer {
        Ok(answered) => {
            let mut text = Byts::new(alloc);
            write_date(checked(answered)?, &mut text)?;
            write!(out, "{word} {}", str::from_utf8(text.as_slice())?)?;
        }
        Err(error) => write!(out, "{word} {error}")?,
    }
    Ok(())
}

/// Adds a word and the number that `extract` answered.
fn put_number(out: &mut String, word: &str, answer: Result<Dec, EvalError>) -> Result<()> {
    put_comma(out)?;
    match answer {
        Ok(x) => {
            ensure!(x.scale == 0, "a number without decimals is wanted");
            let sign = if x.neg { "-" } else { "" };
            write!(out, "{word} {sign}{}", x.coef)?;
        }
        Err(error) => write!(out, "{word} {error}")?,
    }
    Ok(())
}

/// Adds a word where it holds.
fn put_if(out: &mut String, holds: bool, word: &str) -> Result<(), AllocError> {
    if holds {
        put_comma(out)?;
        write!(out, "{word}")?;
    }
    Ok(())
}

/// Every field of a date.
pub fn fields(alloc: Global, text: &str) -> Result<String> {
    let day = day(text)?;
    let mut out = String::new(alloc);
    for name in FIELDS {
        put_number(&mut out, name, extract(name.as_bytes(), day))?;
    }
    Ok(out)
}

/// The field that stands in quotes behind a date.
pub fn field(alloc: Global, text: &str) -> Result<String> {
    let (date, name) = split(text)?;
    let name = bytes(alloc, unquoted(name)?)?;
    let mut out = String::new(alloc);
    put_number(&mut out, "is", extract(&name, day(date)?))?;
    Ok(out)
}

/// The date of a year, a month and a day of the month.
pub fn make(alloc: Global, text: &str) -> Result<String> {
    let (year, rest) = split(text)?;
    let (month, day) = split(rest)?;
    let mut out = String::new(alloc);
    let made = make_date(year.parse()?, month.parse()?, day.parse()?);
    put_date(alloc, &mut out, "is", made)?;
    Ok(out)
}

/// So many days later and earlier than a date.
pub fn count(alloc: Global, text: &str) -> Result<String> {
    let (date, count) = split(text)?;
    let (day, count): (i32, i32) = (day(date)?, count.parse()?);
    let mut out = String::new(alloc);
    put_date(alloc, &mut out, "later", add_date_int4(day, count))?;
    put_date(alloc, &mut out, "also", add_int4_date(count, day))?;
    put_date(alloc, &mut out, "earlier", sub_date_int4(day, count))?;
    Ok(out)
}

/// The days between two dates.
pub fn between(alloc: Global, text: &str) -> Result<String> {
    let (a, b) = split(text)?;
    let mut out = String::new(alloc);
    write!(out, "is {}", sub_date_date(day(a)?, day(b)?))?;
    Ok(out)
}

/// The comparisons that hold of two dates.
pub fn compare(alloc: Global, text: &str) -> Result<String> {
    let (a, b) = split(text)?;
    let (a, b) = (day(a)?, day(b)?);
    let mut out = String::new(alloc);
    put_if(&mut out, eq_date(a, b), "=")?;
    put_if(&mut out, ne_date(a, b), "<>")?;
    put_if(&mut out, lt_date(a, b), "<")?;
    put_if(&mut out, le_date(a, b), "<=")?;
    put_if(&mut out, gt_date(a, b), ">")?;
    put_if(&mut out, ge_date(a, b), ">=")?;
    Ok(out)
}

/// The date that a text in quotes is, and its number of days.
pub fn text(alloc: Global, text: &str) -> Result<String> {
    let text = bytes(alloc, unquoted(text)?)?;
    let mut out = String::new(alloc);
    let read = read_date(&text);
    put_date(alloc, &mut out, "is", read)?;
    if let Ok(day) = read {
        write!(out, ", days {day}")?;
    }
    Ok(out)
}
