//! The functions of numeric.
use anyhow::{Result, bail};
use std::alloc::{AllocError, Global};
use std::fmt::Display;
use xp_base::{Byts, Dec, EvalError};
use xp_numeric::*;

/// Adds a comma where something stands before it.
fn put_comma(out: &mut String) -> Result<(), AllocError> {
    if !out.is_empty() {
        write!(out, ", ")?;
    }
    Ok(())
}

/// Adds a word and what its function answered.
fn put<T: Display + Drop>(
    out: &mut String,
    word: &str,
    answer: Result<T, EvalError>,
) -> Result<(), AllocError> {
    put_comma(out)?;
    match answer {
        Ok(value) => write!(out, "{word} {value}"),
        Err(error) => write!(out, "{word} {error}"),
    }
}

/// Adds a word and the number that its function answered.
fn put_number(
    alloc: Global,
    out: &mut String,
    word: &str,
    answer: Result<Dec, EvalError>,
) -> Result<()> {
    put_comma(out)?;
    match answer {
        Ok(x) => {
            let mut bytes = Byts::new(alloc);
            write_numeric(x, &mut bytes)?;
            let text = str::from_utf8(bytes.as_slice())?;
            write!(out, "{word} {text}")?;
        }
        Err(error) => write!(out, "{word} {error}")?,
    }
    Ok(())
}

/// Adds a word where it holds.
fn put_if(out: &mut String, holds: bool, word: &str) -> Result<(), AllocError> {
    if holds {
        put_comma(out)?;
        write!(out, "{word}")?;
    }
    Ok(())
}

fn number(text: &str) -> Result<Dec> {
    match read_numeric(text.as_bytes()) {
        Ok(x) => Ok(x),
        Err(_) => bail!("a number is wanted"),
    }
}

fn split(text: &str) -> Result<(&str, &str)> {
    match text.split_once(' ') {
        Some(parts) => Ok(parts),
        None => bail!("one argument more is wanted"),
    }
}

fn two(text: &str) -> Result<(Dec, Dec)> {
    let (a, b) = split(text)?;
    Ok((number(a)?, number(b)?))
}

/// Of two numbers.
pub fn sums(alloc: Global, text: &str) -> Result<String> {
    let (a, b) = two(text)?;
    let mut out = String::new(alloc);
    put_number(alloc, &mut out, "add", add_numeric(a, b))?;
    put_number(alloc, &mut out, "sub", sub_numeric(a, b))?;
    put_number(alloc, &mut out, "mul", mul_numeric(a, b))?;
    Ok(out)
}

/// Of two numbers.
pub fn quotients(alloc: Global, text: &str) -> Result<String> {
    let (a, b) = two(text)?;
    let mut out = String::new(alloc);
    put_number(alloc, &mut out, "div", div_numeric(a, b))?;
    put_number(alloc, &mut out, "mod", mod_numeric(a, b))?;
    put_number(alloc, &mut out, "intdiv", intdiv_numeric(a, b))?;
    Ok(out)
}

/// The comparisons that hold of two numbers.
pub fn compare(alloc: Global, text: &str) -> Result<String> {
    let (a, b) = two(text)?;
    let mut out = String::new(alloc);
    put_if(&mut out, eq_numeric(a, b), "=")?;
    put_if(&mut out, ne_numeric(a, b), "<>")?;
    put_if(&mut out, lt_numeric(a, b), "<")?;
    put_if(&mut out, le_numeric(a, b), "<=")?;
    put_if(&mut out, gt_numeric(a, b), ">")?;
    put_if(&mut out, ge_numeric(a, b), ">=")?;
    Ok(out)
}

/// Of a number.
pub fn signs(alloc: Global, text: &str) -> Result<String> {
    let a = number(text)?;
    let mut out = String::new(alloc);
    put_number(alloc, &mut out, "neg", Ok(neg_numeric(a)))?;
    put_number(alloc, &mut out, "plus", Ok(plus_numeric(a)))?;
    put_number(alloc, &mut out, "abs", Ok(abs_numeric(a)))?;
    put_number(alloc, &mut out, "sign", Ok(sign_numeric(a)))?;
    Ok(out)
}

/// A number as a whole one.
pub fn whole(alloc: Global, text: &str) -> Result<String> {
    let a = number(text)?;
    let mut out = String::new(alloc);
    put_number(alloc, &mut out, "ceil", Ok(ceil_numeric(a)))?;
    put_number(alloc, &mut out, "floor", Ok(floor_numeric(a)))?;
    put_number(alloc, &mut out, "round", Ok(round_numeric(a)))?;
    put_number(alloc, &mut out, "trunc", Ok(trunc_numeric(a)))?;
    Ok(out)
}

/// Of a number and a count of decimals.
pub fn places(alloc: Global, text: &str) -> Result<String> {
    let (a, places) = split(text)?;
    let (a, places): (Dec, i32) = (number(a)?, places.parse()?);
    let mut out = String::new(alloc);
    put_number(alloc, &mut out, "round", round_numeric_int4(a, places))?;
    put_number(alloc, &mut out, "trunc", trunc_numeric_int4(a, places))?;
    Ok(out)
}

/// The scale of a number, and the number without zeros at its end.
pub fn scale(alloc: Global, text: &str) -> Result<String> {
    let a = number(text)?;
    let mut out = String::new(alloc);
    put(&mut out, "scale", Ok(scale_numeric(a)))?;
    put_number(alloc, &mut out, "trim_scale", Ok(trim_scale_numeric(a)))?;
    Ok(out)
}

/// An integer as a numeric.
pub fn from_int(alloc: Global, text: &str) -> Result<String> {
    let mut out = String::new(alloc);
    put_number(alloc, &mut out, "numeric", Ok(numeric(text.parse()?)))?;
    Ok(out)
}

/// A number as an integer of each type.
pub fn casts(alloc: Global, text: &str) -> Result<String> {
    let a = number(text)?;
    let mut out = String::new(alloc);
    put(&mut out, "int2", int2_numeric(a))?;
    put(&mut out, "int4", int4_numeric(a))?;
    put(&mut out, "int8", int8_numeric(a))?;
    Ok(out)
}

/// The number that a text in quotes is.
pub fn text(alloc: Global, text: &str) -> Result<String> {
    let Some(inner) = text
        .strip_prefix('\'')
        .and_then(|rest| rest.strip_suffix('\''))
    else {
        bail!("quotes are wanted");
    };
    let mut out = String::new(alloc);
    put_number(alloc, &mut out, "is", read_numeric(inner.as_bytes()))?;
    Ok(out)
}
