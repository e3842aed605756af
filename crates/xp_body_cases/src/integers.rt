//! The functions of the integer types.
use anyhow::{Result, bail};
use std::alloc::{AllocError, Global};
use std::fmt::Display;
use xp_base::EvalError;
use xp_int::*;

/// Adds a comma where something stands before it.
fn put_comma(out: &mut String) -> Result<(), AllocError> {
    if !out.is_empty() {
        write!(out, ", ")?;
    }
    Ok(())
}

/// Adds a word and what its function answered.
fn put<T: Display + Drop>(
    out: &mut String,
    word: &str,
    answer: Result<T, EvalError>,
) -> Result<(), AllocError> {
    put_comma(out)?;
    match answer {
        Ok(value) => write!(out, "{word} {value}"),
        Err(error) => write!(out, "{word} {error}"),
    }
}

/// The first argument, and what stands behind it.
fn split(text: &str) -> Result<(&str, &str)> {
    match text.split_once(' ') {
        Some(parts) => Ok(parts),
        None => bail!("one argument more is wanted"),
    }
}

macro_rules! arithmetic_of {
    ($out:ident, $a:ident, $b:ident, $add:ident, $sub:ident, $mul:ident, $div:ident, $rem:ident) => {
        put(&mut $out, "add", $add($a, $b))?;
        put(&mut $out, "sub", $sub($a, $b))?;
        put(&mut $out, "mul", $mul($a, $b))?;
        put(&mut $out, "div", $div($a, $b))?;
        put(&mut $out, "mod", $rem($a, $b))?;
    };
}

fn arithmetic_int2(alloc: Global, a: i16, b: i16) -> Result<String> {
    let mut out = String::new(alloc);
    arithmetic_of!(out, a, b, add_int2, sub_int2, mul_int2, div_int2, mod_int2);
    Ok(out)
}

fn arithmetic_int4(alloc: Global, a: i32, b: i32) -> Result<String> {
    let mut out = String::new(alloc);
    arithmetic_of!(out, a, b, add_int4, sub_int4, mul_int4, div_int4, mod_int4);
    Ok(out)
}

fn arithmetic_int8(alloc: Global, a: i64, b: i64) -> Result<String> {
    let mut out = String::new(alloc);
    arithmetic_of!(out, a, b, add_int8, sub_int8, mul_int8, div_int8, mod_int8);
    Ok(out)
}

/// Of a type and two numbers.
pub fn arithmetic(alloc: Global, text: &str) -> Result<String> {
    let (ty, numbers) = split(text)?;
    let (a, b) = split(numbers)?;
    match ty {
        "int2" => arithmetic_int2(alloc, a.parse()?, b.parse()?),
        "int4" => arithmetic_int4(alloc, a.parse()?, b.parse()?),
        "int8" => arithmetic_int8(alloc, a.parse()?, b.parse()?),
        _ => bail!("no such type"),
    }
}

macro_rules! signs_of {
    ($out:ident, $a:ident, $neg:ident, $abs:ident, $plus:ident) => {
        put(&mut $out, "neg", $neg($a))?;
        put(&mut $out, "abs", $abs($a))?;
        put(&mut $out, "plus", Ok($plus($a)))?;
    };
}

fn signs_int2(alloc: Global, a: i16) -> Result<String> {
    let mut out = String::new(alloc);
    signs_of!(out, a, neg_int2, abs_int2, plus_int2);
    Ok(out)
}

fn signs_int4(alloc: Global, a: i32) -> Result<String> {
    let mut out = String::new(alloc);
    signs_of!(out, a, neg_int4, abs_int4, plus_int4);
    Ok(out)
}

fn signs_int8(alloc: Global, a: i64) -> Result<String> {
    let mut out = String::new(alloc);
    signs_of!(out, a, neg_int8, abs_int8, plus_int8);
    Ok(out)
}

/// Of a type and a number.
pub fn signs(alloc: Global, text: &str) -> Result<String> {
    let (ty, a) = split(text)?;
    match ty {
        "int2" => signs_int2(alloc, a.parse()?),
        "int4" => signs_int4(alloc, a.parse()?),
        "int8" => signs_int8(alloc, a.parse()?),
        _ => bail!("no such type"),
    }
}

fn bits_int2(alloc: Global, a: i16, b: i16) -> Result<String, AllocError> {
    let (and, or, xor, not) = (and_int2(a, b), or_int2(a, b), xor_int2(a, b), not_int2(a));
    format!(in alloc; "and {and}, or {or}, xor {xor}, not {not}")
}

fn bits_int4(alloc: Global, a: i32, b: i32) -> Result<String, AllocError> {
    let (and, or, xor, not) = (and_int4(a, b), or_int4(a, b), xor_int4(a, b), not_int4(a));
    format!(in alloc; "and {and}, or {or}, xor {xor}, not {not}")
}

fn bits_int8(alloc: Global, a: i64, b: i64) -> Result<String, AllocError> {
    let (and, or, xor, not) = (and_int8(a, b), or_int8(a, b), xor_int8(a, b), not_int8(a));
    format!(in alloc; "and {and}, or {or}, xor {xor}, not {not}")
}

/// Of a type and two numbers.
pub fn bits(alloc: Global, text: &str) -> Result<String> {
    let (ty, numbers) = split(text)?;
    let (a, b) = split(numbers)?;
    let out = match ty {
        "int2" => bits_int2(alloc, a.parse()?, b.parse()?)?,
        "int4" => bits_int4(alloc, a.parse()?, b.parse()?)?,
        "int8" => bits_int8(alloc, a.parse()?, b.parse()?)?,
        _ => bail!("no such type"),
    };
    Ok(out)
}

fn shifts_text(alloc: Global, left: i64, right: i64) -> Result<String> {
    Ok(format!(in alloc; "shl {left}, shr {right}")?)
}

/// Of a type, a number and a count.
pub fn shifts(alloc: Global, text: &str) -> Result<String> {
    let (ty, numbers) = split(text)?;
    let (a, count) = split(numbers)?;
    let count: i32 = count.parse()?;
    match ty {
        "int2" => {
            let a: i16 = a.parse()?;
            shifts_text(
                alloc,
                i64::from(shl_int2(a, count)),
                i64::from(shr_int2(a, count)),
            )
        }
        "int4" => {
            let a: i32 = a.parse()?;
            shifts_text(
                alloc,
                i64::from(shl_int4(a, count)),
                i64::from(shr_int4(a, count)),
            )
        }
        "int8" => {
            let a: i64 = a.parse()?;
            shifts_text(alloc, shl_int8(a, count), shr_int8(a, count))
        }
        _ => bail!("no such type"),
    }
}

/// Of a type and a number.
pub fn hex(alloc: Global, text: &str) -> Result<String> {
    let (ty, a) = split(text)?;
    let digits = match ty {
        "int4" => to_hex_int4(alloc, a.parse()?)?,
        "int8" => to_hex_int8(alloc, a.parse()?)?,
        _ => bail!("no such type"),
    };
    Ok(String::from_str(alloc, digits.as_str())?)
}

/// A number as an int2, as an int4, and where it is an int4 as an int8 and a boolean.
pub fn casts(alloc: Global, text: &str) -> Result<String> {
    let a: i64 = text.parse()?;
    let mut out = String::new(alloc);
    put(&mut out, "int2", int2(a))?;
    put(&mut out, "int4", int4(a))?;
    if let Ok(small) = int4(a) {
        put(&mut out, "int8", Ok(int8(small)))?;
        put(&mut out, "bool", Ok(bool_int4(small)))?;
    }
    Ok(out)
}

/// A boolean as an int4.
pub fn as_bool(alloc: Global, text: &str) -> Result<String> {
    let number = int4_bool(text.parse()?);
    Ok(format!(in alloc; "int4 {number}")?)
}

/// Adds a word where it holds.
fn put_if(out: &mut String, holds: bool, word: &str) -> Result<(), AllocError> {
    if holds {
        put_comma(out)?;
        write!(out, "{word}")?;
    }
    Ok(())
}

/// The comparisons that hold of two numbers.
pub fn compare(alloc: Global, text: &str) -> Result<String> {
    let (a, b) = split(text)?;
    let (a, b): (i64, i64) = (a.parse()?, b.parse()?);
    let mut out = String::new(alloc);
    put_if(&mut out, eq_int(a, b), "=")?;
    put_if(&mut out, ne_int(a, b), "<>")?;
    put_if(&mut out, lt_int(a, b), "<")?;
    put_if(&mut out, le_int(a, b), "<=")?;
    put_if(&mut out, gt_int(a, b), ">")?;
    put_if(&mut out, ge_int(a, b), ">=")?;
    Ok(out)
}

/// The comparisons that hold of two booleans.
pub fn compare_bool(alloc: Global, text: &str) -> Result<String> {
    let (a, b) = split(text)?;
    let (a, b): (bool, bool) = (a.parse()?, b.parse()?);
    let mut out = String::new(alloc);
    put_if(&mut out, eq_bool(a, b), "=")?;
    put_if(&mut out, ne_bool(a, b), "<>")?;
    put_if(&mut out, lt_bool(a, b), "<")?;
    put_if(&mut out, le_bool(a, b), "<=")?;
    put_if(&mut out, gt_bool(a, b), ">")?;
    put_if(&mut out, ge_bool(a, b), ">=")?;
    Ok(out)
}
