//! The functions of bytea, and its texts.
use crate::arguments::{number, quoted, text_of};
use crate::printing::{put_answer, put_bytes, put_if, put_octets, put_value};
use anyhow::Result;
use std::alloc::Global;
use xp_bytea::*;
use xp_cases::bytes;
use xp_like::{like_bytea, nlike_bytea};

/// Two byte strings.
fn two(alloc: Global, args: &str) -> Result<(Vec<u8>, Vec<u8>)> {
    let (a, args) = quoted(args)?;
    let (b, _) = quoted(args)?;
    Ok((bytes(alloc, a)?, bytes(alloc, b)?))
}

/// How many bytes.
pub fn measured(alloc: Global, args: &str) -> Result<String> {
    let (a, _) = quoted(args)?;
    let a = bytes(alloc, a)?;
    let mut out = String::new(alloc);
    put_value(&mut out, "length", length_bytea(a.as_slice()))?;
    put_value(&mut out, "octet_length", octet_length_bytea(a.as_slice()))?;
    Ok(out)
}

/// Two byte strings, one behind the other.
pub fn joined(alloc: Global, args: &str) -> Result<String> {
    let (a, b) = two(alloc, args)?;
    let mut out = String::new(alloc);
    put_octets(
        alloc,
        &mut out,
        "cat",
        cat_bytea(alloc, a.as_slice(), b.as_slice()),
    )?;
    Ok(out)
}

/// The comparisons that hold of two byte strings.
pub fn compare(alloc: Global, args: &str) -> Result<String> {
    let (a, b) = two(alloc, args)?;
    let (a, b) = (a.as_slice(), b.as_slice());
    let mut out = String::new(alloc);
    put_if(&mut out, eq_bytea(a, b), "=")?;
    put_if(&mut out, ne_bytea(a, b), "<>")?;
    put_if(&mut out, lt_bytea(a, b), "<")?;
    put_if(&mut out, le_bytea(a, b), "<=")?;
    put_if(&mut out, gt_bytea(a, b), ">")?;
    put_if(&mut out, ge_bytea(a, b), ">=")?;
    Ok(out)
}

/// Bytes and a pattern.
pub fn matches(alloc: Global, args: &str) -> Result<String> {
    let (a, b) = two(alloc, args)?;
    let (a, b) = (a.as_slice(), b.as_slice());
    let mut out = String::new(alloc);
    match like_bytea(a, b) {
        Ok(holds) => put_value(&mut out, "like", holds)?,
        Err(error) => put_value(&mut out, "like", error)?,
    }
    match nlike_bytea(a, b) {
        Ok(holds) => put_value(&mut out, "nlike", holds)?,
        Err(error) => put_value(&mut out, "nlike", error)?,
    }
    Ok(out)
}

/// From a place on, for so many places where a count stands there.
pub fn part(alloc: Global, args: &str) -> Result<String> {
    let (a, args) = quoted(args)?;
    let (n, args) = number(args)?;
    let a = bytes(alloc, a)?;
    let mut out = String::new(alloc);
    if args.is_empty() {
        let part = substr_bytea(alloc, a.as_slice(), n)?;
        put_bytes(alloc, &mut out, "substr", part.as_slice())?;
        return Ok(out);
    }
    let (count, _) = number(args)?;
    let part = substr_bytea_count(alloc, a.as_slice(), n, count);
    put_octets(alloc, &mut out, "substr", part)?;
    Ok(out)
}

/// The place of bytes in others.
pub fn place(alloc: Global, args: &str) -> Result<String> {
    let (a, b) = two(alloc, args)?;
    let mut out = String::new(alloc);
    put_value(&mut out, "strpos", strpos_bytea(a.as_slice(), b.as_slice()))?;
    Ok(out)
}

/// The byte at a place.
pub fn byte(alloc: Global, args: &str) -> Result<String> {
    let (a, args) = quoted(args)?;
    let (n, _) = number(args)?;
    let a = bytes(alloc, a)?;
    let mut out = String::new(alloc);
    match get_byte(a.as_slice(), n) {
        Ok(byte) => put_value(&mut out, "get_byte", byte)?,
        Err(error) => put_value(&mut out, "get_byte", error)?,
    }
    Ok(out)
}

/// Bytes with another one at a place.
pub fn changed(alloc: Global, args: &str) -> Result<String> {
    let (a, args) = quoted(args)?;
    let (n, args) = number(args)?;
    let (value, _) = number(args)?;
    let a = bytes(alloc, a)?;
    let mut out = String::new(alloc);
    put_octets(
        alloc,
        &mut out,
        "set_byte",
        set_byte(alloc, a.as_slice(), n, value),
    )?;
    Ok(out)
}

/// Bytes in a format.
pub fn encoded(alloc: Global, args: &str) -> Result<String> {
    let (a, args) = quoted(args)?;
    let (format, _) = quoted(args)?;
    let a = bytes(alloc, a)?;
    let mut out = String::new(alloc);
    put_answer(&mut out, "encode", encode(alloc, a.as_slice(), format))?;
    Ok(out)
}

/// The bytes that a text is in a format.
pub fn decoded(alloc: Global, args: &str) -> Result<String> {
    let (a, args) = quoted(args)?;
    let (format, _) = quoted(args)?;
    let a = text_of(alloc, a)?;
    let mut out = String::new(alloc);
    put_octets(alloc, &mut out, "decode", decode(alloc, a.as_str(), format))?;
    Ok(out)
}

/// The bytes that a text is.
pub fn text(alloc: Global, args: &str) -> Result<String> {
    let (a, _) = quoted(args)?;
    let a = bytes(alloc, a)?;
    let mut out = String::new(alloc);
    put_octets(alloc, &mut out, "is", read_bytea(alloc, a.as_slice()))?;
    Ok(out)
}
