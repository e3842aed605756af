//! The functions of texts and padded texts.
use crate::arguments::{number, quoted, text_of};
use crate::printing::{put_answer, put_if, put_text, put_value};
use anyhow::Result;
use std::alloc::Global;
use xp_base::EvalError;
use xp_like::*;
use xp_text::*;

/// Two texts.
fn two(alloc: Global, args: &str) -> Result<(String, String)> {
    let (a, args) = quoted(args)?;
    let (b, _) = quoted(args)?;
    Ok((text_of(alloc, a)?, text_of(alloc, b)?))
}

/// One text.
fn one(alloc: Global, args: &str) -> Result<String> {
    let (a, _) = quoted(args)?;
    text_of(alloc, a)
}

/// Two texts, one behind the other.
pub fn joined(alloc: Global, args: &str) -> Result<String> {
    let (a, b) = two(alloc, args)?;
    let mut out = String::new(alloc);
    put_answer(&mut out, "cat", cat_text(alloc, a.as_str(), b.as_str()))?;
    put_answer(&mut out, "textany", textany(alloc, a.as_str(), b.as_str()))?;
    put_answer(&mut out, "anytext", anytext(alloc, a.as_str(), b.as_str()))?;
    Ok(out)
}

/// A text so many times.
pub fn repeated(alloc: Global, args: &str) -> Result<String> {
    let (a, args) = quoted(args)?;
    let (n, _) = number(args)?;
    let a = text_of(alloc, a)?;
    let mut out = String::new(alloc);
    put_answer(&mut out, "repeat", repeat(alloc, a.as_str(), n))?;
    Ok(out)
}

/// The comparisons that hold of two texts.
pub fn compare(alloc: Global, args: &str) -> Result<String> {
    let (a, b) = two(alloc, args)?;
    let (a, b) = (a.as_str(), b.as_str());
    let mut out = String::new(alloc);
    put_if(&mut out, eq_text(a, b), "=")?;
    put_if(&mut out, ne_text(a, b), "<>")?;
    put_if(&mut out, lt_text(a, b), "<")?;
    put_if(&mut out, le_text(a, b), "<=")?;
    put_if(&mut out, gt_text(a, b), ">")?;
    put_if(&mut out, ge_text(a, b), ">=")?;
    Ok(out)
}

/// The comparisons that hold of two padded texts.
pub fn compare_padded(alloc: Global, args: &str) -> Result<String> {
    let (a, b) = two(alloc, args)?;
    let (a, b) = (a.as_str(), b.as_str());
    let mut out = String::new(alloc);
    put_if(&mut out, eq_bpchar(a, b), "=")?;
    put_if(&mut out, ne_bpchar(a, b), "<>")?;
    put_if(&mut out, lt_bpchar(a, b), "<")?;
    put_if(&mut out, le_bpchar(a, b), "<=")?;
    put_if(&mut out, gt_bpchar(a, b), ">")?;
    put_if(&mut out, ge_bpchar(a, b), ">=")?;
    Ok(out)
}

/// Adds a word and whether it holds.
fn put_truth(out: &mut String, word: &str, answer: Result<bool, EvalError>) -> Result<()> {
    match answer {
        Ok(holds) => put_value(out, word, holds)?,
        Err(error) => put_value(out, word, error)?,
    }
    Ok(())
}

/// A text and a pattern.
pub fn matches(alloc: Global, args: &str) -> Result<String> {
    let (a, b) = two(alloc, args)?;
    let (a, b) = (a.as_str(), b.as_str());
    let mut out = String::new(alloc);
    put_truth(&mut out, "like", like_text(a, b))?;
    put_truth(&mut out, "nlike", nlike_text(a, b))?;
    put_truth(&mut out, "ilike", ilike_text(a, b))?;
    put_truth(&mut out, "nilike", nilike_text(a, b))?;
    Ok(out)
}

/// How long a text is, and how long as a padded one.
pub fn lengths(alloc: Global, args: &str) -> Result<String> {
    let a = one(alloc, args)?;
    let a = a.as_str();
    let mut out = String::new(alloc);
    put_value(&mut out, "text", length_text(a))?;
    put_value(&mut out, "bpchar", length_bpchar(a))?;
    put_value(&mut out, "bytes", octet_length_text(a))?;
    put_value(&mut out, "bpchar bytes", octet_length_bpchar(a))?;
    Ok(out)
}

/// A padded text as a text.
pub fn unpadded(alloc: Global, args: &str) -> Result<String> {
    let a = one(alloc, args)?;
    let mut out = String::new(alloc);
    put_text(&mut out, "text", text_bpchar(alloc, a.as_str())?.as_str())?;
    put_text(
        &mut out,
        "varchar",
        varchar_bpchar(alloc, a.as_str())?.as_str(),
    )?;
    Ok(out)
}

/// A boolean as a text.
pub fn truth(alloc: Global, args: &str) -> Result<String> {
    let holds: bool = args == "true";
    let mut out = String::new(alloc);
    put_text(&mut out, "text", text_bool(alloc, holds)?.as_str())?;
    put_text(&mut out, "varchar", varchar_bool(alloc, holds)?.as_str())?;
    put_text(&mut out, "bpchar", bpchar_bool(alloc, holds)?.as_str())?;
    Ok(out)
}

/// The letters of a text, and its characters in the other order.
pub fn letters(alloc: Global, args: &str) -> Result<String> {
    let a = one(alloc, args)?;
    let mut out = String::new(alloc);
    put_text(&mut out, "upper", upper(alloc, a.as_str())?.as_str())?;
    put_text(&mut out, "lower", lower(alloc, a.as_str())?.as_str())?;
    put_text(&mut out, "reverse", reverse(alloc, a.as_str())?.as_str())?;
    Ok(out)
}

/// From a place on, for so many places where a count stands there.
pub fn part(alloc: Global, args: &str) -> Result<String> {
    let (a, args) = quoted(args)?;
    let (n, args) = number(args)?;
    let a = text_of(alloc, a)?;
    let mut out = String::new(alloc);
    if args.is_empty() {
        put_text(
            &mut out,
            "substr",
            substr_text(alloc, a.as_str(), n)?.as_str(),
        )?;
        return Ok(out);
    }
    let (count, _) = number(args)?;
    put_answer(
        &mut out,
        "substr",
        substr_text_count(alloc, a.as_str(), n, count),
    )?;
    Ok(out)
}

/// The first and the last characters.
pub fn ends(alloc: Global, args: &str) -> Result<String> {
    let (a, args) = quoted(args)?;
    let (n, _) = number(args)?;
    let a = text_of(alloc, a)?;
    let mut out = String::new(alloc);
    put_text(&mut out, "left", left(alloc, a.as_str(), n)?.as_str())?;
    put_text(&mut out, "right", right(alloc, a.as_str(), n)?.as_str())?;
    Ok(out)
}

/// At a length, with a fill where one stands there.
pub fn padded(alloc: Global, args: &str) -> Result<String> {
    let (a, args) = quoted(args)?;
    let (n, args) = number(args)?;
    let a = text_of(alloc, a)?;
    let mut out = String::new(alloc);
    if args.is_empty() {
        put_answer(&mut out, "lpad", lpad(alloc, a.as_str(), n))?;
        put_answer(&mut out, "rpad", rpad(alloc, a.as_str(), n))?;
        return Ok(out);
    }
    let fill = one(alloc, args)?;
    put_answer(
        &mut out,
        "lpad",
        lpad_fill(alloc, a.as_str(), n, fill.as_str()),
    )?;
    put_answer(
        &mut out,
        "rpad",
        rpad_fill(alloc, a.as_str(), n, fill.as_str()),
    )?;
    Ok(out)
}

/// Without spaces at the ends, or without the characters of a set.
pub fn trimmed(alloc: Global, args: &str) -> Result<String> {
    let (a, args) = quoted(args)?;
    let a = text_of(alloc, a)?;
    let mut out = String::new(alloc);
    if args.is_empty() {
        put_text(&mut out, "ltrim", ltrim(alloc, a.as_str())?.as_str())?;
        put_text(&mut out, "rtrim", rtrim(alloc, a.as_str())?.as_str())?;
        put_text(&mut out, "btrim", btrim(alloc, a.as_str())?.as_str())?;
        return Ok(out);
    }
    let set = one(alloc, args)?;
    let set = set.as_str();
    put_text(
        &mut out,
        "ltrim",
        ltrim_set(alloc, a.as_str(), set)?.as_str(),
    )?;
    put_text(
        &mut out,
        "rtrim",
        rtrim_set(alloc, a.as_str(), set)?.as_str(),
    )?;
    put_text(
        &mut out,
        "btrim",
        btrim_set(alloc, a.as_str(), set)?.as_str(),
    )?;
    Ok(out)
}

/// The place of a text in another.
pub fn place(alloc: Global, args: &str) -> Result<String> {
    let (a, b) = two(alloc, args)?;
    let mut out = String::new(alloc);
    put_value(&mut out, "strpos", strpos_text(a.as_str(), b.as_str()))?;
    put_value(&mut out, "starts_with", starts_with(a.as_str(), b.as_str()))?;
    Ok(out)
}

/// A text with another one in place of a third.
pub fn replaced(alloc: Global, args: &str) -> Result<String> {
    let (a, args) = quoted(args)?;
    let (old, new) = two(alloc, args)?;
    let a = text_of(alloc, a)?;
    let mut out = String::new(alloc);
    put_answer(
        &mut out,
        "replace",
        replace(alloc, a.as_str(), old.as_str(), new.as_str()),
    )?;
    Ok(out)
}

/// A text with characters in place of others.
pub fn translated(alloc: Global, args: &str) -> Result<String> {
    let (a, args) = quoted(args)?;
    let (old, new) = two(alloc, args)?;
    let a = text_of(alloc, a)?;
    let mut out = String::new(alloc);
    put_answer(
        &mut out,
        "translate",
        translate(alloc, a.as_str(), old.as_str(), new.as_str()),
    )?;
    Ok(out)
}

/// A field of a text.
pub fn field(alloc: Global, args: &str) -> Result<String> {
    let (a, args) = quoted(args)?;
    let (delimiter, args) = quoted(args)?;
    let (n, _) = number(args)?;
    let a = text_of(alloc, a)?;
    let delimiter = text_of(alloc, delimiter)?;
    let mut out = String::new(alloc);
    put_answer(
        &mut out,
        "split_part",
        split_part(alloc, a.as_str(), delimiter.as_str(), n),
    )?;
    Ok(out)
}

/// The code point of a text's first character.
pub fn code(alloc: Global, args: &str) -> Result<String> {
    let a = one(alloc, args)?;
    let mut out = String::new(alloc);
    put_value(&mut out, "ascii", ascii(a.as_str()))?;
    Ok(out)
}

/// The character of a code point.
pub fn character(alloc: Global, args: &str) -> Result<String> {
    let (n, _) = number(args)?;
    let mut out = String::new(alloc);
    put_answer(&mut out, "chr", chr(alloc, n))?;
    Ok(out)
}
