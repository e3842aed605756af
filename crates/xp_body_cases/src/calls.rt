//! Calls of bodies by their names.
//!
//! The lists of arguments stand one behind the other with `; ` between them. An argument of `calls`
//! is a whole number, `t`, `f` or `null`; those of `calls_of_values` are values, with ` | ` between.
use crate::values::values;
use anyhow::{Result, bail, ensure};
use std::alloc::{AllocError, Global};
use xp_base::{BodyNo, Dec};
use xp_bodies::body_named;
use xp_call::{call, is_built};
use xp_value::Value;

fn argument(word: &str) -> Result<Value> {
    match word {
        "null" => Ok(Value::Null),
        "t" => Ok(Value::Bool(true)),
        "f" => Ok(Value::Bool(false)),
        _ => Ok(Value::Int(word.parse()?)),
    }
}

fn put_bytes(out: &mut String, bytes: &[u8]) -> Result<(), AllocError> {
    out.push_str("bytes")?;
    for byte in bytes {
        write!(out, " {byte}")?;
    }
    Ok(())
}

fn put_number(out: &mut String, number: Dec) -> Result<(), AllocError> {
    let sign = if number.neg { "-" } else { "" };
    let (units, scale) = (number.coef, number.scale);
    write!(out, "num {sign}{units} {scale}")
}

fn put_text(out: &mut String, word: &str, text: &str) -> Result<(), AllocError> {
    write!(out, "{word} '{text}'")
}

/// Adds the value.
fn put(out: &mut String, value: &Value) -> Result<(), AllocError> {
    match value {
        Value::Null => out.push_str("null"),
        Value::Bool(true) => out.push_str("t"),
        Value::Bool(false) => out.push_str("f"),
        Value::Int(number) => write!(out, "{number}"),
        Value::Text(text) => out.push_str(text.as_str()),
        _ => out.push_str("another value"),
    }
}

/// Adds the value, but for integers and truth values as it is written in a table.
fn put_value(out: &mut String, value: &Value) -> Result<(), AllocError> {
    match value {
        Value::Num(number) => put_number(out, *number),
        Value::Text(text) => put_text(out, "text", text.as_str()),
        Value::Pad(text) => put_text(out, "pad", text.as_str()),
        Value::Bytes(bytes) => put_bytes(out, bytes.as_slice()),
        Value::Day(day) => write!(out, "day {day}"),
        _ => put(out, value),
    }
}

/// A body's name and its lists of arguments.
fn body_and_lists(text: &str) -> Result<(BodyNo, &str)> {
    let Some((name, lists)) = text.split_once(' ') else {
        bail!("arguments are wanted");
    };
    let Some(body) = body_named(name) else {
        bail!("no such body");
    };
    ensure!(is_built(body), "the body isn't built");
    Ok((body, lists))
}

fn put_divider(out: &mut String) -> Result<(), AllocError> {
    if !out.is_empty() {
        out.push_str("; ")?;
    }
    Ok(())
}

/// Adds what the body gives of one list of arguments.
fn put_call(alloc: Global, out: &mut String, body: BodyNo, list: &str) -> Result<()> {
    let mut args = Vec::new(alloc);
    for word in list.split(' ') {
        args.push(argument(word)?)?;
    }
    put_divider(out)?;
    match call(alloc, body, args.as_slice()) {
        Ok(value) => put(out, &value)?,
        Err(fault) => write!(out, "{fault}")?,
    }
    Ok(())
}

/// Of a body's name and lists of arguments.
pub fn calls(alloc: Global, text: &str) -> Result<String> {
    let (body, lists) = body_and_lists(text)?;
    let mut out = String::new(alloc);
    for list in lists.split("; ") {
        put_call(alloc, &mut out, body, list)?;
    }
    Ok(out)
}

/// Adds what the body gives of one list of values.
fn put_call_of_values(alloc: Global, out: &mut String, body: BodyNo, list: &str) -> Result<()> {
    let args = values(alloc, list)?;
    put_divider(out)?;
    match call(alloc, body, args.as_slice()) {
        Ok(value) => put_value(out, &value)?,
        Err(fault) => write!(out, "{fault}")?,
    }
    Ok(())
}

/// Of a body's name and lists of values.
pub fn calls_of_values(alloc: Global, text: &str) -> Result<String> {
    let (body, lists) = body_and_lists(text)?;
    let mut out = String::new(alloc);
    for list in lists.split("; ") {
        put_call_of_values(alloc, &mut out, body, list)?;
    }
    Ok(out)
}
