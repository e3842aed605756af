//! The headers and the rows of rows files.
use crate::naming::put_type;
use anyhow::{Result, bail};
use std::alloc::{AllocError, Global};
use xp_cases::bytes;
use xp_catalog::{Catalog, Header};
use xp_rows::{Rows, RowsFault, load_rows};
use xp_value::{Row, Value};

/// The most rows, and the most columns, that are shown.
const SHOWN: usize = 6;

/// A text, or how long it is where that is too much to read.
fn put_text(out: &mut String, text: &str) -> Result<(), AllocError> {
    if text.len() > 100 {
        write!(out, "text of {} bytes", text.len())
    } else {
        write!(out, "text {text:?}")
    }
}

fn put_value(out: &mut String, value: &Value) -> Result<(), AllocError> {
    match value {
        Value::Null => write!(out, "null"),
        Value::Bool(truth) => write!(out, "bool {truth}"),
        Value::Int(n) => write!(out, "int {n}"),
        Value::Num(n) => {
            let sign = if n.neg { "-" } else { "" };
            write!(out, "numeric {sign}{}/{}", n.coef, n.scale)
        }
        Value::Text(text) => put_text(out, text.as_str()),
        Value::Pad(text) => write!(out, "bpchar {:?}", text.as_str()),
        Value::Bytes(bytes) => write!(out, "bytea {:?}", bytes.as_slice()),
        Value::Day(day) => write!(out, "day {day}"),
        Value::Arr(elements) => write!(out, "array of {}", elements.len()),
        Value::Rng(range) => write!(out, "range {range:?}"),
        Value::Opaque(text) => write!(out, "opaque {:?}", text.as_str()),
    }
}

fn put_header(out: &mut String, c: &Catalog, header: &Header) -> Result<()> {
    let columns = header.columns();
    write!(out, "{} columns", columns.len())?;
    for (place, column) in columns.iter().enumerate() {
        if place < SHOWN {
            write!(out, ", {} ", column.name.as_str())?;
            put_type(out, c, column.ty)?;
        }
    }
    Ok(())
}

fn put_row(out: &mut String, row: &Row) -> Result<(), AllocError> {
    for (place, value) in row.as_slice().iter().enumerate() {
        if place < SHOWN {
            write!(out, "{}", if place == 0 { "\n" } else { ", " })?;
            put_value(out, value)?;
        }
    }
    Ok(())
}

fn put_rows(out: &mut String, rows: &Rows) -> Result<(), AllocError> {
    write!(out, "; {} rows", rows.len())?;
    for (place, row) in rows.as_slice().iter().enumerate() {
        if place < SHOWN {
            put_row(out, row)?;
        }
    }
    Ok(())
}

fn put_fault(out: &mut String, fault: RowsFault) -> Result<(), AllocError> {
    match fault {
        RowsFault::Header { column, why } => write!(out, "header column {column} {}", why.word()),
        RowsFault::Width { row } => write!(out, "width row {row}"),
        RowsFault::Field { row, column, error } => {
            write!(out, "field row {row} column {column} {error}")
        }
        RowsFault::TooMany { row } => write!(out, "TooMany row {row}"),
        RowsFault::Unread | RowsFault::Memory => write!(out, "{fault}"),
    }
}

fn loaded_text(alloc: Global, c: &Catalog, text: &[u8]) -> Result<String> {
    let mut out = String::new(alloc);
    match load_rows(alloc, c, text) {
        Ok((header, rows)) => {
            put_header(&mut out, c, &header)?;
            put_rows(&mut out, &rows)?;
        }
        Err(fault) => put_fault(&mut out, fault)?,
    }
    Ok(out)
}

/// The header and the rows of a text, or its fault.
pub fn rows_answer(alloc: Global, c: &Catalog, text: &str) -> Result<String> {
    loaded_text(alloc, c, bytes(alloc, text)?.as_slice())
}

/// The same of a header of so many columns and what stands behind it: `COUNT MORE`.
pub fn wide_answer(alloc: Global, c: &Catalog, text: &str) -> Result<String> {
    let (count, more) = text.split_once(' ').unwrap_or((text, ""));
    let count: u32 = count.parse()?;
    let mut whole = String::new(alloc);
    for column in 0..count {
        let comma = if column == 0 { "" } else { "," };
        write!(whole, "{comma}c{} int4", u64::from(column) + 1)?;
    }
    let mut all = Vec::new(alloc);
    all.extend_from_slice(whole.as_bytes())?;
    all.extend_from_slice(bytes(alloc, more)?.as_slice())?;
    loaded_text(alloc, c, all.as_slice())
}

/// The same of a first text, so many times a second, and a last: `COUNT FIRST|SECOND|LAST`.
pub fn many_answer(alloc: Global, c: &Catalog, text: &str) -> Result<String> {
    let Some((count, texts)) = text.split_once(' ') else {
        bail!("a count and three texts are wanted");
    };
    let Some((first, texts)) = texts.split_once('|') else {
        bail!("three texts are wanted");
    };
    let Some((second, last)) = texts.split_once('|') else {
        bail!("a third text is wanted");
    };
    let count: u32 = count.parse()?;
    let mut whole = bytes(alloc, first)?;
    let piece = bytes(alloc, second)?;
    for _ in 0..count {
        whole.extend_from_slice(piece.as_slice())?;
    }
    whole.extend_from_slice(bytes(alloc, last)?.as_slice())?;
    loaded_text(alloc, c, whole.as_slice())
}
