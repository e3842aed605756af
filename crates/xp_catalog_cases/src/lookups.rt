//! Look-ups by names.
use anyhow::{Result, bail};
use std::alloc::{AllocError, Global};
use xp_base::{Name, RowNo, TypeNo};
use xp_catalog::{Catalog, Header, HeaderColumn};

pub fn type_text(alloc: Global, c: &Catalog, name: &str) -> Result<String> {
    match c.type_named(name) {
        Some(ty) => Ok(format!(in alloc; "type {}", ty.0)?),
        None => Ok(String::from_str(alloc, "none")?),
    }
}

fn row_text(alloc: Global, kind: &str, row: Option<RowNo>) -> Result<String> {
    match row {
        Some(row) => Ok(format!(in alloc; "{kind} {}", row.0)?),
        None => Ok(String::from_str(alloc, "none")?),
    }
}

fn type_of(c: &Catalog, name: &str) -> Result<TypeNo> {
    match c.type_named(name) {
        Some(ty) => Ok(ty),
        None => bail!("no such type"),
    }
}

/// A name, and types behind it.
fn signature<'a>(alloc: Global, c: &Catalog, text: &'a str) -> Result<(&'a str, Vec<TypeNo>)> {
    let mut words = text.split(' ');
    let Some(name) = words.next() else {
        bail!("a name is wanted");
    };
    let mut types = Vec::new(alloc);
    for word in words {
        types.push(type_of(c, word)?)?;
    }
    Ok((name, types))
}

pub fn function_text(alloc: Global, c: &Catalog, text: &str) -> Result<String> {
    let (name, args) = signature(alloc, c, text)?;
    row_text(alloc, "function", c.func_at(name, args.as_slice()))
}

pub fn operator_text(alloc: Global, c: &Catalog, text: &str) -> Result<String> {
    let (name, args) = signature(alloc, c, text)?;
    row_text(alloc, "operator", c.oper_at(name, args.as_slice()))
}

pub fn cast_text(alloc: Global, c: &Catalog, text: &str) -> Result<String> {
    let Some((from, to)) = text.split_once(' ') else {
        bail!("two types are wanted");
    };
    row_text(
        alloc,
        "cast",
        c.cast_between(type_of(c, from)?, type_of(c, to)?),
    )
}

/// Adds a column, written as `NAME:TYPE`.
fn add_column(alloc: Global, c: &Catalog, header: &mut Header, text: &str) -> Result<()> {
    let Some((name, ty)) = text.split_once(':') else {
        bail!("a name and a type are wanted");
    };
    let column = HeaderColumn {
        name: Name::from_str(alloc, name)?,
        ty: type_of(c, ty)?,
    };
    if header.column_named(column.name.as_str()).is_some() {
        bail!("a second column of that name");
    }
    header.push(column)?;
    Ok(())
}

fn put_columns(out: &mut String, header: &Header) -> Result<(), AllocError> {
    for column in header.columns() {
        write!(out, "{} type {}\n", column.name.as_str(), column.ty.0)?;
    }
    Ok(())
}

fn put_place(out: &mut String, name: &str, place: Option<usize>) -> Result<(), AllocError> {
    match place {
        Some(place) => write!(out, "{name} at {place}\n"),
        None => write!(out, "{name} nowhere\n"),
    }
}

/// A header of columns, each as `NAME:TYPE`; other words are looked up in it.
pub fn columns_text(alloc: Global, c: &Catalog, text: &str) -> Result<String> {
    let mut header = Header::new(alloc);
    for word in text.split(' ') {
        if word.contains(':') {
            add_column(alloc, c, &mut header, word)?;
        }
    }
    let mut out = String::new(alloc);
    put_columns(&mut out, &header)?;
    for word in text.split(' ') {
        if !word.contains(':') {
            put_place(&mut out, word, header.column_named(word))?;
        }
    }
    Ok(out)
}
