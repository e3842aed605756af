//! Types by name, one and lists of them.
ghost use Rattle.std.specs.Prelude.{◌<◌, IfOk, IfSome, OnOk, length};
ghost use Rattle.xp_types.specs.Within.{AreTypes, IsType};

use anyhow::{Result, bail, ensure};
use std::alloc::Global;
use xp_base::{ARGUMENT_LIMIT, TypeNo};
use xp_catalog::Catalog;
use xp_types::UNKNOWN;

/// The most inputs of a case.
pub const MOST: usize = ARGUMENT_LIMIT as usize;

/// The type of that name, `unknown` among them.
pub fn named(c: &Catalog, name: &str) -> Result<TypeNo>
    ensures { IfOk result (IsType c.now) }
{
    if name == "unknown" {
        ensure!(0 < c.counts().types, "a catalogue without types");
        return Ok(UNKNOWN);
    }
    match c.type_named(name) {
        Some(ty) => Ok(ty),
        None => bail!("there is no type {name}"),
    }
}

/// The types of an item: one, or `NAME * COUNT`.
fn push_item(c: &Catalog, types: &mut Vec<TypeNo>, item: &str) -> Result<()>
    requires { AreTypes c.now types.old.items }
    ensures { OnOk result (AreTypes c.now types.new.items) }
{
    let (name, count) = item.split_once(" * ").unwrap_or((item, "1"));
    let count: usize = count.parse()?;
    let ty = named(c, name)?;
    for _copy in 0..count {
        types.push(ty)?;
    }
    Ok(())
}

/// The types of a list, which may be empty.
pub fn types_named(alloc: Global, c: &Catalog, list: &str) -> Result<Vec<TypeNo>>
    ensures { IfOk result (λ types. AreTypes c.now types.items) }
{
    let mut types = Vec::new(alloc);
    if list.is_empty() {
        return Ok(types);
    }
    for item in list.split(", ") {
        push_item(c, &mut types, item)?;
    }
    Ok(types)
}

/// What stands before and behind the word `of`.
pub fn around_of(text: &str) -> Result<(&str, &str)> {
    match text.split_once(" of") {
        Some((before, behind)) => Ok((before, behind.trim_start())),
        None => bail!("the word `of` is wanted"),
    }
}

pub fn name_of<'a>(c: &'a Catalog, ty: TypeNo) -> &'a str
    requires { IsType c.now ty }
{
    c.type_row(ty).name.as_str()
}

/// The name of the type, where there is one.
pub fn name_or_none<'a>(c: &'a Catalog, ty: Option<TypeNo>) -> &'a str
    requires { IfSome ty (IsType c.now) }
{
    match ty {
        Some(ty) => name_of(c, ty),
        None => "none",
    }
}

/// Adds the names with commas between them.
pub fn put_names(out: &mut String, c: &Catalog, types: &[TypeNo]) -> Result<()> {
    for (place, ty) in types.iter().enumerate() {
        ensure!(ty.0 < c.counts().types, "no type of the catalogue");
        let comma = if place == 0 { "" } else { ", " };
        write!(out, "{comma}{}", name_of(c, *ty))?;
    }
    Ok(())
}
