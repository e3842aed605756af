//! What is answered for paths, common types, and what is read off a type.
ghost use Rattle.xp_types.specs.Within.{HasCast, IsType};
ghost use Rattle.std.specs.Prelude.{◌<◌, length};

use crate::types::{name_of, name_or_none, named, types_named};
use anyhow::{Result, bail, ensure};
use std::alloc::{AllocError, Global};
use xp_base::TypeNo;
use xp_catalog::{Catalog, Context};
use xp_types::{
    CommonType, PathKind, array_of, base, category, common, converts, element, path, preferred,
    subtype,
};

fn path_text(alloc: Global, c: &Catalog, path: PathKind) -> Result<String, AllocError>
    requires { HasCast c.now path }
{
    let word = match path {
        PathKind::Literal => "literal",
        PathKind::Same => "same",
        PathKind::Relabel => "relabel",
        PathKind::Cast(row) => {
            let cast = c.cast_row(row);
            return format!(in alloc; "cast {} to {}", name_of(c, cast.from), name_of(c, cast.to));
        }
        PathKind::Elements => "elements",
        PathKind::ByOutput => "output",
        PathKind::ByInput => "input",
        PathKind::NoPath => "none",
    };
    format!(in alloc; "{word}")
}

fn path_in(
    alloc: Global,
    c: &Catalog,
    from: TypeNo,
    to: TypeNo,
    context: Context,
) -> Result<String, AllocError>
    requires from { IsType c.now from }
    requires to { IsType c.now to }
{
    path_text(alloc, c, path(c, from, to, context))
}

/// The paths in implicit, assignment and explicit context.
pub fn path_answer(alloc: Global, c: &Catalog, text: &str) -> Result<String> {
    let Some((from, to)) = text.split_once(" to ") else {
        bail!("two types are wanted");
    };
    let (from, to) = (named(c, from)?, named(c, to)?);
    let implicit = path_in(alloc, c, from, to, Context::Implicit)?;
    let assignment = path_in(alloc, c, from, to, Context::Assignment)?;
    let explicit = path_in(alloc, c, from, to, Context::Explicit)?;
    Ok(format!(in alloc; "{implicit}, {assignment}, {explicit}")?)
}

pub fn yes_or_no(alloc: Global, answer: bool) -> Result<String, AllocError> {
    let word = if answer { "yes" } else { "no" };
    format!(in alloc; "{word}")
}

/// Whether there is an implicit path.
pub fn converts_answer(alloc: Global, c: &Catalog, text: &str) -> Result<String> {
    let Some((from, to)) = text.split_once(" to ") else {
        bail!("two types are wanted");
    };
    let (from, to) = (named(c, from)?, named(c, to)?);
    Ok(yes_or_no(alloc, converts(c, from, to))?)
}

/// The common type of several.
pub fn common_answer(alloc: Global, c: &Catalog, text: &str) -> Result<String> {
    let inputs = types_named(alloc, c, text)?;
    ensure!(!inputs.is_empty(), "types are wanted");
    ensure!(c.type_named("text").is_some(), "text is wanted");
    match common(c, &inputs) {
        CommonType::One(ty) => Ok(format!(in alloc; "{}", name_of(c, ty))?),
        CommonType::Mixed => Ok(format!(in alloc; "mixed")?),
        CommonType::NoPath { at } => Ok(format!(in alloc; "no path at {at}")?),
    }
}

/// What is read off a type.
pub fn type_answer(alloc: Global, c: &Catalog, text: &str) -> Result<String> {
    let ty = named(c, text)?;
    let mut out = String::new(alloc);
    write!(out, "base {}", name_of(c, base(c, ty)))?;
    write!(out, ", element {}", name_or_none(c, element(c, ty)))?;
    write!(out, ", array {}", name_or_none(c, array_of(c, ty)))?;
    write!(out, ", bounds {}", name_or_none(c, subtype(c, ty)))?;
    write!(out, ", category {}", category(c, ty) as char)?;
    if preferred(c, ty) {
        write!(out, ", preferred")?;
    }
    Ok(out)
}
