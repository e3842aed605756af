//! What is answered for polymorphic types.
use crate::paths::yes_or_no;
use crate::types::{MOST, around_of, name_of, named, put_names, types_named};
use anyhow::{Result, bail, ensure};
use std::alloc::Global;
use xp_catalog::Catalog;
use xp_poly::{Binding, accepts, bind};
use xp_types::UNKNOWN;

/// Whether the declared types accept the inputs.
pub fn accepts_answer(alloc: Global, c: &Catalog, text: &str) -> Result<String> {
    let (declared, inputs) = around_of(text)?;
    let declared = types_named(alloc, c, declared)?;
    let inputs = types_named(alloc, c, inputs)?;
    ensure!(declared.len() == inputs.len(), "as many types are wanted");
    ensure!(inputs.len() <= MOST, "too many types");
    Ok(yes_or_no(alloc, accepts(c, &declared, &inputs))?)
}

/// What stands for the declared types, and for that of the result.
pub fn bind_answer(alloc: Global, c: &Catalog, text: &str) -> Result<String> {
    let (left, inputs) = around_of(text)?;
    let Some((declared, returned)) = left.split_once(" gives ") else {
        bail!("a result is wanted");
    };
    let declared = types_named(alloc, c, declared)?;
    let inputs = types_named(alloc, c, inputs)?;
    let returned = named(c, returned)?;
    ensure!(declared.len() == inputs.len(), "as many types are wanted");
    ensure!(inputs.len() <= MOST, "too many types");
    ensure!(accepts(c, &declared, &inputs), "the inputs aren't accepted");
    let mut room = [UNKNOWN; MOST];
    let types = &mut room[..inputs.len()];
    match bind(c, &declared, returned, &inputs, types) {
        Binding::Concrete(ty) => {
            let mut out = String::new(alloc);
            put_names(&mut out, c, types)?;
            write!(out, " gives {}", name_of(c, ty))?;
            Ok(out)
        }
        Binding::Indeterminate => Ok(format!(in alloc; "indeterminate")?),
    }
}
