//! What is answered for operators and functions.
ghost use Rattle.std.specs.Prelude.{◌<◌, length};
ghost use Rattle.xp_func.specs.Picked.{IsKnownPick};

use crate::types::{MOST, around_of, name_of, put_names, types_named};
use anyhow::{Result, ensure};
use std::alloc::Global;
use xp_base::RowNo;
use xp_catalog::Catalog;
use xp_func::{Pick, PickedFunc, pick_function};
use xp_oper::pick_operator;

/// An operator by its name and operands.
fn put_operator(out: &mut String, c: &Catalog, row: RowNo) -> Result<()> {
    ensure!(row.0 < c.counts().opers, "no operator of the catalogue");
    let oper = c.oper_row(row);
    write!(out, "{} over ", oper.name.as_str())?;
    if let Some(left) = oper.left {
        write!(out, "{}, ", name_of(c, left))?;
    }
    write!(out, "{}", name_of(c, oper.right))?;
    Ok(())
}

/// A function by its name and arguments.
fn put_function(out: &mut String, c: &Catalog, row: RowNo) -> Result<()> {
    ensure!(row.0 < c.counts().funcs, "no function of the catalogue");
    let func = c.func_row(row);
    write!(out, "{}(", func.name.as_str())?;
    put_names(out, c, func.args.as_slice())?;
    write!(out, ")")?;
    Ok(())
}

/// The operator that is meant.
pub fn operator_answer(alloc: Global, c: &Catalog, text: &str) -> Result<String> {
    let (name, inputs) = around_of(text)?;
    let inputs = types_named(alloc, c, inputs)?;
    ensure!(inputs.len() <= 2, "one operand or two are wanted");
    let mut out = String::new(alloc);
    match pick_operator(alloc, c, name, &inputs) {
        Ok(row) => put_operator(&mut out, c, row)?,
        Err(Pick::Undefined) => write!(out, "undefined")?,
        Err(Pick::Ambiguous { first, second }) => {
            write!(out, "ambiguous: ")?;
            put_operator(&mut out, c, first)?;
            write!(out, "; ")?;
            put_operator(&mut out, c, second)?;
        }
        Err(Pick::Memory) => write!(out, "memory")?,
    }
    Ok(out)
}

fn put_picked(out: &mut String, c: &Catalog, picked: PickedFunc) -> Result<()>
    requires { IsKnownPick c.now picked }
{
    match picked {
        PickedFunc::Call { row, expanded } => {
            put_function(out, c, row)?;
            if expanded != 0 {
                write!(out, ", elements {expanded}")?;
            }
        }
        PickedFunc::CastRequest(ty) => write!(out, "cast to {}", name_of(c, ty))?,
    }
    Ok(())
}

/// The function that is meant, or the cast that is asked for.
pub fn function_answer(alloc: Global, c: &Catalog, text: &str) -> Result<String> {
    let (name, inputs) = around_of(text)?;
    let (name, variadic) = match name.strip_suffix(" variadic") {
        Some(name) => (name, true),
        None => (name, false),
    };
    let inputs = types_named(alloc, c, inputs)?;
    ensure!(inputs.len() <= MOST, "too many arguments");
    let mut out = String::new(alloc);
    match pick_function(alloc, c, name, &inputs, variadic) {
        Ok(picked) => put_picked(&mut out, c, picked)?,
        Err(Pick::Undefined) => write!(out, "undefined")?,
        Err(Pick::Ambiguous { first, second }) => {
            write!(out, "ambiguous: ")?;
            put_function(&mut out, c, first)?;
            write!(out, "; ")?;
            put_function(&mut out, c, second)?;
        }
        Err(Pick::Memory) => write!(out, "memory")?,
    }
    Ok(out)
}
