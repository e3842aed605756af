//! Bodies by name, and whether functions are as their bodies say.
use crate::rows::put_result;
use anyhow::Result;
use std::alloc::{AllocError, Global};
use xp_base::RowNo;
use xp_bodies::{BodySig, body_named, fits, sig};
use xp_catalog::Catalog;

fn put_sig(out: &mut String, body: &BodySig) -> Result<(), AllocError> {
    write!(out, " {}(", body.name)?;
    for (place, arg) in body.args.iter().enumerate() {
        let blank = if place == 0 { "" } else { " " };
        write!(out, "{blank}{arg}")?;
    }
    write!(out, ")")?;
    put_result(
        out,
        body.variadic,
        body.result,
        body.strict,
        body.volatility,
    )
}

pub fn body_text(alloc: Global, name: &str) -> Result<String> {
    let mut out = String::new(alloc);
    match body_named(name) {
        Some(body) => {
            write!(out, "body {}", body.0)?;
            put_sig(&mut out, &sig(body))?;
        }
        None => write!(out, "none")?,
    }
    Ok(out)
}

fn is_fit(c: &Catalog, row: RowNo) -> bool {
    row.0 < c.counts().funcs && fits(c, c.func_row(row))
}

/// How many functions fit.
pub fn fit_text(alloc: Global, c: &Catalog) -> Result<String> {
    let all = c.counts().funcs;
    let fitting = (0..all).filter(|row| is_fit(c, RowNo(*row))).count();
    Ok(format!(in alloc; "{fitting} of {all} functions")?)
}
