//! Rows, each on a line.
use anyhow::{Result, bail};
use std::alloc::{AllocError, Global};
use xp_base::{BodyNo, RowNo, TypeNo};
use xp_bodies::row_at;
use xp_catalog::{
    CastMethod, Catalog, Context, Counts, DomainRow, FuncRow, OperRow, TypeKind, TypeRow,
    Volatility,
};

pub fn counts_text(alloc: Global, counts: Counts) -> Result<String, AllocError> {
    let mut out = String::new(alloc);
    write!(
        out,
        "{} types, {} casts, {} functions, ",
        counts.types, counts.casts, counts.funcs
    )?;
    write!(
        out,
        "{} operators, {} domains, {} ranges",
        counts.opers, counts.domains, counts.ranges
    )?;
    Ok(out)
}

pub fn type_name(c: &Catalog, ty: TypeNo) -> &str {
    if ty.0 < c.counts().types {
        c.type_row(ty).name.as_str()
    } else {
        "?"
    }
}

/// The types with a blank between.
fn put_types(out: &mut String, c: &Catalog, types: &[TypeNo]) -> Result<(), AllocError> {
    for (place, ty) in types.iter().enumerate() {
        let blank = if place == 0 { "" } else { " " };
        write!(out, "{blank}{}", type_name(c, *ty))?;
    }
    Ok(())
}

/// The function's name with its arguments.
fn put_function(out: &mut String, c: &Catalog, row: RowNo) -> Result<(), AllocError> {
    if row.0 >= c.counts().funcs {
        return write!(out, "?");
    }
    let func = c.func_row(row);
    write!(out, "{}(", func.name.as_str())?;
    put_types(out, c, func.args.as_slice())?;
    write!(out, ")")
}

fn put_kind(out: &mut String, c: &Catalog, kind: TypeKind) -> Result<(), AllocError> {
    match kind {
        TypeKind::Plain => write!(out, "plain"),
        TypeKind::Pseudo(pseudo) => write!(out, "pseudo-type {pseudo:?}"),
        TypeKind::Array { element } => write!(out, "array of {}", type_name(c, element)),
        TypeKind::Range { row } => write!(out, "range {}", row.0),
        TypeKind::Domain { row } => write!(out, "domain {}", row.0),
    }
}

fn put_type(out: &mut String, c: &Catalog, number: u32, row: &TypeRow) -> Result<(), AllocError> {
    let preferred = if row.preferred { " preferred" } else { "" };
    let category = row.category as char;
    write!(
        out,
        "type {number} {} {category}{preferred} ",
        row.name.as_str()
    )?;
    put_kind(out, c, row.kind)?;
    write!(out, ", record {}\n", row.line)
}

fn context_word(context: Context) -> &'static str {
    match context {
        Context::Implicit => "implicit",
        Context::Assignment => "assignment",
        Context::Explicit => "explicit",
    }
}

fn put_method(out: &mut String, c: &Catalog, method: CastMethod) -> Result<(), AllocError> {
    match method {
        CastMethod::Binary => write!(out, "binary"),
        CastMethod::None => write!(out, "no body"),
        CastMethod::Function(row) => put_function(out, c, row),
    }
}

fn put_cast(out: &mut String, c: &Catalog, row: RowNo) -> Result<()> {
    if row.0 >= c.counts().casts {
        bail!("no such cast");
    }
    let cast = c.cast_row(row);
    write!(
        out,
        "cast {} from {} to {} {}, ",
        row.0,
        type_name(c, cast.from),
        type_name(c, cast.to),
        context_word(cast.context)
    )?;
    put_method(out, c, cast.method)?;
    write!(out, ", record {}\n", cast.line)?;
    Ok(())
}

pub fn volatility_word(volatility: Volatility) -> &'static str {
    match volatility {
        Volatility::Immutable => "immutable",
        Volatility::Stable => "stable",
        Volatility::Volatile => "volatile",
    }
}

/// What is said of a function or a body behind its arguments.
pub fn put_result(
    out: &mut String,
    variadic: bool,
    gives: &str,
    strict: bool,
    volatility: Volatility,
) -> Result<(), AllocError> {
    let variadic = if variadic { " variadic" } else { "" };
    let strict = if strict { " strict" } else { "" };
    let volatility = volatility_word(volatility);
    write!(out, "{variadic} gives {gives} {volatility}{strict}")
}

fn body_name(body: BodyNo) -> &'static str {
    match row_at(body) {
        Some(row) => row.name,
        None => "?",
    }
}

fn put_body(out: &mut String, func: &FuncRow) -> Result<(), AllocError> {
    match func.body {
        Some(body) => write!(out, ", body {}, record {}\n", body_name(body), func.line),
        None => write!(out, ", no body, record {}\n", func.line),
    }
}

fn put_func(out: &mut String, c: &Catalog, row: RowNo) -> Result<()> {
    if row.0 >= c.counts().funcs {
        bail!("no such function");
    }
    let func = c.func_row(row);
    write!(out, "function {} ", row.0)?;
    put_function(out, c, row)?;
    put_result(
        out,
        func.variadic,
        type_name(c, func.result),
        func.strict,
        func.volatility,
    )?;
    put_body(out, func)?;
    Ok(())
}

fn put_operands(out: &mut String, c: &Catalog, oper: &OperRow) -> Result<(), AllocError> {
    if let Some(left) = oper.left {
        write!(out, "{} ", type_name(c, left))?;
    }
    write!(out, "{} ", oper.name.as_str())?;
    write!(out, "{} calls ", type_name(c, oper.right))
}

fn put_oper(out: &mut String, c: &Catalog, row: RowNo) -> Result<()> {
    if row.0 >= c.counts().opers {
        bail!("no such operator");
    }
    let oper = c.oper_row(row);
    write!(out, "operator {} ", row.0)?;
    put_operands(out, c, oper)?;
    put_function(out, c, oper.function)?;
    write!(out, ", record {}\n", oper.line)?;
    Ok(())
}

/// The check of a domain, as it stands.
fn put_check(out: &mut String, domain: &DomainRow) -> Result<()> {
    if !domain.check.as_slice().is_empty() {
        let check = std::str::from_utf8(domain.check.as_slice())?;
        write!(out, " check ({check})")?;
    }
    write!(out, ", record {}\n", domain.line)?;
    Ok(())
}

fn put_domain(out: &mut String, c: &Catalog, row: RowNo) -> Result<()> {
    if row.0 >= c.counts().domains {
        bail!("no such domain");
    }
    let domain = c.domain_row(row);
    let not_null = if domain.not_null { " not null" } else { "" };
    write!(
        out,
        "domain {} type {} over {}{not_null}",
        row.0,
        domain.ty.0,
        type_name(c, domain.base)
    )?;
    put_check(out, domain)
}

fn put_range(out: &mut String, c: &Catalog, row: RowNo) -> Result<()> {
    if row.0 >= c.counts().ranges {
        bail!("no such range");
    }
    let range = c.range_row(row);
    write!(
        out,
        "range {} type {} over {}, record {}\n",
        row.0,
        range.ty.0,
        type_name(c, range.subtype),
        range.line
    )?;
    Ok(())
}

fn put_type_at(out: &mut String, c: &Catalog, number: u32) -> Result<()> {
    if number >= c.counts().types {
        bail!("no such type");
    }
    put_type(out, c, number, c.type_row(TypeNo(number)))?;
    Ok(())
}

/// The rows behind so many, kind by kind.
pub fn rows_text(alloc: Global, c: &Catalog, before: Counts) -> Result<String> {
    let counts = c.counts();
    let mut out = String::new(alloc);
    for number in before.types..counts.types {
        put_type_at(&mut out, c, number)?;
    }
    for row in before.domains..counts.domains {
        put_domain(&mut out, c, RowNo(row))?;
    }
    for row in before.ranges..counts.ranges {
        put_range(&mut out, c, RowNo(row))?;
    }
    for row in before.funcs..counts.funcs {
        put_func(&mut out, c, RowNo(row))?;
    }
    for row in before.casts..counts.casts {
        put_cast(&mut out, c, RowNo(row))?;
    }
    for row in before.opers..counts.opers {
        put_oper(&mut out, c, RowNo(row))?;
    }
    Ok(out)
}
