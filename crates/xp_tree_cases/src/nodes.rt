//! Trees as texts: each node, then `of` and the one below.
use crate::targets::name_of;
use anyhow::{Result, bail, ensure};
use std::alloc::Global;
use xp_base::RowNo;
use xp_catalog::Catalog;
use xp_tree::{Callee, Modifier, Node, NodeType, Tree, Way};
use xp_value::Value;

fn put_value(out: &mut String, value: &Value) -> Result<()> {
    match value {
        Value::Null => write!(out, " null")?,
        Value::Bool(truth) => write!(out, " {truth}")?,
        Value::Int(number) => write!(out, " {number}")?,
        Value::Num(number) => {
            let sign = if number.neg { "-" } else { "" };
            write!(out, " {sign}{}/{}", number.coef, number.scale)?
        }
        Value::Bytes(bytes) => write!(out, " {:?}", bytes.as_slice())?,
        Value::Day(day) => write!(out, " {day}")?,
        Value::Text(text) => write!(out, " '{}'", text.as_str())?,
        Value::Pad(text) => write!(out, " padded '{}'", text.as_str())?,
        Value::Opaque(text) => write!(out, " opaque '{}'", text.as_str())?,
        _ => bail!("no such constant"),
    }
    Ok(())
}

/// The function of one argument.
fn put_function(out: &mut String, c: &Catalog, row: RowNo) -> Result<()> {
    ensure!(row.0 < c.counts().funcs, "no function of the catalogue");
    let func = c.func_row(row);
    let [arg] = func.args.as_slice() else {
        bail!("a cast's function has one argument");
    };
    ensure!(arg.0 < c.counts().types, "no type of the catalogue");
    let (name, arg) = (func.name.as_str(), name_of(c, *arg));
    write!(out, "call {name}({arg})")?;
    Ok(())
}

/// The function that is called, or the cast without one, and whether it has a body.
fn put_callee(out: &mut String, c: &Catalog, callee: &Callee) -> Result<()> {
    if callee.from_cast {
        write!(out, "cast")?;
    } else {
        put_function(out, c, callee.row)?;
    }
    if callee.body.is_none() {
        write!(out, " without body")?;
    }
    Ok(())
}

fn put_way(out: &mut String, c: &Catalog, way: &Way) -> Result<()> {
    match way {
        Way::ByBody(callee) => put_callee(out, c, callee),
        Way::ByOutput => Ok(write!(out, "output")?),
        Way::ByInput => Ok(write!(out, "input")?),
        Way::ByRelabel => Ok(write!(out, "relabel")?),
    }
}

fn put_sizing(out: &mut String, modifier: Modifier, cut: bool) -> Result<()> {
    match modifier {
        Modifier::None => bail!("a sizing without a modifier"),
        Modifier::Length(length) => write!(out, "size ({length})")?,
        Modifier::Digits { p, s } => write!(out, "size ({p},{s})")?,
    }
    write!(out, "{}", if cut { " cut" } else { " keep" })?;
    Ok(())
}

fn put_domain(out: &mut String, not_null: bool, checked: bool) -> Result<()> {
    write!(out, "domain")?;
    if not_null {
        write!(out, " not null")?;
    }
    if checked {
        write!(out, " checked")?;
    }
    Ok(())
}

fn put_type(out: &mut String, c: &Catalog, ty: NodeType) -> Result<()> {
    ensure!(ty.no.0 < c.counts().types, "no type of the catalogue");
    write!(out, ": {}", name_of(c, ty.no))?;
    Ok(())
}

/// Adds the word of a node, and gives the node below, where there is one.
fn put_word<'a>(out: &mut String, c: &Catalog, node: &'a Node) -> Result<Option<&'a Tree>> {
    match node {
        Node::Constant { .. } => write!(out, "constant")?,
        Node::Column { .. } => write!(out, "column")?,
        Node::Call { callee, args, .. } => {
            put_callee(out, c, callee)?;
            return Ok(args.as_slice().first());
        }
        Node::Output { arg, .. } => {
            write!(out, "output")?;
            return Ok(Some(arg));
        }
        Node::Input { arg, .. } => {
            write!(out, "input")?;
            return Ok(Some(arg));
        }
        Node::Relabel { arg, .. } => {
            write!(out, "relabel")?;
            return Ok(Some(arg));
        }
        Node::Elements { arg, way, .. } => {
            write!(out, "elements by ")?;
            put_way(out, c, way)?;
            return Ok(Some(arg));
        }
        Node::Sizing {
            arg,
            modifier,
            cut,
            ..
        } => {
            put_sizing(out, *modifier, *cut)?;
            return Ok(Some(arg));
        }
        Node::Domain {
            arg,
            not_null,
            check,
            ..
        } => {
            put_domain(out, *not_null, check.is_some())?;
            return Ok(Some(arg));
        }
        _ => bail!("no node of a conversion"),
    }
    Ok(None)
}

/// The nodes from the top down.
pub fn tree_text(alloc: Global, c: &Catalog, tree: &Tree) -> Result<String> {
    let mut out = String::new(alloc);
    let mut at = tree;
    for _ in 0..u64::MAX {
        let below = put_word(&mut out, c, at.top())?;
        put_type(&mut out, c, at.node_type())?;
        let Some(next) = below else {
            if let Node::Constant { value, .. } = at.top() {
                put_value(&mut out, value)?;
            }
            return Ok(out);
        };
        write!(out, " of ")?;
        at = next;
    }
    Ok(out)
}
