//! The types that words name.
ghost use Rattle.std.specs.Prelude.{◌≡◌, true};
ghost use Rattle.xp_parser.specs.Parses.{ends_in_end};

use anyhow::{Result, bail, ensure};
use std::alloc::{AllocError, Global};
use xp_base::TypeNo;
use xp_cases::bytes;
use xp_catalog::Catalog;
use xp_grammar::{Ast, Statement, TypeWords};
use xp_lexer::lex;
use xp_named::{NamedType, Refusal, header_type, name_type};
use xp_parser::parse;
use xp_token::Tokens;
use xp_tree::Modifier;

const LIMIT: usize = 1_000_000;

/// A type's name.
pub fn put_type(out: &mut String, c: &Catalog, ty: TypeNo) -> Result<()> {
    ensure!(ty.0 < c.counts().types, "no such type");
    write!(out, "{}", c.type_row(ty).name.as_str())?;
    Ok(())
}

fn put_modifier(out: &mut String, modifier: Modifier) -> Result<(), AllocError> {
    match modifier {
        Modifier::None => Ok(()),
        Modifier::Length(n) => write!(out, ", length {n}"),
        Modifier::Digits { p, s } => write!(out, ", {p} digits, {s} decimals"),
    }
}

fn named_text(alloc: Global, c: &Catalog, named: Result<NamedType, Refusal>) -> Result<String> {
    let mut out = String::new(alloc);
    match named {
        Ok(named) => {
            put_type(&mut out, c, named.ty)?;
            put_modifier(&mut out, named.modifier)?;
        }
        Err(refusal) => write!(out, "{refusal}")?,
    }
    Ok(out)
}

/// The words of the type behind STORE, or of a cast or a constant that is the one expression.
fn words_of(statement: &Statement) -> Option<&TypeWords> {
    match statement {
        Statement::Store { target, .. } => Some(target),
        Statement::Explain { expr, .. } => match expr {
            Ast::Cast { target, .. } | Ast::Typed { target, .. } => Some(target.get()),
            _ => None,
        },
        _ => None,
    }
}

fn tokens_answer(alloc: Global, c: &Catalog, tokens: &Tokens) -> Result<String>
    requires { ends_in_end tokens.now ≡ true }
{
    match parse(alloc, tokens) {
        Ok(statement) => match words_of(&statement) {
            Some(words) => named_text(alloc, c, name_type(c, words)),
            None => bail!("no type is named"),
        },
        Err(_) => bail!("no statement"),
    }
}

/// The type that a statement names, and its modifier.
#[tactic(auto, using(xp_parser::proofs::Ended::ended_ends))]
pub fn name_answer(alloc: Global, c: &Catalog, text: &str) -> Result<String> {
    let text = bytes(alloc, text)?;
    ensure!(text.len() < LIMIT, "too long");
    match lex(alloc, &text, 0) {
        Ok(lexed) => tokens_answer(alloc, c, &lexed.tokens),
        Err(_) => bail!("no tokens"),
    }
}

/// The type that a header names.
pub fn header_answer(alloc: Global, c: &Catalog, name: &str) -> Result<String> {
    let mut out = String::new(alloc);
    match header_type(c, name) {
        Some(ty) => put_type(&mut out, c, ty)?,
        None => write!(out, "none")?,
    }
    Ok(out)
}
