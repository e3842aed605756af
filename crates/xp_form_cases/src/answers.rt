//! What is answered for a case: `read TYPE TEXT` or `type TYPE`.
ghost use Rattle.std.specs.Prelude.{◌<◌, IfOk, length};

use anyhow::{Result, bail};
use std::alloc::Global;
use xp_base::{Byts, Dec, TypeNo};
use xp_cases::{Answers, bytes};
use xp_catalog::Catalog;
use xp_io::{InFault, element_rep, read_value, rep_of, write_value};
use xp_value::Value;

/// A longer text is told by its length.
const SHOWN: usize = 100;

/// The text forms of the types of a catalogue.
#[derive(Drop)]
pub struct Forms {
    pub catalogue: Catalog,
}

fn named(c: &Catalog, name: &str) -> Result<TypeNo>
    ensures { IfOk result (λ type. type.0 < length c.now.types) }
{
    match c.type_named(name) {
        Some(ty) => Ok(ty),
        None => bail!("there is no type {name}"),
    }
}

/// Adds a byte, in hexadecimal digits where it is a backslash or no character of ASCII that is seen.
fn put_byte(out: &mut String, byte: u8) -> Result<()> {
    if (b' '..=b'~').contains(&byte) && byte != b'\\' {
        out.push(char::from(byte))?;
    } else {
        write!(out, "\\x{byte:02x}")?;
    }
    Ok(())
}

/// The text between quotes, or how long it is.
fn shown(alloc: Global, text: &[u8]) -> Result<String> {
    if text.len() > SHOWN {
        return Ok(format!(in alloc; "of {} bytes", text.len())?);
    }
    let mut out = String::from_str(alloc, "'")?;
    for byte in text {
        put_byte(&mut out, *byte)?;
    }
    out.push('\'')?;
    Ok(out)
}

/// The digits of a numeric and its decimals.
fn numeric(alloc: Global, number: Dec) -> Result<String> {
    let sign = if number.neg { "-" } else { "" };
    let (digits, decimals) = (number.coef, number.scale);
    Ok(format!(in alloc; "numeric {sign}{digits}/{decimals}")?)
}

/// The kind of a value, and what it holds.
fn described(alloc: Global, value: &Value) -> Result<String> {
    let (kind, text) = match value {
        Value::Bool(truth) => return Ok(format!(in alloc; "bool {truth}")?),
        Value::Int(number) => return Ok(format!(in alloc; "int {number}")?),
        Value::Num(number) => return numeric(alloc, *number),
        Value::Day(day) => return Ok(format!(in alloc; "day {day}")?),
        Value::Text(text) => ("text", text.as_str().as_bytes()),
        Value::Pad(text) => ("pad", text.as_str().as_bytes()),
        Value::Bytes(bytes) => ("bytea", bytes.as_slice()),
        Value::Opaque(text) => ("opaque", text.as_str().as_bytes()),
        _ => bail!("no such value is read yet"),
    };
    let text = shown(alloc, text)?;
    Ok(format!(in alloc; "{kind} {text}")?)
}

/// The value that the text is and its text again, or the error.
fn read(alloc: Global, c: &Catalog, case: &str) -> Result<String> {
    let Some((name, text)) = case.split_once(' ') else {
        bail!("a type and a text are wanted");
    };
    let ty = named(c, name)?;
    let value = match read_value(alloc, c, ty, bytes(alloc, text)?.as_slice()) {
        Ok(value) => value,
        Err(InFault::Bad(error)) => return Ok(format!(in alloc; "{error}")?),
        Err(InFault::Memory) => bail!("out of memory"),
    };
    let mut out = Byts::new(alloc);
    write_value(alloc, c, ty, &value, &mut out)?;
    let (value, text) = (described(alloc, &value)?, shown(alloc, out.as_slice())?);
    Ok(format!(in alloc; "{value}, written {text}")?)
}

/// How values of the type are kept, and how those of its elements.
fn kept(alloc: Global, c: &Catalog, name: &str) -> Result<String> {
    let ty = named(c, name)?;
    let (rep, element) = (rep_of(c, ty), element_rep(c, ty));
    Ok(format!(in alloc; "{rep:?}, elements {element:?}")?)
}

impl Answers for Forms {
    fn answer(&self, alloc: Global, case: &str) -> Result<String> {
        let (word, rest) = case.split_once(' ').unwrap_or((case, ""));
        match word {
            "read" => read(alloc, &self.catalogue, rest),
            "type" => kept(alloc, &self.catalogue, rest),
            _ => bail!("no such word"),
        }
    }
}
