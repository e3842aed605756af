//! From a value to its text.
ghost use Rattle.std.specs.Prelude.{◌≡◌, ◌<◌, ◌++◌, IfOk, OnErr, OnOk, false, length, true};
ghost use Rattle.std.specs.Str.{IsUtf8};
ghost use Rattle.hex.specs.Hex.{IsBytes};
ghost use Rattle.xp_io.specs.Forms.{ReadsBack, output};
ghost use Rattle.xp_io.specs.inner.Chars.{IsChars};
ghost use Rattle.xp_value.specs.Null.{is_null};
ghost use Rattle.xp_io.specs.Representations.{shape_of};
ghost use Rattle.xp_value.specs.Representation.{is_of};

use crate::booleans::output_bool;
use itoa::Buffer;
use std::alloc::Global;
use std::str;
use xp_base::{Byts, Dec, Memory, Txt, TypeNo};
use xp_bytea::write_bytea;
use xp_catalog::Catalog;
use xp_date::write_date;
use xp_numeric::write_numeric;
use xp_value::{FIRST_DAY, LAST_DAY, Value};

/// Adds the text of a day; a day outside the years has none.
fn write_day(day: i32, out: &mut Byts) -> Result<(), Memory>
    ensures ok { OnOk result (out.new ≡ out.old ++ output (Value.Day day)) }
    ensures err { OnErr result (out.new ≡ out.old) }
{
    if FIRST_DAY <= day && day <= LAST_DAY {
        write_date(day, out)
    } else {
        Ok(())
    }
}

/// Adds the text of a value that isn't null.
pub fn write_text(alloc: Global, v: &Value, out: &mut Byts) -> Result<(), Memory>
    ensures ok { OnOk result (out.new ≡ out.old ++ output v.now) }
    ensures err { OnErr result (out.new ≡ out.old) }
{
    match v {
        Value::Bool(truth) => out.append(output_bool(*truth).as_bytes()),
        Value::Int(number) => out.append(Buffer::new().format(*number).as_bytes()),
        Value::Num(number) => write_numeric(*number, out),
        Value::Day(day) => write_day(*day, out),
        Value::Text(text) | Value::Pad(text) | Value::Opaque(text) => {
            out.append(text.as_str().as_bytes())
        }
        Value::Bytes(bytes) => write_bytea(alloc, bytes.as_slice(), out),
        _ => Ok(()),
    }
}

/// The bytes as a text.
fn text_in(alloc: Global, bytes: &[u8]) -> Result<Txt, Memory>
    requires { IsUtf8 bytes.now }
    ensures { IfOk result (λ text. text ≡ bytes.now) }
{
    let Ok(text) = str::from_utf8(bytes) else {
        unreachable!()
    };
    Txt::from_str(alloc, text)
}

fn text_of_numeric(alloc: Global, number: Dec) -> Result<Txt, Memory>
    ensures { IfOk result (λ text. text ≡ output (Value.Num number)) }
{
    let mut bytes = Byts::new(alloc);
    write_numeric(number, &mut bytes)?;
    text_in(alloc, bytes.as_slice())
}

#[tactic(auto, using(crate::proofs::Printed::day_utf8))]
fn text_of_day(alloc: Global, day: i32) -> Result<Txt, Memory>
    ensures { IfOk result (λ text. text ≡ output (Value.Day day)) }
{
    let mut bytes = Byts::new(alloc);
    write_day(day, &mut bytes)?;
    text_in(alloc, bytes.as_slice())
}

fn text_of_bytes(alloc: Global, bytes: &[u8]) -> Result<Txt, Memory>
    ensures { IfOk result (λ text. text ≡ output (Value.Bytes bytes.now)) }
{
    let mut text = Byts::new(alloc);
    write_bytea(alloc, bytes, &mut text)?;
    text_in(alloc, text.as_slice())
}

/// The text of a value that isn't null.
pub fn text_of(alloc: Global, v: &Value) -> Result<Txt, Memory>
    ensures { IfOk result (λ text. text ≡ output v.now) }
{
    match v {
        Value::Bool(truth) => Txt::from_str(alloc, output_bool(*truth)),
        Value::Int(number) => Txt::from_str(alloc, Buffer::new().format(*number)),
        Value::Num(number) => text_of_numeric(alloc, *number),
        Value::Day(day) => text_of_day(alloc, *day),
        Value::Text(text) | Value::Pad(text) | Value::Opaque(text) => {
            Txt::from_str(alloc, text.as_str())
        }
        Value::Bytes(bytes) => text_of_bytes(alloc, bytes.as_slice()),
        _ => Txt::from_str(alloc, ""),
    }
}

/// A law: bytes are below 256.
fn bytes_law(bytes: &[u8])
    ensures { IsBytes bytes.now }
{}

/// A law: what a value has of texts is UTF-8, and its bytes are below 256.
fn characters_law(v: &Value)
    ensures { IsChars v.now }
{
    match v {
        Value::Text(text) | Value::Pad(text) | Value::Opaque(text) => {
            text.as_str();
        }
        Value::Bytes(bytes) => bytes_law(bytes.as_slice()),
        _ => {}
    }
}

/// Adds the text of a value of the type.
#[tactic(auto, using(crate::proofs::Back::of_type))]
pub fn write_value(
    alloc: Global,
    c: &Catalog,
    t: TypeNo,
    v: &Value,
    out: &mut Byts,
) -> Result<(), Memory>
    requires ty { t.0 < length c.now.types }
    requires not_null { is_null v.now ≡ false }
    requires fits { is_of (shape_of c.now t) v.now ≡ true }
    ensures ok { OnOk result (out.new ≡ out.old ++ output v.now) }
    ensures err { OnErr result (out.new ≡ out.old) }
    ensures reads_back { ReadsBack (shape_of c.now t) v.now }
{
    characters_law(v);
    write_text(alloc, v, out)
}
