//! The header of a rows file.
ghost use Rattle.std.specs.Prelude.{◌≡◌, ◌<◌, ◌≤◌, IfOk, IfSome, None, Some, cond, length, option_map, true};
ghost use Rattle.std.specs.Char.{is_ascii};
ghost use Rattle.std.specs.List.{after_first, before_first, list_all, position};
ghost use Rattle.csv.specs.Records.{fields_of};
ghost use Rattle.xp_catalog.specs.Headers.{column_named};
ghost use Rattle.xp_named.specs.Columns.{AreColumns, IsColumn};
ghost use Rattle.xp_named.specs.Names.{is_value_type};
ghost use Rattle.xp_rows.specs.Headers.{column_of, header_of, is_space, named, type_named};
ghost use Rattle.xp_rows.specs.Faults.{Loads};

use crate::fault::RowsFault;
use crate::records::field;
use csv::ByteRecord;
use std::alloc::Global;
use std::str;
use xp_base::{COLUMN_LIMIT, Memory, TypeNo};
use xp_catalog::names::{is_name, new_name};
use xp_catalog::{Catalog, Header, HeaderColumn, Why};
use xp_named::header_type;

fn first_space(text: &[u8]) -> Option<usize>
    ensures value { result ≡ position is_space text.now }
    ensures within { IfSome result (λ place. place < length text.now) }
{
    text.iter().position(|b| *b == b' ')
}

/// What stands before and behind the first space. Without a space nothing stands behind.
fn parts(text: &[u8]) -> (&[u8], &[u8])
    ensures before { result.0.now ≡ before_first is_space text.now }
    ensures behind { result.1.now ≡ after_first is_space text.now }
{
    match first_space(text) {
        Some(place) => (&text[..place], &text[place + 1..]),
        None => (text, &[]),
    }
}

fn is_ascii(bytes: &[u8]) -> bool
    ensures { result ≡ list_all is_ascii bytes.now }
{
    bytes.iter().all(|b| *b < 128)
}

/// The bytes as a text, if they are ASCII.
fn ascii(bytes: &[u8]) -> Option<&str>
    ensures { option_map (λ text. text.now) result ≡ cond (list_all is_ascii bytes.now) (Some bytes.now) None }
{
    if !is_ascii(bytes) {
        return None;
    }
    match str::from_utf8(bytes) {
        Ok(text) => Some(text),
        Err(_) => None,
    }
}

/// The type that the bytes name in a header.
fn type_named(c: &Catalog, name: &[u8]) -> Option<TypeNo>
    ensures value { result ≡ type_named c.now name.now }
    ensures within { IfSome result (λ type. type.0 < length c.now.types) }
    ensures valued { IfSome result (λ type. is_value_type c.now type ≡ true) }
{
    header_type(c, ascii(name)?)
}

/// The column behind those before it, of which it is one more.
fn read_column(
    alloc: Global,
    c: &Catalog,
    before: &Header,
    place: u32,
    text: &[u8],
) -> Result<HeaderColumn, RowsFault>
    ensures value { Loads (named place (column_of c.now before.now text.now)) result }
    ensures column { IfOk result (IsColumn c.now) }
    ensures new { IfOk result (λ column. column_named before.now column.name ≡ None) }
    ensures few { IfOk result (λ _. length before.now < 200) }
{
    let (name, type_name) = parts(text);
    if !is_name(name) {
        return Err(RowsFault::Header {
            column: place,
            why: Why::BadName,
        });
    }
    let Some(ty) = type_named(c, type_name) else {
        return Err(RowsFault::Header {
            column: place,
            why: Why::UnknownType,
        });
    };
    let column = HeaderColumn {
        name: new_name(alloc, name)?,
        ty,
    };
    if before.column_named(column.name.as_str()).is_some() {
        return Err(RowsFault::Header {
            column: place,
            why: Why::Duplicate,
        });
    }
    if before.columns().len() >= COLUMN_LIMIT as usize {
        return Err(RowsFault::Header {
            column: place,
            why: Why::TooMany,
        });
    }
    Ok(column)
}

/// The columns that the fields name, from left to right.
pub fn read_header(alloc: Global, c: &Catalog, fields: &ByteRecord) -> Result<Header, RowsFault>
    ensures columns { Loads (header_of c.now (fields_of fields.now)) result }
    ensures usable { IfOk result (AreColumns c.now) }
    ensures few { IfOk result (λ header. length header ≤ 200) }
{
    let mut header = Header::new(alloc);
    for place in 0..fields.len() {
        let column = read_column(alloc, c, &header, place as u32 + 1, field(fields, place))?;
        header.push(column)?;
    }
    Ok(header)
}
