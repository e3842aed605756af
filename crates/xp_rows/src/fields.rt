//! The values of a row.
ghost use Rattle.std.specs.Prelude.{◌≡◌, ◌<◌, ◌≤◌, IfOk, length, true};
ghost use Rattle.std.specs.List.{All};
ghost use Rattle.csv.specs.Records.{fields_of};
ghost use Rattle.xp_named.specs.Columns.{AreColumns};
ghost use Rattle.xp_io.specs.Forms.{Reads};
ghost use Rattle.xp_io.specs.Representations.{shape_of};
ghost use Rattle.xp_rows.specs.Fields.{placed, row_values, unescaped, value_of};
ghost use Rattle.xp_rows.specs.Fits.{fits};
ghost use Rattle.xp_rows.specs.Faults.{Loads};
ghost use Rattle.xp_value.specs.Representation.{is_of};

use crate::fault::RowsFault;
use crate::records::field;
use csv::ByteRecord;
use sqlite_items::Items;
use std::alloc::Global;
use xp_base::TypeNo;
use xp_catalog::{Catalog, HeaderColumn};
use xp_io::{InFault, read_value};
use xp_value::{Row, Value};

/// The text without one of two backslashes at its front.
fn unescaped(text: &[u8]) -> &[u8]
    ensures { result.now ≡ unescaped text.now }
{
    if text.len() >= 2 && text[0] == b'\\' && text[1] == b'\\' {
        &text[1..]
    } else {
        text
    }
}

/// The value of the type that the field is.
fn read_field(alloc: Global, c: &Catalog, ty: TypeNo, text: &[u8]) -> Result<Value, InFault>
    requires { ty.0 < length c.now.types }
    ensures value { Reads (value_of c.now ty text.now) result }
    ensures fits { IfOk result (λ v. is_of (shape_of c.now ty) v ≡ true) }
{
    if text == b"\\N".as_slice() {
        return Ok(Value::Null);
    }
    read_value(alloc, c, ty, unescaped(text))
}

/// The value of the type that the field of that row and column is.
fn read_value_at(
    alloc: Global,
    c: &Catalog,
    ty: TypeNo,
    text: &[u8],
    row: u32,
    column: u32,
) -> Result<Value, RowsFault>
    requires { ty.0 < length c.now.types }
    ensures value { Loads (placed row column (value_of c.now ty text.now)) result }
    ensures fits { IfOk result (λ v. is_of (shape_of c.now ty) v ≡ true) }
{
    match read_field(alloc, c, ty, text) {
        Ok(value) => Ok(value),
        Err(InFault::Bad(error)) => Err(RowsFault::Field { row, column, error }),
        Err(InFault::Memory) => Err(RowsFault::Memory),
    }
}

/// The values of the row of that number, which is as wide as the header.
pub fn read_row(
    alloc: Global,
    c: &Catalog,
    header: &[HeaderColumn],
    row: u32,
    fields: &ByteRecord,
) -> Result<Row, RowsFault>
    requires columns { AreColumns c.now header.now }
    requires few { length header.now ≤ 200 }
    ensures values { Loads (row_values c.now header.now row (fields_of fields.now)) result }
    ensures fits { IfOk result (λ values. fits c.now header.now values ≡ true) }
{
    if fields.len() != header.len() {
        return Err(RowsFault::Width { row });
    }
    let mut values = Vec::with_capacity(alloc, header.len())?;
    for (place, column) in header.iter().enumerate() {
        let text = field(fields, place);
        let value = read_value_at(alloc, c, column.ty, text, row, place as u32 + 1)?;
        values.push(value)?;
    }
    Ok(Items::from_vec(values))
}
