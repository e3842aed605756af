//! The fields of output rows.
ghost use Rattle.std.specs.Prelude.{◌≡◌, ◌++◌, ◌∷◌, [], IfOk, OnOk, map};
ghost use Rattle.csv.specs.Records.{fields_of, partial_of};
ghost use Rattle.xp_io.specs.Forms.{output};
ghost use Rattle.xp_rows.specs.Fields.{begins_with_two};
ghost use Rattle.xp_run.specs.Fields.{escaped, field_of, needs_backslash};

use csv::ByteRecord;
use itoa::Buffer;
use std::alloc::Global;
use xp_base::{Byts, Memory};
use xp_io::write_text;
use xp_value::Value;

fn begins_with_two(text: &[u8]) -> bool
    ensures { result ≡ begins_with_two text.now }
{
    text.len() >= 2 && text[0] == b'\\' && text[1] == b'\\'
}

/// Whether the text would be read as null, or would lose a backslash.
fn needs_backslash(text: &[u8]) -> bool
    ensures { result ≡ needs_backslash text.now }
{
    text == b"\\N".as_slice() || begins_with_two(text)
}

/// Adds the field of a text to a record.
fn push_text(alloc: Global, text: &[u8], row: &mut ByteRecord) -> Result<(), Memory>
    requires { partial_of row.old ≡ [] }
    ensures fields { OnOk result (fields_of row.new ≡ fields_of row.old ++ escaped text.now ∷ []) }
    ensures partial { OnOk result (partial_of row.new ≡ []) }
{
    if !needs_backslash(text) {
        return Ok(row.push_field(text)?);
    }
    let mut field = Byts::new(alloc);
    field.append(b"\\")?;
    field.append(text)?;
    Ok(row.push_field(field.as_slice())?)
}

/// Adds the field of a value to a record. A whole number's digits take no memory of their own.
fn push_value(alloc: Global, value: &Value, row: &mut ByteRecord) -> Result<(), Memory>
    requires { partial_of row.old ≡ [] }
    ensures fields { OnOk result (fields_of row.new ≡ fields_of row.old ++ field_of value.now ∷ []) }
    ensures partial { OnOk result (partial_of row.new ≡ []) }
{
    match value {
        Value::Null => Ok(row.push_field(b"\\N")?),
        Value::Int(number) => push_text(alloc, Buffer::new().format(*number).as_bytes(), row),
        _ => {
            let mut text = Byts::new(alloc);
            write_text(alloc, value, &mut text)?;
            push_text(alloc, text.as_slice(), row)
        }
    }
}

/// Makes the record that of a row.
pub fn set_fields(alloc: Global, values: &[Value], row: &mut ByteRecord) -> Result<(), Memory>
    ensures { OnOk result (fields_of row.new ≡ map field_of values.now) }
{
    row.clear();
    for value in values {
        push_value(alloc, value, row)?;
    }
    Ok(())
}
