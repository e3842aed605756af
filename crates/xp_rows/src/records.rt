//! The records of a text, one after another.
ghost use Rattle.std.specs.Prelude.{◌≡◌, ◌^◌, IfErr, IfOk, [], slice_index_or, true};
ghost use Rattle.csv.specs.Reading.{error_kind, stops_reader};
ghost use Rattle.csv.specs.Records.{fields_of};
ghost use Rattle.xp_rows.specs.Faults.{is_outside};
ghost use Rattle.xp_rows.specs.Records.{field, records_of};
ghost use Rattle.xp_rows.specs.inner.Reader.{IsOver, TakesNext, read_fault, records_left};

use crate::fault::RowsFault;
use csv::{ByteRecord, ErrorKind, Reader, ReaderBuilder};
use std::alloc::Global;

/// What a fault of `csv` is, which isn't one of a record: those may have any length.
fn read_fault(error: &csv::Error) -> RowsFault
    requires { stops_reader (error_kind error.now) ≡ true }
    ensures { result ≡ read_fault (error_kind error.now) }
{
    match error.kind() {
        ErrorKind::OutOfMemory => RowsFault::Memory,
        _ => RowsFault::Unread,
    }
}

/// A reader of the records of the text, the first among them, whatever their lengths.
pub fn records_in(alloc: Global, text: &[u8]) -> Reader<&[u8]>
    ensures over { IsOver result }
    ensures all { records_left (2 ^ 64) result ≡ records_of text.now }
{
    ReaderBuilder::new()
        .has_headers(false)
        .flexible(true)
        .from_reader(alloc, text)
}

/// Reads the next record, if there is one.
pub fn read_next(reader: &mut Reader<&[u8]>, fields: &mut ByteRecord) -> Result<bool, RowsFault>
    requires { IsOver reader.old }
    ensures records { IfOk result (TakesNext reader.old reader.new (fields_of fields.new)) }
    ensures outside { IfErr result (λ fault. is_outside fault ≡ true) }
{
    match reader.read_byte_record(fields) {
        Ok(found) => Ok(found),
        Err(error) => Err(read_fault(&error)),
    }
}

/// The field at a place, which is empty where there is none.
pub fn field(fields: &ByteRecord, place: usize) -> &[u8]
    ensures { result.now ≡ field (fields_of fields.now) place }
{
    match fields.get(place) {
        Some(bytes) => bytes,
        None => &[],
    }
}
