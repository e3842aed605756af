//! The records of a text.
ghost use Rattle.std.specs.Prelude.{◌≡◌, IfOk, map, slice_index_or, true, []};
ghost use Rattle.csv.specs.Reading.{AreRecords, default_config, error_kind, stops_reader, strip_bom};
ghost use Rattle.csv.specs.Records.{fields_of};
ghost use Rattle.csv.specs.declared.parser.State.TheVariants as st;
ghost use Rattle.xp_loader.specs.Records.{field, read_fault, records_of};

use csv::{ByteRecord, ErrorKind, ReaderBuilder};
use std::alloc::{AllocFailed, Global};

/// Why a text was not read to its end. No text makes it so.
#[derive(Clone, Copy, Debug, PartialEq, Eq)]
pub enum ReadFault {
    /// The reader of its bytes failed.
    Unread,
    Memory,
}

impl<T: Drop> From<AllocFailed<T>> for ReadFault {
    fn from(_: AllocFailed<T>) -> ReadFault {
        ReadFault::Memory
    }
}

/// What a fault of `csv` is, which isn't one of a record: those may have any length.
fn read_fault(error: &csv::Error) -> ReadFault
    requires { stops_reader (error_kind error.now) ≡ true }
    ensures { result ≡ read_fault (error_kind error.now) }
{
    match error.kind() {
        ErrorKind::OutOfMemory => ReadFault::Memory,
        _ => ReadFault::Unread,
    }
}

/// Every record of a text that has no header row, whatever their lengths.
fn all_rows(alloc: Global, text: &[u8]) -> Result<Vec<ByteRecord>, ReadFault>
    ensures { IfOk result (λ v. AreRecords default_config st.StartRecord (strip_bom text.now) (map fields_of v.items)) }
{
    let rdr = ReaderBuilder::new()
        .has_headers(false)
        .flexible(true)
        .from_reader(alloc, text);
    let mut rows = Vec::new(alloc);
    for row in rdr.into_byte_records() {
        match row {
            Ok(row) => rows.push(row)?,
            Err(error) => return Err(read_fault(&error)),
        }
    }
    Ok(rows)
}

/// The same, as a function of the text.
pub fn rows_in(alloc: Global, text: &[u8]) -> Result<Vec<ByteRecord>, ReadFault>
    ensures { IfOk result (λ v. map fields_of v.items ≡ records_of text.now) }
{
    match all_rows(alloc, text) {
        Ok(rows) => Ok(rows),
        Err(fault) => Err(fault),
    }
}

/// The field at a place, which is empty where there is none.
pub fn field(row: &ByteRecord, place: usize) -> &[u8]
    ensures { result.now ≡ field (fields_of row.now) place }
{
    match row.get(place) {
        Some(bytes) => bytes,
        None => &[],
    }
}
