//! Rows files.
ghost use Rattle.std.specs.Prelude.{◌≡◌, ◌-◌, ◌^◌, ◌≤◌, IfOk, length, true};
ghost use Rattle.std.specs.List.{All};
ghost use Rattle.xp_named.specs.Columns.{AreColumns};
ghost use Rattle.xp_rows.specs.Faults.{Loads};
ghost use Rattle.xp_rows.specs.Fits.{AreRows, fits};
ghost use Rattle.xp_rows.specs.Loading.{load_rows, rows_from};
ghost use Rattle.xp_rows.specs.inner.Reader.{IsOver, records_left};

use crate::fault::RowsFault;
use crate::fields::read_row;
use crate::header::read_header;
use crate::records::{read_next, records_in};
use csv::{ByteRecord, Reader};
use sqlite_items::Items;
use std::alloc::Global;
use xp_base::ROW_LIMIT;
use xp_catalog::{Catalog, Header, HeaderColumn};
use xp_value::Row;

/// Rows in order.
pub type Rows = Items<Row>;

/// The rows of the records that are left.
fn read_rows(
    alloc: Global,
    c: &Catalog,
    header: &[HeaderColumn],
    reader: &mut Reader<&[u8]>,
    fields: &mut ByteRecord,
) -> Result<Rows, RowsFault>
    requires columns { AreColumns c.now header.now }
    requires few { length header.now ≤ 200 }
    requires over { IsOver reader.old }
    ensures rows { Loads (rows_from c.now header.now 1 (records_left (2 ^ 64 - 1) reader.old)) result }
    ensures fit { IfOk result (λ rows. All (λ row. fits c.now header.now row ≡ true) rows) }
{
    let mut rows = Items::new(alloc);
    for done in 0..ROW_LIMIT {
        if !read_next(reader, fields)? {
            return Ok(rows);
        }
        rows.push(read_row(alloc, c, header, done + 1, fields)?)?;
    }
    if read_next(reader, fields)? {
        Err(RowsFault::TooMany { row: ROW_LIMIT + 1 })
    } else {
        Ok(rows)
    }
}

/// The header and the rows of a text, or its first fault: in the header from left to right, then from
/// row to row. Every field is read as a text of its column's type; a domain's check isn't run.
pub fn load_rows(alloc: Global, c: &Catalog, text: &[u8]) -> Result<(Header, Rows), RowsFault>
    ensures answer { Loads (load_rows c.now text.now) result }
    ensures fit { IfOk result (λ loaded. AreRows c.now loaded.0 loaded.1) }
{
    let mut reader = records_in(alloc, text);
    let mut fields = ByteRecord::new(alloc);
    if !read_next(&mut reader, &mut fields)? {
        return Ok((Header::new(alloc), Items::new(alloc)));
    }
    let header = read_header(alloc, c, &fields)?;
    let rows = read_rows(alloc, c, header.columns(), &mut reader, &mut fields)?;
    Ok((header, rows))
}
