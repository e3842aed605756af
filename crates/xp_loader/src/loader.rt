//! The loader.
ghost use Rattle.std.specs.Prelude.{◌≡◌, ◌+◌, ◌-◌, ◌^◌, ◌<◌, ◌≤◌, IfOk, length, map};
ghost use Rattle.csv.specs.Records.{fields_of};
ghost use Rattle.xp_base.specs.declared.limits.TheConstants.{RECORD_LIMIT};
ghost use Rattle.xp_bodies.specs.Fits.{IsFitted};
ghost use Rattle.xp_catalog.specs.Contents.{first_contents};
ghost use Rattle.xp_loader.specs.Loading.{IsLoaded, Loads, accepted, load_catalog, load_from};

use crate::record::{Refusal, read};
use crate::text::{ReadFault, rows_in};
use csv::ByteRecord;
use std::alloc::Global;
use xp_base::RECORD_LIMIT;
use xp_catalog::{CatFault, Catalog};

/// The catalogue with what the record of that line adds behind it.
fn accept(alloc: Global, c: Catalog, line: u32, row: &ByteRecord) -> Result<Catalog, CatFault>
    requires line { 0 < line }
    requires loaded { IsLoaded (line - 1) c }
    ensures answer { Loads (accepted c line (fields_of row.now)) result }
    ensures loaded { IfOk result (IsLoaded line) }
    ensures within { IfOk result (λ _. line ≤ RECORD_LIMIT) }
{
    if line > RECORD_LIMIT {
        return Err(CatFault::TooManyRows { line });
    }
    match read(alloc, &c, line, row) {
        Ok(record) => Ok(c.add(record)?),
        Err(Refusal::Broken(why)) => Err(CatFault::Row { line, why }),
        Err(Refusal::Memory) => Err(CatFault::Memory),
    }
}

/// Accepts the records one after another, up to the first that isn't accepted.
fn accept_all(alloc: Global, rows: &[ByteRecord]) -> Result<Catalog, CatFault>
    ensures answer { Loads (load_from first_contents 1 (map fields_of rows.now)) result }
    ensures fitted { IfOk result IsFitted }
{
    let mut catalog = Catalog::empty(alloc)?;
    for (k, row) in rows.iter().enumerate() {
        catalog = accept(alloc, catalog, k as u32 + 1, row)?;
    }
    Ok(catalog)
}

/// The catalogue of a text: its records without a header, one after another, up to the first that
/// breaks a rule. Checks of domains are kept as they stand.
pub fn load(alloc: Global, text: &[u8]) -> Result<Catalog, CatFault>
    requires { length text.now < 2 ^ 32 }
    ensures answer { Loads (load_catalog text.now) result }
    ensures fitted { IfOk result IsFitted }
{
    match rows_in(alloc, text) {
        Ok(rows) => accept_all(alloc, &rows),
        Err(ReadFault::Unread) => Err(CatFault::Unread),
        Err(ReadFault::Memory) => Err(CatFault::Memory),
    }
}
