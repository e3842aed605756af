//! Loads the texts of a run.
ghost use Rattle.std.specs.Prelude.{◌≡◌, ◌≤◌, IfErr, IfOk, Some, length, option_map};
ghost use Rattle.xp_base.specs.Growth.{Rose};
ghost use Rattle.xp_base.specs.Outside.{text_at};
ghost use Rattle.xp_base.specs.declared.limits.TheConstants.{COLUMN_LIMIT};
ghost use Rattle.xp_bodies.specs.Fits.{IsFitted};
ghost use Rattle.xp_coerce.specs.Asked.{AreTruths};
ghost use Rattle.xp_named.specs.Columns.{AreColumns};
ghost use Rattle.xp_run.specs.Inputs.{catalog_of, inputs_in, no_columns, records_of, table_of, within};
ghost use Rattle.xp_run.specs.inner.Usable.{AreUsable};
ghost use Rattle.xp_run.specs.inner.Reading.{Reads, ReadsTable, ReadsText, ReadsTexts, table_in};

use crate::ending::Ending;
use sqlite_items::Items;
use std::alloc::Global;
use xp_analyse::{CheckFault, prepare};
use xp_base::{Byts, CATALOG_LIMIT, LoadFault, ROWS_LIMIT, SCRIPT_LIMIT, Shelf, Txt};
use xp_catalog::{CatFault, Catalog, Header, Why};
use xp_loader::load;
use xp_rows::{Rows, RowsFault, load_rows};
use xp_tree::Checks;

/// What a run works on.
#[derive(Drop)]
pub struct Inputs {
    pub catalog: Catalog,
    /// The checks of its domains.
    pub checks: Checks,
    pub script: Byts,
    pub header: Header,
    pub rows: Rows,
}

#[tactic(auto, using(crate::proofs::Texts::reads_whole, crate::proofs::Texts::reads_long, crate::proofs::Texts::reads_failed, crate::proofs::Texts::reads_memory))]
fn load_text<F: Shelf>(alloc: Global, name: &str, limit: u64, shelf: &mut F) -> Result<Byts, Ending>
    ensures answer { Reads (F.held shelf.old) (λ files. within limit (text_at files name.now)) (Rose (F.faults shelf.old) (F.faults shelf.new)) result }
    ensures text { ReadsText (F.held shelf.old) name.now (within limit) result }
    ensures short { IfOk result (λ text. length text ≤ limit) }
    ensures same { F.held shelf.new ≡ F.held shelf.old }
    ensures rises { F.faults shelf.old ≤ F.faults shelf.new }
{
    match shelf.load(alloc, name, limit) {
        Ok(text) => Ok(text),
        Err(LoadFault::Failed) => Err(Ending::ReadFault),
        Err(LoadFault::TooLong { read }) => Err(Ending::TooLong { read }),
        Err(LoadFault::Memory) => Err(Ending::Memory),
    }
}

#[tactic(auto, using(crate::proofs::Texts::text_stops, crate::proofs::Texts::text_then, crate::proofs::Texts::reads_memory))]
fn load_records<F: Shelf>(alloc: Global, name: &str, shelf: &mut F) -> Result<Catalog, Ending>
    ensures answer { Reads (F.held shelf.old) (λ files. records_of (text_at files name.now)) (Rose (F.faults shelf.old) (F.faults shelf.new)) result }
    ensures text { ReadsText (F.held shelf.old) name.now records_of result }
    ensures fitted { IfOk result IsFitted }
    ensures same { F.held shelf.new ≡ F.held shelf.old }
    ensures rises { F.faults shelf.old ≤ F.faults shelf.new }
{
    let text = match load_text(alloc, name, CATALOG_LIMIT, shelf) {
        Ok(text) => text,
        Err(end) => return Err(end),
    };
    match load(alloc, text.as_slice()) {
        Ok(catalog) => Ok(catalog),
        Err(CatFault::Row { line, why }) => Err(Ending::BadCatalog { line, why }),
        Err(CatFault::TooManyRows { line }) => Err(Ending::BadCatalog {
            line,
            why: Why::TooMany,
        }),
        Err(CatFault::Unread | CatFault::Memory) => Err(Ending::Memory),
    }
}

/// The catalogue, and the checks of its domains.
#[tactic(auto, using(crate::proofs::Texts::records_stop, crate::proofs::Texts::records_then, crate::proofs::Texts::reads_memory))]
fn load_catalog<F: Shelf>(
    alloc: Global,
    name: &str,
    shelf: &mut F,
) -> Result<(Catalog, Checks), Ending>
    ensures answer { Reads (F.held shelf.old) (λ files. catalog_of (text_at files name.now)) (Rose (F.faults shelf.old) (F.faults shelf.new)) result }
    ensures text { ReadsText (F.held shelf.old) name.now catalog_of result }
    ensures fitted { IfOk result (λ checked. IsFitted checked.0) }
    ensures truths { IfOk result (λ checked. AreTruths checked.1) }
    ensures same { F.held shelf.new ≡ F.held shelf.old }
    ensures rises { F.faults shelf.old ≤ F.faults shelf.new }
{
    let catalog = match load_records(alloc, name, shelf) {
        Ok(catalog) => catalog,
        Err(end) => return Err(end),
    };
    match prepare(alloc, &catalog) {
        Ok(checks) => Ok((catalog, checks)),
        Err(CheckFault::BadCheck { line }) => Err(Ending::BadCatalog {
            line,
            why: Why::BadCheck,
        }),
        Err(CheckFault::Memory) => Err(Ending::Memory),
    }
}

/// The columns and the one row of a run without a rows file.
fn no_columns(alloc: Global) -> Result<(Header, Rows), Ending>
    ensures value { IfOk result (λ table. table ≡ no_columns) }
    ensures memory { IfErr result (λ end. end ≡ Ending.Memory) }
{
    let mut rows = Items::new(alloc);
    match rows.push(Items::new(alloc)) {
        Ok(()) => Ok((Header::new(alloc), rows)),
        Err(_) => Err(Ending::Memory),
    }
}

#[tactic(auto, using(crate::proofs::Columns::header_few, crate::proofs::Texts::text_stops, crate::proofs::Texts::text_then, crate::proofs::Texts::reads_memory))]
fn load_named_rows<F: Shelf>(
    alloc: Global,
    catalog: &Catalog,
    name: &str,
    shelf: &mut F,
) -> Result<(Header, Rows), Ending>
    ensures answer { Reads (F.held shelf.old) (λ files. table_of catalog.now (Some name.now) (text_at files name.now)) (Rose (F.faults shelf.old) (F.faults shelf.new)) result }
    ensures text { ReadsText (F.held shelf.old) name.now (table_of catalog.now (Some name.now)) result }
    ensures columns { IfOk result (λ table. AreColumns catalog.now table.0) }
    ensures few { IfOk result (λ table. length table.0 ≤ COLUMN_LIMIT) }
    ensures same { F.held shelf.new ≡ F.held shelf.old }
    ensures rises { F.faults shelf.old ≤ F.faults shelf.new }
{
    let text = match load_text(alloc, name, ROWS_LIMIT, shelf) {
        Ok(text) => text,
        Err(end) => return Err(end),
    };
    match load_rows(alloc, catalog, text.as_slice()) {
        Ok(table) => Ok(table),
        Err(RowsFault::Unread | RowsFault::Memory) => Err(Ending::Memory),
        Err(fault) => Err(Ending::BadRows { fault }),
    }
}

/// The columns and the rows, of a rows file where one is named.
#[tactic(auto, using(crate::proofs::Texts::table_none, crate::proofs::Texts::table_memory, crate::proofs::Texts::table_some))]
fn load_table<F: Shelf>(
    alloc: Global,
    catalog: &Catalog,
    name: Option<&Txt>,
    shelf: &mut F,
) -> Result<(Header, Rows), Ending>
    ensures answer { Reads (F.held shelf.old) (λ files. table_in files catalog.now (option_map (λ name. name.now) name.entry)) (Rose (F.faults shelf.old) (F.faults shelf.new)) result }
    ensures text { ReadsTable (F.held shelf.old) catalog.now (option_map (λ name. name.now) name.entry) result }
    ensures columns { IfOk result (λ table. AreColumns catalog.now table.0) }
    ensures few { IfOk result (λ table. length table.0 ≤ COLUMN_LIMIT) }
    ensures same { F.held shelf.new ≡ F.held shelf.old }
    ensures rises { F.faults shelf.old ≤ F.faults shelf.new }
{
    match name {
        None => no_columns(alloc),
        Some(name) => load_named_rows(alloc, catalog, name.as_str(), shelf),
    }
}

/// Loads the catalogue with the checks of its domains, then the script, and then the rows.
#[tactic(auto, using(crate::proofs::Texts::texts_stop, crate::proofs::Texts::texts_script, crate::proofs::Texts::texts_table, crate::proofs::Texts::texts_whole))]
pub fn load_inputs<F: Shelf>(
    alloc: Global,
    catalog: &str,
    script: &str,
    rows: Option<&Txt>,
    shelf: &mut F,
) -> Result<Inputs, Ending>
    ensures answer { Reads (F.held shelf.old) (λ files. inputs_in files (record { catalog = catalog.now; script = script.now; rows = option_map (λ name. name.now) rows.entry })) (Rose (F.faults shelf.old) (F.faults shelf.new)) result }
    ensures texts { ReadsTexts (F.held shelf.old) (record { catalog = catalog.now; script = script.now; rows = option_map (λ name. name.now) rows.entry }) result }
    ensures usable { IfOk result AreUsable }
    ensures short { IfOk result (λ inputs. length inputs.script ≤ SCRIPT_LIMIT) }
    ensures same { F.held shelf.new ≡ F.held shelf.old }
    ensures rises { F.faults shelf.old ≤ F.faults shelf.new }
{
    let (catalog, checks) = match load_catalog(alloc, catalog, shelf) {
        Ok(checked) => checked,
        Err(end) => return Err(end),
    };
    let script = match load_text(alloc, script, SCRIPT_LIMIT, shelf) {
        Ok(script) => script,
        Err(end) => return Err(end),
    };
    match load_table(alloc, &catalog, rows, shelf) {
        Ok((header, rows)) => Ok(Inputs {
            catalog,
            checks,
            script,
            header,
            rows,
        }),
        Err(end) => Err(end),
    }
}
