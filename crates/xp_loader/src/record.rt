//! A record, read and judged.
ghost use Rattle.std.specs.Prelude.{◌≡◌, ℕ, None, Some, true};
ghost use Rattle.csv.specs.Records.{fields_of};
ghost use Rattle.xp_catalog.specs.Contents.{Contents};
ghost use Rattle.xp_catalog.specs.Rules.{has_known_types};
ghost use Rattle.xp_catalog.specs.WellFormed.{HasRoom};
ghost use Rattle.xp_loader.specs.Reading.{kind_of, record_of};
ghost use Rattle.xp_loader.specs.Records.{field};
ghost use Rattle.xp_loader.specs.Refusing.{Reads, first_broken, form_rules, is_named, judged, row_rules, rules};

use crate::form::{has_category, has_context, has_fields, has_flags, is_named, names_body};
use crate::kind::kind_of;
use crate::reading::read_as;
use crate::rules::{fits_body, has_function, has_good_args, has_good_base, is_new};
use crate::text::field;
use csv::ByteRecord;
use std::alloc::Global;
use xp_base::Memory;
use xp_catalog::{Catalog, Record, RecordKind, Why};

/// Why there is no record: a rule is broken, or there was no memory.
#[derive(Clone, Copy, Debug, PartialEq, Eq)]
pub enum Refusal {
    Broken(Why),
    Memory,
}

impl From<Memory> for Refusal {
    ghost use Rattle.xp_loader.specs.declared.record.Refusal.TheVariants as refusal;

    ghost from_gives = { λ _ e. e ≡ refusal.Memory };

    fn from(_: Memory) -> Refusal {
        Refusal::Memory
    }
}

/// The first rule that the fields break by themselves.
fn broken_form(kind: RecordKind, row: &ByteRecord) -> Option<Why>
    requires { kind_of (field (fields_of row.now) 0) ≡ Some kind }
    ensures { (c : Contents) (line : ℕ) → result ≡ first_broken form_rules c line (fields_of row.now) }
{
    if !has_fields(kind, row) {
        return Some(Why::FieldCount);
    }
    if !is_named(kind, row) {
        return Some(Why::BadName);
    }
    if !has_flags(kind, row) {
        return Some(Why::BadFlag);
    }
    if !has_category(kind, row) {
        return Some(Why::BadCategory);
    }
    if !has_context(kind, row) {
        return Some(Why::BadContext);
    }
    None
}

/// The first rule that the record breaks against the rows before it.
fn broken_row(c: &Catalog, kind: RecordKind, row: &ByteRecord, r: &Record) -> Option<Why>
    requires kind { kind_of (field (fields_of row.now) 0) ≡ Some kind }
    requires known { has_known_types c.now r.now ≡ true }
    ensures { (line : ℕ) → record_of c.now line (fields_of row.now) ≡ Some r.now → result ≡ first_broken row_rules c.now line (fields_of row.now) }
{
    if !is_new(c, r) {
        return Some(Why::Duplicate);
    }
    if !has_good_base(c, r) {
        return Some(Why::BadBase);
    }
    if !has_good_args(c, r) {
        return Some(Why::BadArgs);
    }
    if !names_body(kind, row) {
        return Some(Why::UnknownBody);
    }
    if !has_function(c, r) {
        return Some(Why::UnknownFunction);
    }
    if !fits_body(c, r) {
        return Some(Why::BodyMismatch);
    }
    None
}

/// What the record of that line adds, its own name being spelled as one, or the first rule that it
/// breaks against the rows before it.
fn read_row(
    alloc: Global,
    c: &Catalog,
    kind: RecordKind,
    line: u32,
    row: &ByteRecord,
) -> Result<Record, Refusal>
    requires room { HasRoom c.now }
    requires kind { kind_of (field (fields_of row.now) 0) ≡ Some kind }
    requires named { is_named kind (fields_of row.now) ≡ true }
    ensures { Reads (judged (first_broken row_rules c.now line (fields_of row.now)) (record_of c.now line (fields_of row.now))) result }
{
    let Some(record) = read_as(alloc, c, kind, line, row)? else {
        return Err(Refusal::Broken(Why::UnknownType));
    };
    match broken_row(c, kind, row, &record) {
        Some(why) => Err(Refusal::Broken(why)),
        None => Ok(record),
    }
}

/// What the record of that line adds behind the rows of the catalogue, or the first rule that it breaks.
pub fn read(alloc: Global, c: &Catalog, line: u32, row: &ByteRecord) -> Result<Record, Refusal>
    requires { HasRoom c.now }
    ensures { Reads (judged (first_broken rules c.now line (fields_of row.now)) (record_of c.now line (fields_of row.now))) result }
{
    let Some(kind) = kind_of(field(row, 0)) else {
        return Err(Refusal::Broken(Why::BadKind));
    };
    match broken_form(kind, row) {
        Some(why) => Err(Refusal::Broken(why)),
        None => read_row(alloc, c, kind, line, row),
    }
}
