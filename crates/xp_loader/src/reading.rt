//! What a record says, if its types are there.
ghost use Rattle.std.specs.Prelude.{◌≡◌, IfOk, option_map, slice_index, true};
ghost use Rattle.std.specs.Str.{IsAscii};
ghost use Rattle.csv.specs.Records.{fields_of};
ghost use Rattle.xp_catalog.specs.Lookups.{operands};
ghost use Rattle.xp_loader.specs.Reading.{cast_record, cast_row, domain_record, function_of, function_record, function_row, operator_record, operator_row, plain_record, range_record, record_as};
ghost use Rattle.xp_loader.specs.Records.{field};
ghost use Rattle.xp_loader.specs.Refusing.{is_named};

use crate::form::{context_of, is_set, volatility_of};
use crate::names::{body_of, function_of, left_of, method_of, type_of, types_of};
use crate::text::field;
use csv::ByteRecord;
use sqlite_items::Items;
use std::alloc::Global;
use xp_base::{Byts, Memory, RowNo, TypeNo};
use xp_catalog::names::new_name;
use xp_catalog::{CastRow, Catalog, FuncRow, OperRow, Record, RecordKind};

fn first_byte(bytes: &[u8]) -> u8
    ensures { result ≡ slice_index bytes.now 0 }
{
    match bytes.first() {
        Some(first) => *first,
        None => 0,
    }
}

fn read_plain(alloc: Global, line: u32, row: &ByteRecord) -> Result<Option<Record>, Memory>
    requires { IsAscii (field (fields_of row.now) 1) }
    ensures { IfOk result (λ o. o ≡ plain_record line (fields_of row.now)) }
{
    Ok(Some(Record::Plain {
        name: new_name(alloc, field(row, 1))?,
        category: first_byte(field(row, 2)),
        preferred: is_set(field(row, 3)),
        line,
    }))
}

fn read_range(
    alloc: Global,
    c: &Catalog,
    line: u32,
    row: &ByteRecord,
) -> Result<Option<Record>, Memory>
    requires { IsAscii (field (fields_of row.now) 1) }
    ensures { IfOk result (λ o. o ≡ range_record c.now line (fields_of row.now)) }
{
    let Some(subtype) = type_of(c, field(row, 2)) else {
        return Ok(None);
    };
    Ok(Some(Record::Range {
        name: new_name(alloc, field(row, 1))?,
        subtype,
        line,
    }))
}

fn new_check(alloc: Global, text: &[u8]) -> Result<Byts, Memory>
    ensures { IfOk result (λ check. check ≡ text.now) }
{
    let mut check = Byts::new(alloc);
    check.append(text)?;
    Ok(check)
}

fn read_domain(
    alloc: Global,
    c: &Catalog,
    line: u32,
    row: &ByteRecord,
) -> Result<Option<Record>, Memory>
    requires { IsAscii (field (fields_of row.now) 1) }
    ensures { IfOk result (λ o. o ≡ domain_record c.now line (fields_of row.now)) }
{
    let Some(base) = type_of(c, field(row, 2)) else {
        return Ok(None);
    };
    Ok(Some(Record::Domain {
        name: new_name(alloc, field(row, 1))?,
        base,
        not_null: is_set(field(row, 3)),
        check: new_check(alloc, field(row, 4))?,
        line,
    }))
}

fn cast_row(c: &Catalog, line: u32, row: &ByteRecord, from: TypeNo, to: TypeNo) -> Record
    ensures { result ≡ cast_row c.now line (fields_of row.now) from to }
{
    Record::Cast(CastRow {
        from,
        to,
        context: context_of(field(row, 3)),
        method: method_of(c, field(row, 4), from),
        line,
    })
}

fn read_cast(c: &Catalog, line: u32, row: &ByteRecord) -> Option<Record>
    ensures { result ≡ cast_record c.now line (fields_of row.now) }
{
    match (type_of(c, field(row, 1)), type_of(c, field(row, 2))) {
        (Some(from), Some(to)) => Some(cast_row(c, line, row, from, to)),
        _ => None,
    }
}

fn function_row(
    alloc: Global,
    line: u32,
    row: &ByteRecord,
    args: Items<TypeNo>,
    gives: TypeNo,
) -> Result<Record, Memory>
    requires { IsAscii (field (fields_of row.now) 1) }
    ensures { IfOk result (λ r. r ≡ function_row line (fields_of row.now) args gives) }
{
    Ok(Record::Function(FuncRow {
        name: new_name(alloc, field(row, 1))?,
        args,
        variadic: is_set(field(row, 3)),
        result: gives,
        volatility: volatility_of(field(row, 5)),
        strict: is_set(field(row, 6)),
        body: body_of(field(row, 7)),
        line,
    }))
}

fn read_function(
    alloc: Global,
    c: &Catalog,
    line: u32,
    row: &ByteRecord,
) -> Result<Option<Record>, Memory>
    requires { IsAscii (field (fields_of row.now) 1) }
    ensures { IfOk result (λ o. o ≡ function_record c.now line (fields_of row.now)) }
{
    match (
        types_of(alloc, c, field(row, 2))?,
        type_of(c, field(row, 4)),
    ) {
        (Some(args), Some(gives)) => Ok(Some(function_row(alloc, line, row, args, gives)?)),
        _ => Ok(None),
    }
}

fn function_over(c: &Catalog, name: &[u8], left: Option<TypeNo>, right: TypeNo) -> RowNo
    ensures { result ≡ function_of c.now name.now (operands left right) }
{
    match left {
        Some(left) => function_of(c, name, &[left, right]),
        None => function_of(c, name, &[right]),
    }
}

fn operator_row(
    alloc: Global,
    c: &Catalog,
    line: u32,
    row: &ByteRecord,
    left: Option<TypeNo>,
    right: TypeNo,
) -> Result<Record, Memory>
    requires { IsAscii (field (fields_of row.now) 1) }
    ensures { IfOk result (λ r. r ≡ operator_row c.now line (fields_of row.now) left right) }
{
    Ok(Record::Operator(OperRow {
        name: new_name(alloc, field(row, 1))?,
        left,
        right,
        function: function_over(c, field(row, 4), left, right),
        line,
    }))
}

fn operator_over(
    alloc: Global,
    c: &Catalog,
    line: u32,
    row: &ByteRecord,
    left: Option<TypeNo>,
    right: Option<TypeNo>,
) -> Result<Option<Record>, Memory>
    requires { IsAscii (field (fields_of row.now) 1) }
    ensures { IfOk result (λ o. o ≡ option_map (operator_row c.now line (fields_of row.now) left) right) }
{
    match right {
        Some(right) => Ok(Some(operator_row(alloc, c, line, row, left, right)?)),
        None => Ok(None),
    }
}

fn read_operator(
    alloc: Global,
    c: &Catalog,
    line: u32,
    row: &ByteRecord,
) -> Result<Option<Record>, Memory>
    requires { IsAscii (field (fields_of row.now) 1) }
    ensures { IfOk result (λ o. o ≡ operator_record c.now line (fields_of row.now)) }
{
    match left_of(c, field(row, 2)) {
        Some(left) => operator_over(alloc, c, line, row, left, type_of(c, field(row, 3))),
        None => Ok(None),
    }
}

/// What the record of that line adds, if each type that it names is there.
pub fn read_as(
    alloc: Global,
    c: &Catalog,
    kind: RecordKind,
    line: u32,
    row: &ByteRecord,
) -> Result<Option<Record>, Memory>
    requires { is_named kind (fields_of row.now) ≡ true }
    ensures { IfOk result (λ o. o ≡ record_as kind c.now line (fields_of row.now)) }
{
    match kind {
        RecordKind::Plain => read_plain(alloc, line, row),
        RecordKind::Range => read_range(alloc, c, line, row),
        RecordKind::Domain => read_domain(alloc, c, line, row),
        RecordKind::Cast => Ok(read_cast(c, line, row)),
        RecordKind::Function => read_function(alloc, c, line, row),
        RecordKind::Operator => read_operator(alloc, c, line, row),
    }
}
