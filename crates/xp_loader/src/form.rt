//! The rules that look at a record's fields alone.
ghost use Rattle.std.specs.Prelude.{◌≡◌};
ghost use Rattle.csv.specs.Records.{fields_of};
ghost use Rattle.xp_catalog.specs.Rules.{is_category};
ghost use Rattle.xp_loader.specs.Reading.{context_of, is_set, volatility_of};
ghost use Rattle.xp_loader.specs.Refusing.{has_category, has_context, has_fields, has_flags, is_body, is_context, is_named, is_volatility, names_body};

use crate::kind::field_count;
use crate::names::body_of;
use crate::text::field;
use csv::ByteRecord;
use xp_base::is_operator_name;
use xp_catalog::names::{is_flag, is_letter_of, is_name, is_type_name};
use xp_catalog::{Context, RecordKind, Volatility};

pub fn has_fields(kind: RecordKind, row: &ByteRecord) -> bool
    ensures { result ≡ has_fields kind (fields_of row.now) }
{
    row.len() == field_count(kind)
}

/// Whether the record's own name is spelled as one.
pub fn is_named(kind: RecordKind, row: &ByteRecord) -> bool
    ensures { result ≡ is_named kind (fields_of row.now) }
{
    let name = field(row, 1);
    match kind {
        RecordKind::Plain | RecordKind::Range | RecordKind::Domain => is_type_name(name),
        RecordKind::Cast => true,
        RecordKind::Function => is_name(name),
        RecordKind::Operator => is_operator_name(name),
    }
}

fn is_volatility(word: &[u8]) -> bool
    ensures { result ≡ is_volatility word.now }
{
    word == b"immutable".as_slice()
        || word == b"stable".as_slice()
        || word == b"volatile".as_slice()
}

pub fn has_flags(kind: RecordKind, row: &ByteRecord) -> bool
    ensures { result ≡ has_flags kind (fields_of row.now) }
{
    match kind {
        RecordKind::Plain | RecordKind::Domain => is_flag(field(row, 3)),
        RecordKind::Function => {
            is_flag(field(row, 3)) && is_volatility(field(row, 5)) && is_flag(field(row, 6))
        }
        RecordKind::Range | RecordKind::Cast | RecordKind::Operator => true,
    }
}

fn is_category(name: &[u8], letters: &[u8]) -> bool
    ensures { result ≡ is_category RecordKind.Plain name.now letters.now }
{
    letters.len() == 1 && is_letter_of(name, letters[0])
}

pub fn has_category(kind: RecordKind, row: &ByteRecord) -> bool
    ensures { result ≡ has_category kind (fields_of row.now) }
{
    kind != RecordKind::Plain || is_category(field(row, 1), field(row, 2))
}

fn is_context(word: &[u8]) -> bool
    ensures { result ≡ is_context word.now }
{
    word == b"implicit".as_slice()
        || word == b"assignment".as_slice()
        || word == b"explicit".as_slice()
}

pub fn has_context(kind: RecordKind, row: &ByteRecord) -> bool
    ensures { result ≡ has_context kind (fields_of row.now) }
{
    kind != RecordKind::Cast || is_context(field(row, 3))
}

fn is_body(word: &[u8]) -> bool
    ensures { result ≡ is_body word.now }
{
    word == b"none".as_slice() || body_of(word).is_some()
}

pub fn names_body(kind: RecordKind, row: &ByteRecord) -> bool
    ensures { result ≡ names_body kind (fields_of row.now) }
{
    kind != RecordKind::Function || is_body(field(row, 7))
}

pub fn is_set(flag: &[u8]) -> bool
    ensures { result ≡ is_set flag.now }
{
    flag == b"t".as_slice()
}

pub fn volatility_of(word: &[u8]) -> Volatility
    ensures { result ≡ volatility_of word.now }
{
    if word == b"immutable".as_slice() {
        Volatility::Immutable
    } else if word == b"stable".as_slice() {
        Volatility::Stable
    } else {
        Volatility::Volatile
    }
}

pub fn context_of(word: &[u8]) -> Context
    ensures { result ≡ context_of word.now }
{
    if word == b"implicit".as_slice() {
        Context::Implicit
    } else if word == b"assignment".as_slice() {
        Context::Assignment
    } else {
        Context::Explicit
    }
}
