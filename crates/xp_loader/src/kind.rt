//! The kinds of records.
ghost use Rattle.std.specs.Prelude.{◌≡◌};
ghost use Rattle.xp_loader.specs.Reading.{kind_of};
ghost use Rattle.xp_loader.specs.Refusing.{field_count};

use xp_catalog::RecordKind;

pub fn kind_of(word: &[u8]) -> Option<RecordKind>
    ensures { result ≡ kind_of word.now }
{
    if word == b"type".as_slice() {
        Some(RecordKind::Plain)
    } else if word == b"range".as_slice() {
        Some(RecordKind::Range)
    } else if word == b"domain".as_slice() {
        Some(RecordKind::Domain)
    } else if word == b"cast".as_slice() {
        Some(RecordKind::Cast)
    } else if word == b"function".as_slice() {
        Some(RecordKind::Function)
    } else if word == b"operator".as_slice() {
        Some(RecordKind::Operator)
    } else {
        None
    }
}

/// The number of fields of a record, the kind's own counted.
pub fn field_count(kind: RecordKind) -> usize
    ensures { result ≡ field_count kind }
{
    match kind {
        RecordKind::Plain => 4,
        RecordKind::Range => 3,
        RecordKind::Domain | RecordKind::Cast | RecordKind::Operator => 5,
        RecordKind::Function => 8,
    }
}
