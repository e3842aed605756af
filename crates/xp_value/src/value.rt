//! Values.
use sqlite_items::Items;
use xp_base::{Byts, Dec, Txt};

/// The elements of an array.
pub type Array = Items<Value>;

/// The values of a row.
pub type Row = Items<Value>;

/// The first day of the year 1, in days since 1970-01-01.
pub const FIRST_DAY: i32 = -719_162;

/// The last day of the year 9999, in days since 1970-01-01.
pub const LAST_DAY: i32 = 2_932_896;

/// How a type's values are kept: the first three with `Int` in an `Int` of that type's range, and
/// the three with `Range` in a `Rng` over that subtype.
#[derive(Clone, Copy, Debug, PartialEq, Eq)]
pub enum Rep {
    Bool,
    Int2,
    Int4,
    Int8,
    Num,
    Text,
    Pad,
    Bytes,
    Day,
    Arr,
    Int4Range,
    Int8Range,
    DateRange,
    Opaque,
}

/// The type of a range's bounds.
#[derive(Clone, Copy, Debug, PartialEq, Eq)]
pub enum RangeKind {
    Int4,
    Int8,
    Day,
}

/// A range of whole numbers or days.
#[derive(Clone, Copy, Debug, PartialEq, Eq)]
pub enum Range {
    Empty {
        kind: RangeKind,
    },
    Bounds {
        lower: Option<i64>,
        upper: Option<i64>,
        kind: RangeKind,
    },
}

/// A value, which may be null whatever its type (manual chapter 8).
#[derive(Debug, Drop)]
pub enum Value {
    Null,
    Bool(bool),
    /// An int2, int4 or int8.
    Int(i64),
    /// A numeric.
    Num(Dec),
    /// A text or varchar.
    Text(Txt),
    /// A bpchar, with its padding.
    Pad(Txt),
    /// A bytea.
    Bytes(Byts),
    /// A date, in days since 1970-01-01.
    Day(i32),
    Arr(Array),
    Rng(Range),
    /// The text of a value whose type isn't evaluated.
    Opaque(Txt),
}
