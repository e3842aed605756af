//! What one record of a catalogue adds.

use crate::{CastRow, FuncRow, OperRow};
use xp_base::{Byts, Name, TypeNo};

/// What a record gives. `Plain` is a type that is plain or a pseudo-type.
#[derive(Clone, Copy, Debug, PartialEq, Eq)]
pub enum RecordKind {
    Plain,
    Range,
    Domain,
    Cast,
    Function,
    Operator,
}

/// A record, with its line. Types and functions go by the numbers that the records before gave them.
#[derive(Debug, Drop)]
pub enum Record {
    /// A plain type or a pseudo-type. A plain type's array type is added with it.
    Plain {
        name: Name,
        category: u8,
        preferred: bool,
        line: u32,
    },
    /// A range type, with its array type.
    Range {
        name: Name,
        subtype: TypeNo,
        line: u32,
    },
    /// A domain, with its array type.
    Domain {
        name: Name,
        base: TypeNo,
        not_null: bool,
        check: Byts,
        line: u32,
    },
    Cast(CastRow),
    Function(FuncRow),
    Operator(OperRow),
}
