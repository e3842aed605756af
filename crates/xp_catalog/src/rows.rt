//! The rows of a catalogue.
ghost use Rattle.std.specs.Prelude.{◌≡◌};
ghost use Rattle.xp_catalog.specs.Families.{is_of};

use sqlite_items::Items;
use xp_base::{BodyNo, Byts, Name, RowNo, TypeNo};

/// How far a function's result may change between calls (manual 38.7).
#[derive(Clone, Copy, Debug, PartialEq, Eq)]
pub enum Volatility {
    Immutable,
    Stable,
    Volatile,
}

/// Where a cast is allowed (manual, CREATE CAST). An implicit cast serves every context, an assignment
/// cast assignment and explicit context, an explicit cast explicit context alone.
#[derive(Clone, Copy, Debug, PartialEq, Eq)]
pub enum Context {
    Implicit,
    Assignment,
    Explicit,
}

/// How a cast converts a value.
#[derive(Clone, Copy, Debug, PartialEq, Eq)]
pub enum CastMethod {
    /// The value stays as it is, in the representation of the new type.
    Binary,
    /// A strict and immutable call of one argument that has no body.
    None,
    /// A call of a function with the one argument `from` and the result `to`.
    Function(RowNo),
}

/// The pseudo-types that stand for a type of each call (manual 8.21, 38.2.5).
#[derive(Clone, Copy, Debug, PartialEq, Eq)]
pub enum PseudoType {
    Any,
    AnyElement,
    AnyArray,
    AnyNonArray,
    AnyRange,
    AnyCompatible,
    AnyCompatibleArray,
    AnyCompatibleNonArray,
    AnyCompatibleRange,
}

/// The two families of polymorphic types (manual 38.2.5).
#[derive(Clone, Copy, Debug, PartialEq, Eq)]
pub enum Family {
    /// Those whose members are of one element type in a call.
    First,
    /// Those whose members are brought to a common type.
    Second,
}

impl PseudoType {
    /// Whether it is a member of the family. `any` is of none.
    pub fn is_of(self, family: Family) -> bool
        ensures { result ≡ is_of family self }
    {
        match self {
            PseudoType::Any => false,
            PseudoType::AnyElement
            | PseudoType::AnyArray
            | PseudoType::AnyNonArray
            | PseudoType::AnyRange => family == Family::First,
            PseudoType::AnyCompatible
            | PseudoType::AnyCompatibleArray
            | PseudoType::AnyCompatibleNonArray
            | PseudoType::AnyCompatibleRange => family == Family::Second,
        }
    }
}

/// What a type is made of. A range and a domain have a row of their own.
#[derive(Clone, Copy, Debug, PartialEq, Eq)]
pub enum TypeKind {
    Plain,
    Pseudo(PseudoType),
    Array { element: TypeNo },
    Range { row: RowNo },
    Domain { row: RowNo },
}

/// A type. Its number is its place in the list of types.
#[derive(Debug, Drop)]
pub struct TypeRow {
    pub name: Name,
    /// The letter of its category (manual 53.64).
    pub category: u8,
    pub preferred: bool,
    pub kind: TypeKind,
    /// The record that it comes from, counted from 1, and 0 for `unknown`.
    pub line: u32,
}

/// A function.
#[derive(Debug, Drop)]
pub struct FuncRow {
    pub name: Name,
    pub args: Items<TypeNo>,
    pub variadic: bool,
    pub result: TypeNo,
    pub volatility: Volatility,
    pub strict: bool,
    pub body: Option<BodyNo>,
    pub line: u32,
}

/// An operator. A prefix operator has no left operand.
#[derive(Debug, Drop)]
pub struct OperRow {
    pub name: Name,
    pub left: Option<TypeNo>,
    pub right: TypeNo,
    /// The function with the operands as its arguments.
    pub function: RowNo,
    pub line: u32,
}

/// A cast.
#[derive(Clone, Copy, Debug)]
pub struct CastRow {
    pub from: TypeNo,
    pub to: TypeNo,
    pub context: Context,
    pub method: CastMethod,
    pub line: u32,
}

/// A domain, whose type is `ty`. Its check is empty where it has none.
#[derive(Debug, Drop)]
pub struct DomainRow {
    pub name: Name,
    pub ty: TypeNo,
    pub base: TypeNo,
    pub not_null: bool,
    pub check: Byts,
    pub line: u32,
}

/// A range type, which is `ty`.
#[derive(Debug, Drop)]
pub struct RangeRow {
    pub name: Name,
    pub ty: TypeNo,
    pub subtype: TypeNo,
    pub line: u32,
}
