//! What a node holds beside its parts.
use xp_base::{BodyNo, RowNo, TypeNo};
use xp_catalog::Volatility;
use xp_value::Rep;

/// The type of a node's value: its number, how its values are kept and, of an array type, how those
/// of its elements are; elsewhere `element` is `Opaque`.
#[derive(Clone, Copy, Debug, PartialEq, Eq)]
pub struct NodeType {
    pub no: TypeNo,
    pub rep: Rep,
    pub element: Rep,
}

/// What a call rests on: the row of a cast record where `from_cast` is true, as for a cast without a
/// function, and of a function record elsewhere.
#[derive(Clone, Copy, Debug, PartialEq, Eq)]
pub struct Callee {
    pub row: RowNo,
    pub from_cast: bool,
    pub body: Option<BodyNo>,
    pub strict: bool,
    pub volatility: Volatility,
}

/// How the elements of an array are converted.
#[derive(Clone, Copy, Debug, PartialEq, Eq)]
pub enum Way {
    ByBody(Callee),
    ByOutput,
    ByInput,
    ByRelabel,
}

/// What stands in parentheses behind a type's name: a length in characters, or the digits and the
/// decimals of a numeric (manual 8.1.2, 8.3).
#[derive(Clone, Copy, Debug, PartialEq, Eq)]
pub enum Modifier {
    None,
    Length(u32),
    Digits { p: u8, s: u8 },
}
