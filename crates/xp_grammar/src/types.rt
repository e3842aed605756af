//! The names of types as they are written.
use xp_base::{Dec, Name, Span};

#[derive(Clone, Copy, Debug, PartialEq, Eq)]
pub enum Moment {
    Timestamp,
    Time,
}

/// The name of a type, without modifier and brackets.
#[derive(Debug, Drop)]
pub enum TypeName {
    /// A name of one word without quotes, in lower case.
    Plain(Name),
    /// A name in quotes, which is no other word for a type.
    Quoted(Name),
    DoublePrecision,
    CharacterVarying,
    WithTimeZone(Moment),
    WithoutTimeZone(Moment),
}

/// What stands in parentheses behind a type's name, with the place of the first.
#[derive(Debug, Drop)]
pub enum TypeModifier {
    None,
    Length {
        at: Span,
        length: Dec,
    },
    Digits {
        at: Span,
        precision: Dec,
        scale: Dec,
    },
}

/// A type as it is written, with the place of its first token.
#[derive(Debug, Drop)]
pub struct TypeWords {
    pub at: Span,
    pub name: TypeName,
    pub modifier: TypeModifier,
    /// Whether brackets stand behind it.
    pub array: bool,
}
