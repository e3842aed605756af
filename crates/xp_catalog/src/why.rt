//! Why a catalogue is refused.
ghost use Rattle.std.specs.Prelude.{◌≡◌};
ghost use Rattle.xp_catalog.specs.Words.{word_of};

use thiserror::Error;
use xp_base::Memory;

/// The rule of records that fails.
#[derive(Clone, Copy, Debug, PartialEq, Eq, Error)]
pub enum Why {
    #[error("no such kind of record")]
    BadKind,
    #[error("wrong number of fields")]
    FieldCount,
    #[error("not spelled as a name")]
    BadName,
    #[error("not a flag or a volatility")]
    BadFlag,
    #[error("not a category that the type may have")]
    BadCategory,
    #[error("not a context of casts")]
    BadContext,
    #[error("no such type")]
    UnknownType,
    #[error("given before")]
    Duplicate,
    #[error("not a type that may stand here")]
    BadBase,
    #[error("types that may not stand together")]
    BadArgs,
    #[error("no such body")]
    UnknownBody,
    #[error("no such function")]
    UnknownFunction,
    #[error("not as its body says")]
    BodyMismatch,
    #[error("not a truth value over VALUE")]
    BadCheck,
    #[error("too many records")]
    TooMany,
}

impl Why {
    pub fn word(self) -> &'static str
        ensures { result.now ≡ word_of self }
    {
        match self {
            Why::BadKind => "BadKind",
            Why::FieldCount => "FieldCount",
            Why::BadName => "BadName",
            Why::BadFlag => "BadFlag",
            Why::BadCategory => "BadCategory",
            Why::BadContext => "BadContext",
            Why::UnknownType => "UnknownType",
            Why::Duplicate => "Duplicate",
            Why::BadBase => "BadBase",
            Why::BadArgs => "BadArgs",
            Why::UnknownBody => "UnknownBody",
            Why::UnknownFunction => "UnknownFunction",
            Why::BodyMismatch => "BodyMismatch",
            Why::BadCheck => "BadCheck",
            Why::TooMany => "TooMany",
        }
    }
}

/// Why there is no catalogue of a text: its first record that isn't accepted, the record behind the
/// last that a catalogue may have, or no fault of the text. Records are counted from 1.
#[derive(Clone, Copy, Debug, PartialEq, Eq, Error)]
pub enum CatFault {
    #[error("record {line}: {why}")]
    Row { line: u32, why: Why },
    #[error("record {line}: too many records")]
    TooManyRows { line: u32 },
    /// The reader of the text failed, which no text makes it do.
    #[error("the text could not be read")]
    Unread,
    #[error("out of memory")]
    Memory,
}

impl From<Memory> for CatFault {
    ghost use Rattle.xp_catalog.specs.declared.why.CatFault.TheVariants as fault;

    ghost from_gives = { λ _ e. e ≡ fault.Memory };

    fn from(_: Memory) -> CatFault {
        CatFault::Memory
    }
}
