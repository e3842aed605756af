//! The codes of refusals and of errors.
ghost use Rattle.std.specs.Prelude.{◌≡◌};
ghost use Rattle.xp_base.specs.Codes.{state_of, word_of};

use std::error::Error;
use std::fmt;

/// Why an evaluation raised (manual appendix A).
#[derive(Clone, Copy, Debug, PartialEq, Eq)]
pub enum EvalError {
    DivisionByZero,
    OutOfRange,
    BadText,
    BadDate,
    DateOutOfRange,
    TooLong,
    RangeData,
    Substring,
    BadCharacter,
    BadParameter,
    BadEscape,
    BadSubscript,
    NotNull,
    Check,
    Limit,
    Dimensions,
}

impl EvalError {
    pub fn code(self) -> Code
        ensures { result ≡ Code.Raised self }
    {
        Code::Raised(self)
    }
}

/// Why a statement is refused, or, as `Raised`, an evaluation's error. A literal that isn't a
/// text of the type that it gets is refused by the `Raised` of its text form.
#[derive(Clone, Copy, Debug, PartialEq, Eq)]
pub enum Code {
    BadByte,
    Unclosed,
    TooManyTokens,
    Syntax,
    TooDeep,
    /// The statement is of a form that isn't built yet.
    NotBuilt,
    Undefined,
    Ambiguous,
    Indeterminate,
    Mismatch,
    CannotCoerce,
    UnknownColumn,
    UnknownType,
    NotBoolean,
    BadModifier,
    NestedArray,
    NoBody,
    TooBig,
    Raised(EvalError),
}

impl Code {
    /// The five characters of the SQLSTATE (manual appendix A).
    pub fn state(self) -> &'static str
        ensures { result.now ≡ state_of self }
    {
        match self {
            Code::BadByte | Code::Unclosed | Code::Syntax => "42601",
            Code::TooManyTokens | Code::TooDeep | Code::TooBig => "54001",
            Code::NotBuilt | Code::NestedArray | Code::NoBody => "0A000",
            Code::Undefined => "42883",
            Code::Ambiguous => "42725",
            Code::Indeterminate => "42P18",
            Code::Mismatch | Code::NotBoolean => "42804",
            Code::CannotCoerce => "42846",
            Code::UnknownColumn => "42703",
            Code::UnknownType => "42704",
            Code::BadModifier => "22023",
            Code::Raised(error) => error_state(error),
        }
    }

    /// The word beside the state.
    pub fn word(self) -> &'static str
        ensures { result.now ≡ word_of self }
    {
        match self {
            Code::BadByte => "bad_byte",
            Code::Unclosed => "unclosed",
            Code::TooManyTokens => "too_many_tokens",
            Code::Syntax => "syntax",
            Code::TooDeep => "too_deep",
            Code::NotBuilt => "not_built",
            Code::Undefined => "undefined",
            Code::Ambiguous => "ambiguous",
            Code::Indeterminate => "indeterminate",
            Code::Mismatch => "mismatch",
            Code::CannotCoerce => "cannot_coerce",
            Code::UnknownColumn => "unknown_column",
            Code::UnknownType => "unknown_type",
            Code::NotBoolean => "not_boolean",
            Code::BadModifier => "bad_modifier",
            Code::NestedArray => "nested_array",
            Code::NoBody => "no_body",
            Code::TooBig => "too_big",
            Code::Raised(error) => error_word(error),
        }
    }
}

fn error_state(error: EvalError) -> &'static str
    ensures { result.now ≡ state_of (Code.Raised error) }
{
    match error {
        EvalError::DivisionByZero => "22012",
        EvalError::OutOfRange => "22003",
        EvalError::BadText => "22P02",
        EvalError::BadDate => "22007",
        EvalError::DateOutOfRange => "22008",
        EvalError::TooLong => "22001",
        EvalError::RangeData => "22000",
        EvalError::Substring => "22011",
        EvalError::BadCharacter => "22021",
        EvalError::BadParameter => "22023",
        EvalError::BadEscape => "22025",
        EvalError::BadSubscript => "2202E",
        EvalError::NotNull => "23502",
        EvalError::Check => "23514",
        EvalError::Limit => "54000",
        EvalError::Dimensions => "0A000",
    }
}

fn error_word(error: EvalError) -> &'static str
    ensures { result.now ≡ word_of (Code.Raised error) }
{
    match error {
        EvalError::DivisionByZero => "division_by_zero",
        EvalError::OutOfRange => "out_of_range",
        EvalError::BadText => "bad_text",
        EvalError::BadDate => "bad_date",
        EvalError::DateOutOfRange => "date_out_of_range",
        EvalError::TooLong => "too_long",
        EvalError::RangeData => "range_data",
        EvalError::Substring => "substring",
        EvalError::BadCharacter => "bad_character",
        EvalError::BadParameter => "bad_parameter",
        EvalError::BadEscape => "bad_escape",
        EvalError::BadSubscript => "bad_subscript",
        EvalError::NotNull => "not_null",
        EvalError::Check => "check",
        EvalError::Limit => "limit",
        EvalError::Dimensions => "dimensions",
    }
}

/// The state and the word, as `22012 division_by_zero`.
impl fmt::Display for Code {
    fn fmt<W: fmt::Write>(&self, f: &mut fmt::Formatter<W>) -> fmt::Result {
        write!(f, "{} {}", self.state(), self.word())
    }
}

impl Error for Code {}

/// As its code.
impl fmt::Display for EvalError {
    fn fmt<W: fmt::Write>(&self, f: &mut fmt::Formatter<W>) -> fmt::Result {
        self.code().fmt(f)
    }
}

impl Error for EvalError {}
