//! The kinds of tokens: one token ahead of this kind is all that reading looks at.
ghost use Rattle.std.specs.Prelude.{◌≡◌};
ghost use Rattle.xp_grammar.specs.Kinds as spec;

use xp_token::{Mark, Token, TokenKind, Word};

/// What a token is, but for what it holds.
#[derive(Clone, Copy, Debug, PartialEq, Eq)]
pub enum Kind {
    /// A whole number.
    Whole,
    /// Any other number, of not too many digits.
    Decimal,
    Wide,
    String,
    /// A name that is no word of a type of several words.
    Name,
    Double,
    Precision,
    Character,
    Varying,
    Timestamp,
    Time,
    With,
    Without,
    Zone,
    /// A name in quotes.
    Quoted,
    /// A reserved word.
    Word(Word),
    /// `+` or `-`
    Sign,
    /// `*`, `/` or `%`
    Times,
    /// `^`
    Power,
    /// `<`, `>`, `=`, `<=`, `>=` or `<>`
    Compare,
    /// Any other operator.
    Other,
    /// `=>`, which no statement takes
    Arrow,
    Mark(Mark),
    /// The end of the statement.
    EndOfStatement,
    /// Behind the last token.
    Nothing,
}

/// Tokens between which the grammar makes no difference.
#[derive(Clone, Copy, Debug, PartialEq, Eq)]
pub enum Class {
    Only(Kind),
    /// Every name.
    Names,
    /// A name that is a type's whole name.
    Plains,
    /// `timestamp` or `time`
    Moments,
    /// `with` or `without`
    Zoned,
    /// NULL, TRUE, FALSE or UNKNOWN.
    TruthTests,
    /// A number, a string, TRUE, FALSE or NULL.
    Constants,
    /// LIKE or ILIKE.
    Likes,
    /// COALESCE, GREATEST or LEAST.
    Selections,
    /// BOTH, LEADING or TRAILING.
    Sides,
    /// A name or a string.
    Fields,
}

impl Kind {
    fn is_name(self) -> bool
        ensures { result ≡ spec.has Class.Names self }
    {
        matches!(
            self,
            Kind::Name
                | Kind::Double
                | Kind::Precision
                | Kind::Character
                | Kind::Varying
                | Kind::Timestamp
                | Kind::Time
                | Kind::With
                | Kind::Without
                | Kind::Zone
                | Kind::Quoted
        )
    }
}

impl Class {
    /// Whether the kind is of the class.
    pub fn has(self, kind: Kind) -> bool
        ensures { result ≡ spec.has self kind }
    {
        match self {
            Class::Only(one) => one == kind,
            Class::Names => kind.is_name(),
            Class::Plains => matches!(
                kind,
                Kind::Name
                    | Kind::Precision
                    | Kind::Varying
                    | Kind::With
                    | Kind::Without
                    | Kind::Zone
                    | Kind::Quoted
            ),
            Class::Moments => matches!(kind, Kind::Timestamp | Kind::Time),
            Class::Zoned => matches!(kind, Kind::With | Kind::Without),
            Class::TruthTests => matches!(
                kind,
                Kind::Word(Word::False | Word::Null | Word::True | Word::Unknown)
            ),
            Class::Constants => matches!(
                kind,
                Kind::Whole
                    | Kind::Decimal
                    | Kind::Wide
                    | Kind::String
                    | Kind::Word(Word::False | Word::Null | Word::True)
            ),
            Class::Likes => matches!(kind, Kind::Word(Word::Ilike | Word::Like)),
            Class::Selections => matches!(
                kind,
                Kind::Word(Word::Coalesce | Word::Greatest | Word::Least)
            ),
            Class::Sides => matches!(
                kind,
                Kind::Word(Word::Both | Word::Leading | Word::Trailing)
            ),
            Class::Fields => kind.is_name() || kind == Kind::String,
        }
    }
}

fn name_kind(name: &str) -> Kind
    ensures { result ≡ spec.name_kind name.now }
{
    match name {
        "double" => Kind::Double,
        "precision" => Kind::Precision,
        "character" => Kind::Character,
        "varying" => Kind::Varying,
        "timestamp" => Kind::Timestamp,
        "time" => Kind::Time,
        "with" => Kind::With,
        "without" => Kind::Without,
        "zone" => Kind::Zone,
        _ => Kind::Name,
    }
}

fn operator_kind(name: &str) -> Kind
    ensures { result ≡ spec.operator_kind name.now }
{
    match name {
        "+" => Kind::Sign,
        "-" => Kind::Sign,
        "*" => Kind::Times,
        "/" => Kind::Times,
        "%" => Kind::Times,
        "^" => Kind::Power,
        "<" => Kind::Compare,
        ">" => Kind::Compare,
        "=" => Kind::Compare,
        "<=" => Kind::Compare,
        ">=" => Kind::Compare,
        "<>" => Kind::Compare,
        "=>" => Kind::Arrow,
        _ => Kind::Other,
    }
}

/// The kind of a token.
pub fn token_kind(token: &Token) -> Kind
    ensures { result ≡ spec.kind token.now }
{
    match &token.kind {
        TokenKind::Name(name) => name_kind(name.as_str()),
        TokenKind::Quoted(_) => Kind::Quoted,
        TokenKind::Word(word) => Kind::Word(*word),
        TokenKind::Str(_) => Kind::String,
        TokenKind::Number { value: _, whole } => {
            if *whole { Kind::Whole } else { Kind::Decimal }
        }
        TokenKind::Wide => Kind::Wide,
        TokenKind::Operator(name) => operator_kind(name.as_str()),
        TokenKind::Mark(mark) => Kind::Mark(*mark),
        TokenKind::End => Kind::EndOfStatement,
    }
}
