//! What a token is.
use crate::words::Word;
use sqlite_items::Items;
use xp_base::{Dec, Name, Span, Txt};

/// A list of tokens, made from a `Vec` and given back as a slice without memory.
pub type Tokens = Items<Token>;

/// A token, with the bytes of the script that it stands for.
#[derive(Debug, Drop)]
pub struct Token {
    pub span: Span,
    pub kind: TokenKind,
}

#[derive(Debug, Drop)]
pub enum TokenKind {
    /// An unquoted name, in lower case.
    Name(Name),
    /// A name that stood in double quotes.
    Quoted(Name),
    /// A reserved word.
    Word(Word),
    /// The text of a string constant.
    Str(Txt),
    /// A number; whole where it has neither a point nor an exponent.
    Number { value: Dec, whole: bool },
    /// A number of more than 38 digits or decimals.
    Wide,
    /// An operator, `!=` as `<>`.
    Operator(Name),
    Mark(Mark),
    /// The `;` of a statement, or the end of the script.
    End,
}

#[derive(Clone, Copy, Debug, PartialEq, Eq)]
pub enum Mark {
    OpenParen,
    CloseParen,
    OpenBracket,
    CloseBracket,
    Comma,
    DoubleColon,
    Point,
}
