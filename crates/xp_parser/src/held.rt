//! What a token holds.
ghost use Rattle.std.specs.Prelude.{◌≡◌, IfOk};
ghost use Rattle.xp_grammar.specs.Table as table;

use std::alloc::Global;
use xp_base::{Memory, Name, Txt};
use xp_grammar::{
    Ast, Kind, Moment, Selection, Side, TruthTest, TypeModifier, TypeName, token_kind,
};
use xp_token::{Token, TokenKind, Word};

/// The characters of a name, an operator or a string.
fn letters(token: &Token) -> &str
    ensures { result.now ≡ table.name_of token.now }
{
    match &token.kind {
        TokenKind::Name(name) => name.as_str(),
        TokenKind::Quoted(name) => name.as_str(),
        TokenKind::Operator(name) => name.as_str(),
        TokenKind::Str(text) => text.as_str(),
        _ => "",
    }
}

/// The name or operator that the token is.
pub(crate) fn name(alloc: Global, token: &Token) -> Result<Name, Memory>
    ensures { IfOk result (λ n. n ≡ table.name_of token.now) }
{
    Name::from_str(alloc, letters(token))
}

/// The text of the token, also where it is a name.
pub(crate) fn text(alloc: Global, token: &Token) -> Result<Txt, Memory>
    ensures { IfOk result (λ t. t ≡ table.name_of token.now) }
{
    Txt::from_str(alloc, letters(token))
}

/// The type that the name alone stands for.
pub(crate) fn type_name(alloc: Global, token: &Token) -> Result<TypeName, Memory>
    ensures { IfOk result (λ n. n ≡ table.type_name token.now) }
{
    let name = name(alloc, token)?;
    match &token.kind {
        TokenKind::Quoted(_) => Ok(TypeName::Quoted(name)),
        _ => Ok(TypeName::Plain(name)),
    }
}

pub(crate) fn constant(alloc: Global, token: &Token) -> Result<Ast, Memory>
    ensures { IfOk result (λ e. e ≡ table.constant_of token.now) }
{
    let at = token.span;
    Ok(match &token.kind {
        TokenKind::Number { value, whole } => Ast::Number {
            at,
            value: *value,
            whole: *whole,
        },
        TokenKind::Wide => Ast::Wide { at },
        TokenKind::Str(_) => Ast::Text {
            at,
            text: text(alloc, token)?,
        },
        TokenKind::Word(Word::True) => Ast::Bool { at, value: true },
        TokenKind::Word(Word::False) => Ast::Bool { at, value: false },
        _ => Ast::Null { at },
    })
}

pub(crate) fn test(token: &Token) -> TruthTest
    ensures { result ≡ table.test_of token.now }
{
    match &token.kind {
        TokenKind::Word(Word::True) => TruthTest::True,
        TokenKind::Word(Word::False) => TruthTest::False,
        TokenKind::Word(Word::Unknown) => TruthTest::Unknown,
        _ => TruthTest::Null,
    }
}

pub(crate) fn selection(token: &Token) -> Selection
    ensures { result ≡ table.selection_of token.now }
{
    match &token.kind {
        TokenKind::Word(Word::Greatest) => Selection::Greatest,
        TokenKind::Word(Word::Least) => Selection::Least,
        _ => Selection::Coalesce,
    }
}

pub(crate) fn side(token: &Token) -> Side
    ensures { result ≡ table.side_of token.now }
{
    match &token.kind {
        TokenKind::Word(Word::Leading) => Side::Leading,
        TokenKind::Word(Word::Trailing) => Side::Trailing,
        _ => Side::Both,
    }
}

/// Whether letters of any case are alike, as for ILIKE.
pub(crate) fn any_case(token: &Token) -> bool
    ensures { result ≡ table.any_case token.now }
{
    token_kind(token) == Kind::Word(Word::Ilike)
}

pub(crate) fn moment(token: &Token) -> Moment
    ensures { result ≡ table.moment_of token.now }
{
    if token_kind(token) == Kind::Time {
        Moment::Time
    } else {
        Moment::Timestamp
    }
}

/// The type of times, by the word before its TIME ZONE.
pub(crate) fn zoned(token: &Token, moment: Moment) -> TypeName
    ensures { result ≡ table.zoned token.now moment }
{
    if token_kind(token) == Kind::With {
        TypeName::WithTimeZone(moment)
    } else {
        TypeName::WithoutTimeZone(moment)
    }
}

/// A modifier of one number, at its bracket.
pub(crate) fn sized(bracket: &Token, length: &Token) -> TypeModifier
    ensures { result ≡ table.sized (table.at bracket.now) length.now.kind }
{
    match &length.kind {
        TokenKind::Number { value, whole: _ } => TypeModifier::Length {
            at: bracket.span,
            length: *value,
        },
        _ => TypeModifier::None,
    }
}

/// A modifier of two numbers, at its bracket.
pub(crate) fn scaled(bracket: &Token, precision: &Token, scale: &Token) -> TypeModifier
    ensures { result ≡ table.scaled (table.at bracket.now) precision.now.kind scale.now.kind }
{
    match (&precision.kind, &scale.kind) {
        (
            TokenKind::Number {
                value: precision,
                whole: _,
            },
            TokenKind::Number {
                value: scale,
                whole: _,
            },
        ) => TypeModifier::Digits {
            at: bracket.span,
            precision: *precision,
            scale: *scale,
        },
        _ => TypeModifier::None,
    }
}
