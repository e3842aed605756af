//! The names of types (manual 4.1.2.7 and 8).
ghost use Rattle.std.specs.Prelude.{◌≡◌, IfOk};
ghost use Rattle.xp_grammar.specs.inner.Machine.{parse};
ghost use Rattle.xp_grammar.specs.Table.{Level, Named, Spelled, at, type_name};
ghost use Rattle.xp_parser.specs.inner.Parts as part;
ghost use Rattle.xp_parser.specs.inner.Reading.{Reads};

use crate::cursor::Cursor;
use crate::held;
use crate::parse_error::ParseError;
use std::alloc::Global;
use xp_base::{Memory, Span};
use xp_grammar::{Class, Kind, TypeModifier, TypeName, TypeWords};
use xp_token::{Mark, Token};

/// The name of a type, with the place of its first token.
#[derive(Drop)]
struct Spelling {
    at: Span,
    name: TypeName,
}

/// A type's name of one word.
fn one_word(alloc: Global, word: &Token) -> Result<Spelling, Memory>
    ensures { IfOk result (λ n. part.spelling n ≡ Spelled (at word.now) (type_name word.now)) }
{
    Ok(Spelling {
        at: word.span,
        name: held::type_name(alloc, word)?,
    })
}

/// Behind the word `double`.
#[tactic(auto, unfolding(crate::specs::inner::Parts::double_then))]
fn double(alloc: Global, tokens: &mut Cursor<'_>, word: &Token) -> Result<Spelling, ParseError>
    ensures { Reads part.spelling (part.double_then word.now tokens.old) result tokens.new }
{
    match tokens.eat(Class::Only(Kind::Precision)) {
        Some(_) => Ok(Spelling {
            at: word.span,
            name: TypeName::DoublePrecision,
        }),
        None => Ok(one_word(alloc, word)?),
    }
}

/// Behind the word `character`.
#[tactic(auto, unfolding(crate::specs::inner::Parts::character_then))]
fn character(alloc: Global, tokens: &mut Cursor<'_>, word: &Token) -> Result<Spelling, ParseError>
    ensures { Reads part.spelling (part.character_then word.now tokens.old) result tokens.new }
{
    match tokens.eat(Class::Only(Kind::Varying)) {
        Some(_) => Ok(Spelling {
            at: word.span,
            name: TypeName::CharacterVarying,
        }),
        None => Ok(one_word(alloc, word)?),
    }
}

/// Behind the word `timestamp` or `time`.
#[tactic(auto, unfolding(crate::specs::inner::Parts::moment_then))]
fn moment(alloc: Global, tokens: &mut Cursor<'_>, word: &Token) -> Result<Spelling, ParseError>
    ensures { Reads part.spelling (part.moment_then word.now tokens.old) result tokens.new }
{
    match tokens.eat(Class::Zoned) {
        Some(zoned) => {
            tokens.expect(Class::Only(Kind::Time))?;
            tokens.expect(Class::Only(Kind::Zone))?;
            Ok(Spelling {
                at: word.span,
                name: held::zoned(zoned, held::moment(word)),
            })
        }
        None => Ok(one_word(alloc, word)?),
    }
}

/// A type's name without modifier and brackets.
#[tactic(auto, using(crate::proofs::TypeLaws::typename_is), unfolding(crate::specs::inner::Parts::typename_part))]
fn typename(alloc: Global, tokens: &mut Cursor<'_>) -> Result<Spelling, ParseError>
    ensures { Reads part.spelling (parse Level.Typename tokens.old) result tokens.new }
{
    if let Some(word) = tokens.eat(Class::Plains) {
        return Ok(one_word(alloc, word)?);
    }
    if let Some(word) = tokens.eat(Class::Only(Kind::Double)) {
        return double(alloc, tokens, word);
    }
    if let Some(word) = tokens.eat(Class::Only(Kind::Character)) {
        return character(alloc, tokens, word);
    }
    let word = tokens.expect(Class::Moments)?;
    moment(alloc, tokens, word)
}

/// The name with a modifier, behind the bracket that opens that.
#[tactic(auto, unfolding(crate::specs::inner::Parts::modifier_then))]
fn modified(
    tokens: &mut Cursor<'_>,
    spelling: Spelling,
    bracket: &Token,
) -> Result<TypeWords, ParseError>
    ensures { Reads Named (part.modifier_then (part.spelling spelling) bracket.now tokens.old) result tokens.new }
{
    let first = tokens.expect(Class::Only(Kind::Whole))?;
    let modifier = match tokens.eat(Class::Only(Kind::Mark(Mark::Comma))) {
        Some(_) => held::scaled(bracket, first, tokens.expect(Class::Only(Kind::Whole))?),
        None => held::sized(bracket, first),
    };
    tokens.expect(Class::Only(Kind::Mark(Mark::CloseParen)))?;
    Ok(TypeWords {
        at: spelling.at,
        name: spelling.name,
        modifier,
        array: false,
    })
}

/// A type without brackets.
#[tactic(auto, using(crate::proofs::TypeLaws::basic_is), unfolding(crate::specs::inner::Parts::basic_part))]
pub(crate) fn basic(alloc: Global, tokens: &mut Cursor<'_>) -> Result<TypeWords, ParseError>
    ensures { Reads Named (parse Level.Basic tokens.old) result tokens.new }
{
    let spelling = typename(alloc, tokens)?;
    match tokens.eat(Class::Only(Kind::Mark(Mark::OpenParen))) {
        Some(bracket) => modified(tokens, spelling, bracket),
        None => Ok(TypeWords {
            at: spelling.at,
            name: spelling.name,
            modifier: TypeModifier::None,
            array: false,
        }),
    }
}

/// A type with its brackets.
#[tactic(auto, using(crate::proofs::TypeLaws::full_is, crate::proofs::TypeLaws::more_full, crate::proofs::Steps::skipped), unfolding(crate::specs::inner::Parts::brackets_part, crate::specs::inner::Parts::pair_then))]
pub(crate) fn full(alloc: Global, tokens: &mut Cursor<'_>) -> Result<TypeWords, ParseError>
    ensures { Reads Named (parse Level.Full tokens.old) result tokens.new }
{
    let mut words = basic(alloc, tokens)?;
    'pairs: while let Some(_) = tokens.eat(Class::Only(Kind::Mark(Mark::OpenBracket))) {
        tokens.eat(Class::Only(Kind::Whole));
        tokens.expect(Class::Only(Kind::Mark(Mark::CloseBracket)))?;
        words.array = true;
    }
    Ok(words)
}
