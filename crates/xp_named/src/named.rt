//! The type that words name.
ghost use Rattle.std.specs.Prelude.{◌≡◌, ◌<◌, IfOk, IfSome, length, true};
ghost use Rattle.xp_named.specs.Named.{IsNamed, modified_by, named_type, refused, type_of};
ghost use Rattle.xp_named.specs.Names.{is_value_type};

use crate::modifiers::{fitting, sizing_of, unwritten};
use crate::names::{array_called, name_of, type_called};
use crate::refusal::Refusal;
use xp_base::{Code, Span, TypeNo};
use xp_catalog::Catalog;
use xp_grammar::{TypeModifier, TypeWords};
use xp_tree::Modifier;

/// A type with its modifier.
#[derive(Clone, Copy, Debug, PartialEq, Eq)]
pub struct NamedType {
    pub ty: TypeNo,
    pub modifier: Modifier,
}

/// The type without its modifier.
fn type_of(c: &Catalog, words: &TypeWords) -> Option<TypeNo>
    ensures value { result ≡ type_of c.now words.now }
    ensures within { IfSome result (λ type. type.0 < length c.now.types) }
    ensures valued { IfSome result (λ type. is_value_type c.now type ≡ true) }
{
    let name = name_of(&words.name);
    if words.array {
        array_called(c, name)
    } else {
        type_called(c, name)
    }
}

fn refused(code: Code, place: Span) -> Result<NamedType, Refusal>
    ensures { result ≡ refused code place }
{
    Err(Refusal::At {
        code,
        at: place.start as u64,
    })
}

/// The type with the modifier that is written behind its name.
fn modified(c: &Catalog, words: &TypeWords, ty: TypeNo) -> Result<NamedType, Refusal>
    requires { ty.0 < length c.now.types }
    ensures { result ≡ modified_by words.now.modifier c.now words.now.name ty }
{
    let at = match &words.modifier {
        TypeModifier::None => {
            return Ok(NamedType {
                ty,
                modifier: unwritten(&words.name),
            });
        }
        TypeModifier::Length { at, .. } | TypeModifier::Digits { at, .. } => *at,
    };
    match fitting(sizing_of(c, ty), &words.modifier) {
        Some(modifier) => Ok(NamedType { ty, modifier }),
        None => refused(Code::BadModifier, at),
    }
}

/// The type that the words name, which takes its modifier, or why they are refused: a type that isn't
/// there or that no value has, at the first of its words, or a modifier that the type doesn't take, at
/// its bracket. It takes no memory.
pub fn name_type(c: &Catalog, words: &TypeWords) -> Result<NamedType, Refusal>
    ensures answer { result ≡ named_type c.now words.now }
    ensures named { IfOk result (IsNamed c.now) }
{
    // `char` is bpchar, which is no array type
    c.is_well_formed_law();
    match type_of(c, words) {
        Some(ty) => modified(c, words, ty),
        None => refused(Code::UnknownType, words.at),
    }
}
