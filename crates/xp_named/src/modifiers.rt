//! What stands in parentheses behind a type's name.
ghost use Rattle.std.specs.Prelude.{◌≡◌, ◌<◌, Some, None, cond, length, nat_le, ◌&&◌, option_and_then, true};
ghost use Rattle.xp_base.specs.declared.numbers.Span.{Span};
ghost use Rattle.xp_grammar.specs.declared.types.TypeModifier.TheVariants as words;
ghost use Rattle.xp_named.specs.Modifiers.{fits_sizing, fitting, is_char, sizing_named, sizing_of, takes_modifier, unwritten, whole};
ghost use Rattle.xp_named.specs.declared.modifiers.Sizing.TheVariants as by;

use xp_base::{DIGIT_LIMIT, Dec, TypeNo};
use xp_catalog::Catalog;
use xp_grammar::{TypeModifier, TypeName};
use xp_tree::Modifier;
use xp_types::element;

/// The most characters that a modifier may ask for.
pub const LENGTH_LIMIT: u32 = 1_000_000;

/// A law: what the limit is, in numbers.
pub fn length_limit_is_this()
    ensures { LENGTH_LIMIT ≡ 1000000 }
{}

/// What values of a type may be brought to.
#[derive(Clone, Copy, Debug, PartialEq, Eq)]
pub enum Sizing {
    /// A number of characters.
    Length,
    /// Digits and decimals.
    Digits,
    Nothing,
}

fn sizing_named(name: &str) -> Sizing
    ensures { result ≡ sizing_named name.now }
{
    if name == "varchar" || name == "bpchar" {
        Sizing::Length
    } else if name == "numeric" {
        Sizing::Digits
    } else {
        Sizing::Nothing
    }
}

/// How values of the type are sized, an array's by their elements.
pub fn sizing_of(c: &Catalog, ty: TypeNo) -> Sizing
    requires { ty.0 < length c.now.types }
    ensures { result ≡ sizing_of c.now ty }
{
    let sized = element(c, ty).unwrap_or(ty);
    sizing_named(c.type_row(sized).name.as_str())
}

fn fits_sizing(way: Sizing, modifier: Modifier) -> bool
    ensures { result ≡ fits_sizing way modifier }
{
    match (way, modifier) {
        (_, Modifier::None) => true,
        (Sizing::Length, Modifier::Length(length)) => 1 <= length && length <= LENGTH_LIMIT,
        (Sizing::Digits, Modifier::Digits { p, s }) => 1 <= p && p <= DIGIT_LIMIT && s <= p,
        _ => false,
    }
}

/// Whether the type takes the modifier. An array type takes those of its elements, and a domain none.
pub fn takes_modifier(c: &Catalog, ty: TypeNo, modifier: Modifier) -> bool
    requires { ty.0 < length c.now.types }
    ensures { result ≡ takes_modifier c.now ty modifier }
{
    fits_sizing(sizing_of(c, ty), modifier)
}

/// The number, where it is whole and within the bounds.
fn whole_within(number: Dec, low: u32, high: u32) -> Option<u32>
    ensures { result ≡ option_and_then (λ n. cond (nat_le low n && nat_le n high) (Some n) None) (whole number) }
{
    let is_whole = !number.neg && number.scale == 0;
    if is_whole && low as u128 <= number.coef && number.coef <= high as u128 {
        Some(number.coef as u32)
    } else {
        None
    }
}

fn length_of(n: Dec) -> Option<Modifier>
    ensures { (at : Span) → result ≡ fitting by.Length (words.Length at n) }
{
    Some(Modifier::Length(whole_within(n, 1, LENGTH_LIMIT)?))
}

fn precision_of(p: Dec) -> Option<Modifier>
    ensures { (at : Span) → result ≡ fitting by.Digits (words.Length at p) }
{
    let p = whole_within(p, 1, DIGIT_LIMIT as u32)?;
    Some(Modifier::Digits { p: p as u8, s: 0 })
}

fn digits_of(p: Dec, s: Dec) -> Option<Modifier>
    ensures { (at : Span) → result ≡ fitting by.Digits (words.Digits at p s) }
{
    let p = whole_within(p, 1, DIGIT_LIMIT as u32)?;
    let s = whole_within(s, 0, p)?;
    Some(Modifier::Digits {
        p: p as u8,
        s: s as u8,
    })
}

/// The modifier that is written, where values are sized so and it is within its bounds.
pub fn fitting(way: Sizing, written: &TypeModifier) -> Option<Modifier>
    ensures { result ≡ fitting way written.now }
{
    match (way, written) {
        (Sizing::Length, TypeModifier::Length { length, .. }) => length_of(*length),
        (Sizing::Digits, TypeModifier::Length { length, .. }) => precision_of(*length),
        (
            Sizing::Digits,
            TypeModifier::Digits {
                precision,
                scale,
                ..
            },
        ) => digits_of(*precision, *scale),
        _ => None,
    }
}

fn is_char(name: &TypeName) -> bool
    ensures { result ≡ is_char name.now }
{
    match name {
        TypeName::Plain(name) => name.as_str() == "char" || name.as_str() == "character",
        _ => false,
    }
}

/// The modifier of a name behind which none stands.
pub fn unwritten(name: &TypeName) -> Modifier
    ensures { result ≡ unwritten name.now }
{
    if is_char(name) {
        Modifier::Length(1)
    } else {
        Modifier::None
    }
}
