//! The table of bodies, and its rows by name and by number.
ghost use Rattle.std.specs.Prelude.{◌≡◌, ◌<◌, ◌^◌, IfSome, Some, length, map, option_map, slice_get};
ghost use Rattle.std.specs.List.{position};
ghost use Rattle.std.specs.Str.{bytes_eq};
ghost use Rattle.xp_bodies.specs.Row.{row_of, rows_of};
ghost use Rattle.xp_bodies.specs.Table.{arithmetic, arrays, bodies, body_named, comparisons, dates, edits, integers, numerics, place_named, ranges, texts};

use crate::bodies_of;
use xp_base::BodyNo;
use xp_catalog::Volatility;

/// What a function with this body takes and gives. Types go by their names.
#[derive(Clone, Copy, Debug)]
pub struct BodySig {
    pub name: &'static str,
    pub args: &'static [&'static str],
    pub variadic: bool,
    pub result: &'static str,
    pub strict: bool,
    pub volatility: Volatility,
}

macro_rules! is_variadic {
    (variadic $($word:ident)*) => { true };
    ($($word:ident)*) => { false };
}

macro_rules! is_strict {
    () => { true };
    (on_null) => { false };
    ($first:ident $($word:ident)*) => { is_strict!($($word)*) };
}

macro_rules! volatility {
    () => { Volatility::Immutable };
    (stable $($word:ident)*) => { Volatility::Stable };
    ($first:ident $($word:ident)*) => { volatility!($($word)*) };
}

macro_rules! rows {
    ($($name:ident($($arg:literal),*) -> $result:literal $($word:ident)*;)*) => {
        [$(BodySig {
            name: stringify!($name),
            args: &[$($arg),*],
            variadic: is_variadic!($($word)*),
            result: $result,
            strict: is_strict!($($word)*),
            volatility: volatility!($($word)*),
        }),*]
    };
}

fn arithmetic() -> &'static [BodySig]
    ensures { map (λ row. row_of row) result.now ≡ arithmetic }
{
    &bodies_of!(arithmetic, rows)
}

fn comparisons() -> &'static [BodySig]
    ensures { map (λ row. row_of row) result.now ≡ comparisons }
{
    &bodies_of!(comparisons, rows)
}

fn integers() -> &'static [BodySig]
    ensures { map (λ row. row_of row) result.now ≡ integers }
{
    &bodies_of!(integers, rows)
}

fn numerics() -> &'static [BodySig]
    ensures { map (λ row. row_of row) result.now ≡ numerics }
{
    &bodies_of!(numerics, rows)
}

fn texts() -> &'static [BodySig]
    ensures { map (λ row. row_of row) result.now ≡ texts }
{
    &bodies_of!(texts, rows)
}

fn edits() -> &'static [BodySig]
    ensures { map (λ row. row_of row) result.now ≡ edits }
{
    &bodies_of!(edits, rows)
}

fn dates() -> &'static [BodySig]
    ensures { map (λ row. row_of row) result.now ≡ dates }
{
    &bodies_of!(dates, rows)
}

fn arrays() -> &'static [BodySig]
    ensures { map (λ row. row_of row) result.now ≡ arrays }
{
    &bodies_of!(arrays, rows)
}

fn ranges() -> &'static [BodySig]
    ensures { map (λ row. row_of row) result.now ≡ ranges }
{
    &bodies_of!(ranges, rows)
}

/// All rows. A body's number is its place among them.
fn families() -> [&'static [BodySig]; 9]
    ensures { rows_of result ≡ bodies }
{
    [
        arithmetic(),
        comparisons(),
        integers(),
        numerics(),
        texts(),
        edits(),
        dates(),
        arrays(),
        ranges(),
    ]
}

/// The place of the first row of that name in a family.
fn place_of(family: &[BodySig], name: &str) -> Option<usize>
    ensures value { result ≡ position (λ row. bytes_eq row.name.now name.now) family.now }
    ensures within { IfSome result (λ place. place < length family.now) }
{
    family.iter().position(|row| row.name == name)
}

/// The place of the first row of that name.
fn place_among(families: &[&[BodySig]], name: &str) -> Option<usize>
    requires { length (rows_of families.now) < 2 ^ 32 }
    ensures { result ≡ place_named name.now (rows_of families.now) }
{
    let mut before = 0;
    for family in families {
        match place_of(family, name) {
            Some(place) => return Some(before + place),
            None => before += family.len(),
        }
    }
    None
}

/// The row at a place.
fn row_among(families: &[&[BodySig]], place: usize) -> Option<BodySig>
    ensures { option_map (λ row. row_of row) result ≡ slice_get (rows_of families.now) place }
{
    let mut left = place;
    for family in families {
        if left < family.len() {
            return Some(family[left]);
        }
        left -= family.len();
    }
    None
}

/// The number of the body of that name.
pub fn body_named(name: &str) -> Option<BodyNo>
    ensures value { result ≡ body_named name.now }
    ensures within { IfSome result (λ body. body.0 < length bodies) }
{
    match place_among(&families(), name) {
        Some(place) => Some(BodyNo(place as u32)),
        None => None,
    }
}

/// The row of the body of that number, if there is one.
pub fn row_at(body: BodyNo) -> Option<BodySig>
    ensures { option_map (λ row. row_of row) result ≡ slice_get bodies body.0 }
{
    row_among(&families(), body.0 as usize)
}

/// The row of the body of that number.
pub fn sig(body: BodyNo) -> BodySig
    requires { body.0 < length bodies }
    ensures { slice_get bodies body.0 ≡ Some (row_of result) }
{
    row_at(body).unwrap()
}
