//! What the names of a record refer to.
ghost use Rattle.std.specs.Prelude.{◌≡◌, ◌<◌, ◌==◌, IfOk, IfSome, None, Some, cond, length, map, nat_lt, option_map, true};
ghost use Rattle.std.specs.List.{list_all, slice_split};
ghost use Rattle.xp_catalog.specs.Lookups.{func_at};
ghost use Rattle.xp_loader.specs.Reading.{arg_names, body_of, function_of, is_ascii, left_of, method_of, named, type_of, types_of};

use sqlite_items::Items;
use std::alloc::{AllocError, Global};
use std::str;
use xp_base::{BodyNo, Memory, RowNo, TypeNo};
use xp_bodies::body_named;
use xp_catalog::{CastMethod, Catalog};

fn is_ascii(bytes: &[u8]) -> bool
    ensures { result ≡ is_ascii bytes.now }
{
    bytes.iter().all(|b| *b < 128)
}

/// The bytes as a text, if they are ASCII.
fn ascii(bytes: &[u8]) -> Option<&str>
    ensures { option_map (λ text. text.now) result ≡ cond (is_ascii bytes.now) (Some bytes.now) None }
{
    if !is_ascii(bytes) {
        return None;
    }
    match str::from_utf8(bytes) {
        Ok(text) => Some(text),
        Err(_) => None,
    }
}

pub fn type_of(c: &Catalog, name: &[u8]) -> Option<TypeNo>
    ensures { result ≡ type_of c.now name.now }
{
    match ascii(name) {
        Some(name) => c.type_named(name),
        None => None,
    }
}

/// The left operand, which a prefix operator lacks.
pub fn left_of(c: &Catalog, name: &[u8]) -> Option<Option<TypeNo>>
    ensures { result ≡ left_of c.now name.now }
{
    if name.is_empty() {
        return Some(None);
    }
    match type_of(c, name) {
        Some(left) => Some(Some(left)),
        None => None,
    }
}

pub fn body_of(name: &[u8]) -> Option<BodyNo>
    ensures { result ≡ body_of name.now }
{
    match ascii(name) {
        Some(name) => body_named(name),
        None => None,
    }
}

fn func_at(c: &Catalog, name: &[u8], args: &[TypeNo]) -> Option<RowNo>
    ensures { result ≡ named (λ n. func_at c.now n args.now) name.now }
{
    match ascii(name) {
        Some(name) => c.func_at(name, args),
        None => None,
    }
}

/// The function with exactly these arguments, or a number that is no function's.
pub fn function_of(c: &Catalog, name: &[u8], args: &[TypeNo]) -> RowNo
    ensures { result ≡ function_of c.now name.now args.now }
{
    match func_at(c, name, args) {
        Some(number) => number,
        None => RowNo(c.counts().funcs),
    }
}

pub fn method_of(c: &Catalog, word: &[u8], from: TypeNo) -> CastMethod
    ensures { result ≡ method_of c.now word.now from }
{
    if word == b"binary".as_slice() {
        CastMethod::Binary
    } else if word == b"none".as_slice() {
        CastMethod::None
    } else {
        CastMethod::Function(function_of(c, word, &[from]))
    }
}

/// The parts between single spaces.
fn words(alloc: Global, text: &[u8]) -> Result<Vec<&[u8]>, AllocError>
    ensures { IfOk result (λ words. map (λ word. word.now) words.items ≡ slice_split (λ b. b == 32) text.now) }
{
    text.split(|b| *b == b' ').collect(alloc)
}

/// The names in a list of arguments, which may be empty.
fn arg_names(alloc: Global, args: &[u8]) -> Result<Vec<&[u8]>, AllocError>
    ensures { IfOk result (λ names. map (λ name. name.now) names.items ≡ arg_names args.now) }
{
    if args.is_empty() {
        Ok(Vec::new(alloc))
    } else {
        words(alloc, args)
    }
}

/// The types of these names, if all are there.
fn types_named(alloc: Global, c: &Catalog, names: &[&[u8]]) -> Result<Option<Items<TypeNo>>, Memory>
    ensures { IfOk result (λ types. types ≡ types_of c.now (map (λ name. name.now) names.now)) }
{
    let mut types = Items::new(alloc);
    for name in names {
        let Some(number) = type_of(c, name) else {
            return Ok(None);
        };
        types.push(number)?;
    }
    Ok(Some(types))
}

/// The types of a list of arguments, if all are there.
pub fn types_of(alloc: Global, c: &Catalog, args: &[u8]) -> Result<Option<Items<TypeNo>>, Memory>
    ensures { IfOk result (λ types. types ≡ types_of c.now (arg_names args.now)) }
{
    types_named(alloc, c, &arg_names(alloc, args)?)
}
