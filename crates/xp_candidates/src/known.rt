//! Unknown inputs, base types, and the type that all known inputs have.
ghost use Rattle.std.specs.Prelude.{◌≡◌, ◌<◌, IfOk, filter, length, map};
ghost use Rattle.std.specs.List.{find, list_all};
ghost use Rattle.xp_types.specs.Within.{AreTypes};
ghost use Rattle.xp_candidates.specs.Known.{bases, known_type, taken_as};
ghost use Rattle.xp_types.specs.Readers.{is_known, is_same};

use sqlite_items::Items;
use std::alloc::{AllocError, Global};
use xp_base::TypeNo;
use xp_catalog::Catalog;
use xp_types::{base, is_known};

/// The inputs with base types in place of domains.
pub fn bases(alloc: Global, c: &Catalog, inputs: &[TypeNo]) -> Result<Items<TypeNo>, AllocError>
    requires { AreTypes c.now inputs.now }
    ensures value { IfOk result (λ types. types ≡ bases c.now inputs.now) }
    ensures known { IfOk result (λ types. AreTypes c.now types) }
{
    let mut types = Items::new(alloc);
    for input in inputs {
        types.push(base(c, *input))?;
    }
    Ok(types)
}

fn all_known(types: &[TypeNo]) -> bool
    ensures { result ≡ list_all is_known types.now }
{
    types.iter().all(|ty| is_known(*ty))
}

fn first_known(types: &[TypeNo]) -> Option<TypeNo>
    ensures { result ≡ find is_known types.now }
{
    for ty in types {
        if is_known(*ty) {
            return Some(*ty);
        }
    }
    None
}

/// Whether each known one is that type.
fn known_are(first: TypeNo, types: &[TypeNo]) -> bool
    ensures { result ≡ list_all (is_same first) (filter is_known types.now) }
{
    for ty in types {
        if is_known(*ty) && *ty != first {
            return false;
        }
    }
    true
}

/// The type that all known ones have, where some are known and some are unknown.
#[tactic(auto, using(crate::proofs::Found::none_shared))]
pub fn known_type(types: &[TypeNo]) -> Option<TypeNo>
    ensures { result ≡ known_type types.now }
{
    if all_known(types) {
        return None;
    }
    let first = first_known(types)?;
    if known_are(first, types) {
        Some(first)
    } else {
        None
    }
}

/// The types with that one in place of the unknown ones.
pub fn taken_as(
    alloc: Global,
    c: &Catalog,
    ty: TypeNo,
    types: &[TypeNo],
) -> Result<Items<TypeNo>, AllocError>
    requires ty { ty.0 < length c.now.types }
    requires types { AreTypes c.now types.now }
    ensures value { IfOk result (λ list. list ≡ map (taken_as ty) types.now) }
    ensures known { IfOk result (λ list. AreTypes c.now list) }
{
    let mut list = Items::new(alloc);
    for other in types {
        list.push(if is_known(*other) { *other } else { ty })?;
    }
    Ok(list)
}
