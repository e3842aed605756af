//! What is asked of a type of the catalogue.
ghost use Rattle.std.specs.Prelude.{◌≡◌, ◌<◌, IfSome, length};
ghost use Rattle.std.specs.Option.{option_map_or};
ghost use Rattle.xp_catalog.specs.Known.{IsKnownKind};
ghost use Rattle.xp_catalog.specs.Rules.{is_opaque, kind_of, leaf, leaf_by, name_of};

use xp_base::TypeNo;
use xp_catalog::names::is_plain;
use xp_catalog::{Catalog, TypeKind};

pub fn name_of(c: &Catalog, ty: TypeNo) -> &[u8]
    requires { ty.0 < length c.now.types }
    ensures { result.now ≡ name_of c.now ty }
{
    c.type_row(ty).name.as_str().as_bytes()
}

pub fn kind_of(c: &Catalog, ty: TypeNo) -> TypeKind
    requires { ty.0 < length c.now.types }
    ensures value { result ≡ kind_of c.now ty }
    ensures known { IsKnownKind c.now result }
{
    c.type_row(ty).kind
}

/// The element of an array, or the base of a domain.
fn inner(c: &Catalog, ty: TypeNo) -> Option<TypeNo>
    requires { ty.0 < length c.now.types }
    ensures value { (onward : TypeNo → TypeNo) → leaf_by (kind_of c.now ty) c.now ty onward ≡ option_map_or onward result ty }
    ensures within { IfSome result (λ next. next.0 < length c.now.types) }
{
    match kind_of(c, ty) {
        TypeKind::Array { element } => Some(element),
        TypeKind::Domain { row } => Some(c.domain_row(row).base),
        TypeKind::Plain | TypeKind::Pseudo(_) | TypeKind::Range { .. } => None,
    }
}

/// The type at the end of elements and bases.
fn leaf(c: &Catalog, ty: TypeNo) -> TypeNo
    requires { ty.0 < length c.now.types }
    ensures value { result ≡ leaf c.now ty }
    ensures within { result.0 < length c.now.types }
{
    let mut at = ty;
    for _step in 0..ty.0 as u64 + 1 {
        match inner(c, at) {
            Some(next) => at = next,
            None => return at,
        }
    }
    at
}

/// Whether values of the type are texts as they stand.
pub fn is_opaque(c: &Catalog, ty: TypeNo) -> bool
    requires { ty.0 < length c.now.types }
    ensures { result ≡ is_opaque c.now ty }
{
    let leaf = leaf(c, ty);
    match kind_of(c, leaf) {
        TypeKind::Range { .. } => false,
        _ => !is_plain(name_of(c, leaf)),
    }
}
