//! What is read off a type (manual 8.15, 8.17, 8.18, 10.1).
ghost use Rattle.std.specs.Prelude.{◌≡◌, ◌<◌, IfSome, Some, false, is_some, length};
ghost use Rattle.std.specs.Option.{option_map_or};
ghost use Rattle.xp_types.specs.Readers.{array_of, base, category, element, has_array, is_array, is_known, is_same, preferred, pseudo_type, subtype};
ghost use Rattle.xp_types.specs.Paths.{is_domain};

use xp_base::TypeNo;
use xp_catalog::{Catalog, PseudoType, TypeKind};

/// The type of a literal that has none yet.
pub const UNKNOWN: TypeNo = TypeNo(0);

/// Whether the type is another than `unknown`.
pub fn is_known(ty: TypeNo) -> bool
    ensures { result ≡ is_known ty }
{
    ty.0 != UNKNOWN.0
}

/// The type that a domain is over; every other type itself.
pub fn base(c: &Catalog, ty: TypeNo) -> TypeNo
    requires { ty.0 < length c.now.types }
    ensures value { result ≡ base c.now ty }
    ensures within { result.0 < length c.now.types }
    ensures plain { is_domain c.now result ≡ false }
{
    // no record gives a domain over a domain
    c.is_well_formed_law();
    match c.type_row(ty).kind {
        TypeKind::Domain { row } => c.domain_row(row).base,
        _ => ty,
    }
}

/// The letter of the type's category (manual 53.64), which a domain has of its base.
pub fn category(c: &Catalog, ty: TypeNo) -> u8
    requires { ty.0 < length c.now.types }
    ensures { result ≡ category c.now ty }
{
    c.type_row(ty).category
}

/// Whether the type is preferred in its category.
pub fn preferred(c: &Catalog, ty: TypeNo) -> bool
    requires { ty.0 < length c.now.types }
    ensures { result ≡ preferred c.now ty }
{
    c.type_row(ty).preferred
}

pub fn is_domain(c: &Catalog, ty: TypeNo) -> bool
    requires { ty.0 < length c.now.types }
    ensures { result ≡ is_domain c.now ty }
{
    matches!(c.type_row(ty).kind, TypeKind::Domain { .. })
}

/// Which pseudo-type it is, where it is one.
pub fn pseudo_type(c: &Catalog, ty: TypeNo) -> Option<PseudoType>
    requires { ty.0 < length c.now.types }
    ensures { result ≡ pseudo_type c.now ty }
{
    match c.type_row(ty).kind {
        TypeKind::Pseudo(pseudo) => Some(pseudo),
        _ => None,
    }
}

/// The type of an array's elements. A domain over an array is no array.
pub fn element(c: &Catalog, ty: TypeNo) -> Option<TypeNo>
    requires { ty.0 < length c.now.types }
    ensures value { result ≡ element c.now ty }
    ensures within { IfSome result (λ type. type.0 < length c.now.types) }
{
    match c.type_row(ty).kind {
        TypeKind::Array { element } => Some(element),
        _ => None,
    }
}

/// Whether the type is an array type. A domain over one isn't.
pub fn is_array(c: &Catalog, ty: TypeNo) -> bool
    requires { ty.0 < length c.now.types }
    ensures { result ≡ is_array c.now ty }
{
    element(c, ty).is_some()
}

/// The type of a range's bounds.
pub fn subtype(c: &Catalog, ty: TypeNo) -> Option<TypeNo>
    requires { ty.0 < length c.now.types }
    ensures value { result ≡ subtype c.now ty }
    ensures within { IfSome result (λ type. type.0 < length c.now.types) }
{
    match c.type_row(ty).kind {
        TypeKind::Range { row } => Some(c.range_row(row).subtype),
        _ => None,
    }
}

/// Whether the type is the array type over another.
fn is_array_over(c: &Catalog, array: TypeNo, ty: TypeNo) -> bool
    requires { array.0 < length c.now.types }
    ensures { result ≡ option_map_or (is_same ty) (element c.now array) false }
{
    match element(c, array) {
        Some(element) => ty.0 == element.0,
        None => false,
    }
}

/// The array type over the type, which stands directly behind it.
pub fn array_of(c: &Catalog, ty: TypeNo) -> Option<TypeNo>
    requires { ty.0 < length c.now.types }
    ensures value { result ≡ array_of c.now ty }
    ensures within { IfSome result (λ type. type.0 < length c.now.types) }
    ensures present { is_some result ≡ has_array c.now ty }
    ensures element { IfSome result (λ array. element c.now array ≡ Some ty) }
{
    let count = c.counts().types;
    let behind = TypeNo(ty.0 + 1);
    if behind.0 < count && is_array_over(c, behind, ty) {
        Some(behind)
    } else {
        None
    }
}
