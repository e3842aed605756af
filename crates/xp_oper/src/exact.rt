//! The operator that accepts exactly the types of the operands.
ghost use Rattle.std.specs.Prelude.{◌≡◌, ◌<◌, IfSome, length};
ghost use Rattle.std.specs.List.{list_all};
ghost use Rattle.xp_types.specs.Within.{AreTypes};
ghost use Rattle.xp_oper.specs.Exact.{assumed, exact, matched, may_match, other_operand};

use xp_base::{RowNo, TypeNo};
use xp_catalog::{Catalog, TypeKind};
use xp_types::{base, is_known};

fn may_match(c: &Catalog, ty: TypeNo) -> bool
    requires { ty.0 < length c.now.types }
    ensures { result ≡ may_match c.now ty }
{
    is_known(ty) && !matches!(c.type_row(ty).kind, TypeKind::Pseudo(_))
}

fn all_may_match(c: &Catalog, types: &[TypeNo]) -> bool
    requires { AreTypes c.now types.now }
    ensures { result ≡ list_all (may_match c.now) types.now }
{
    for ty in types {
        if !may_match(c, *ty) {
            return false;
        }
    }
    true
}

fn exact(c: &Catalog, name: &str, types: &[TypeNo]) -> Option<RowNo>
    requires { AreTypes c.now types.now }
    ensures value { result ≡ exact c.now name.now types.now }
    ensures within { IfSome result (λ row. row.0 < length c.now.opers) }
{
    if all_may_match(c, types) {
        c.oper_at(name, types)
    } else {
        None
    }
}

/// The other operand of a binary operator, where one operand alone is unknown.
fn other_operand(inputs: &[TypeNo]) -> Option<TypeNo>
    ensures { result ≡ other_operand inputs.now }
{
    match inputs {
        [left, right] => match (is_known(*left), is_known(*right)) {
            (true, false) => Some(*left),
            (false, true) => Some(*right),
            _ => None,
        },
        _ => None,
    }
}

/// The operator over that type on both sides, else over its base type.
fn assumed(c: &Catalog, name: &str, ty: TypeNo) -> Option<RowNo>
    requires { ty.0 < length c.now.types }
    ensures value { result ≡ assumed c.now name.now (Some ty) }
    ensures within { IfSome result (λ row. row.0 < length c.now.opers) }
{
    let found = exact(c, name, &[ty, ty]);
    let base = base(c, ty);
    if found.is_some() || base == ty {
        return found;
    }
    exact(c, name, &[base, base])
}

/// The operator that matches exactly, with an unknown operand taken to have the other's type.
pub fn matched(c: &Catalog, name: &str, inputs: &[TypeNo]) -> Option<RowNo>
    requires { AreTypes c.now inputs.now }
    ensures value { result ≡ matched c.now name.now inputs.now }
    ensures within { IfSome result (λ row. row.0 < length c.now.opers) }
{
    if let Some(row) = exact(c, name, inputs) {
        return Some(row);
    }
    match other_operand(inputs) {
        Some(ty) => assumed(c, name, ty),
        None => None,
    }
}
