//! How the values of a type are kept.
ghost use Rattle.std.specs.Prelude.{◌≡◌, ◌<◌, length, true};
ghost use Rattle.xp_io.specs.Representations.{element_rep, is_built, rep_of};
ghost use Rattle.xp_value.specs.Names.{rep_named};

use xp_base::TypeNo;
use xp_catalog::{Catalog, TypeKind};
use xp_types::{base, element};
use xp_value::Rep;

/// The representation of the plain type of that name.
fn rep_named(name: &str) -> Rep
    ensures value { result ≡ rep_named name.now }
    ensures built { is_built result ≡ true }
{
    match name {
        "bool" => Rep::Bool,
        "int2" => Rep::Int2,
        "int4" => Rep::Int4,
        "int8" => Rep::Int8,
        "numeric" => Rep::Num,
        "text" | "varchar" => Rep::Text,
        "bpchar" => Rep::Pad,
        "bytea" => Rep::Bytes,
        "date" => Rep::Day,
        _ => Rep::Opaque,
    }
}

/// The representation of the type, which a domain has of its base.
pub fn rep_of(c: &Catalog, t: TypeNo) -> Rep
    requires { t.0 < length c.now.types }
    ensures value { result ≡ rep_of c.now t }
    ensures built { is_built result ≡ true }
{
    let row = c.type_row(base(c, t));
    match row.kind {
        TypeKind::Plain => rep_named(row.name.as_str()),
        _ => Rep::Opaque,
    }
}

/// The representation of the elements of an array type, or of a domain over one; `Opaque` elsewhere.
pub fn element_rep(c: &Catalog, t: TypeNo) -> Rep
    requires { t.0 < length c.now.types }
    ensures { result ≡ element_rep c.now t }
{
    match element(c, base(c, t)) {
        Some(element) => rep_of(c, element),
        None => Rep::Opaque,
    }
}
