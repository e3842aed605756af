//! Which type a name stands for.
ghost use Rattle.std.specs.Prelude.{◌≡◌, ◌<◌, IfSome, length, true};
ghost use Rattle.xp_named.specs.Names.{array_called, is_value_type, name_of, own_name, type_called};

use xp_base::TypeNo;
use xp_catalog::Catalog;
use xp_grammar::{Moment, TypeName};
use xp_types::{array_of, is_known, pseudo_type};

/// The type's own name, for which an unquoted name of one word may be another.
pub fn own_name(name: &str) -> &str
    ensures { result.now ≡ own_name name.now }
{
    if name == "int" || name == "integer" {
        "int4"
    } else if name == "smallint" {
        "int2"
    } else if name == "bigint" {
        "int8"
    } else if name == "decimal" {
        "numeric"
    } else if name == "real" {
        "float4"
    } else if name == "boolean" {
        "bool"
    } else if name == "char" || name == "character" {
        "bpchar"
    } else {
        name
    }
}

/// The own name of the type that the words of a name stand for.
pub fn name_of(words: &TypeName) -> &str
    ensures { result.now ≡ name_of words.now }
{
    match words {
        TypeName::Plain(name) => own_name(name.as_str()),
        TypeName::Quoted(name) => name.as_str(),
        TypeName::DoublePrecision => "float8",
        TypeName::CharacterVarying => "varchar",
        TypeName::WithTimeZone(Moment::Timestamp) => "timestamptz",
        TypeName::WithTimeZone(Moment::Time) => "timetz",
        TypeName::WithoutTimeZone(Moment::Timestamp) => "timestamp",
        TypeName::WithoutTimeZone(Moment::Time) => "time",
    }
}

fn is_value_type(c: &Catalog, ty: TypeNo) -> bool
    requires { ty.0 < length c.now.types }
    ensures { result ≡ is_value_type c.now ty }
{
    is_known(ty) && pseudo_type(c, ty).is_none()
}

/// The type of that name, which is neither `unknown` nor a pseudo-type.
pub fn type_called(c: &Catalog, name: &str) -> Option<TypeNo>
    ensures value { result ≡ type_called c.now name.now }
    ensures within { IfSome result (λ type. type.0 < length c.now.types) }
    ensures valued { IfSome result (λ type. is_value_type c.now type ≡ true) }
{
    let ty = c.type_named(name)?;
    if is_value_type(c, ty) { Some(ty) } else { None }
}

/// The array type over the type of that name.
pub fn array_called(c: &Catalog, name: &str) -> Option<TypeNo>
    ensures value { result ≡ array_called c.now name.now }
    ensures within { IfSome result (λ type. type.0 < length c.now.types) }
    ensures valued { IfSome result (λ type. is_value_type c.now type ≡ true) }
{
    // an array type is another type than `unknown`, and no pseudo-type
    c.is_well_formed_law();
    array_of(c, type_called(c, name)?)
}
