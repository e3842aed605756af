//! The type of a column of a rows file.
ghost use Rattle.std.specs.Prelude.{◌≡◌, ◌<◌, IfSome, length, option_map, true};
ghost use Rattle.xp_named.specs.Named.{before_brackets, header_type};
ghost use Rattle.xp_named.specs.Names.{is_value_type};

use crate::names::{array_called, own_name, type_called};
use xp_base::TypeNo;
use xp_catalog::Catalog;

/// What stands before brackets at the end.
fn before_brackets(name: &str) -> Option<&str>
    ensures { option_map (λ text. text.now) result ≡ before_brackets name.now }
{
    name.strip_suffix("[]")
}

/// The type that the header of a rows file names by one word, which may end in brackets. It is neither
/// `unknown` nor a pseudo-type.
pub fn header_type(c: &Catalog, name: &str) -> Option<TypeNo>
    ensures value { result ≡ header_type c.now name.now }
    ensures within { IfSome result (λ type. type.0 < length c.now.types) }
    ensures valued { IfSome result (λ type. is_value_type c.now type ≡ true) }
{
    match before_brackets(name) {
        Some(element) => array_called(c, own_name(element)),
        None => type_called(c, own_name(name)),
    }
}
