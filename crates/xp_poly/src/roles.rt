//! The pseudo-types by what they stand for (manual 38.2.5).
ghost use Rattle.std.specs.Prelude.{◌≡◌, ◌<◌, length};
ghost use Rattle.std.specs.List.{list_any};
ghost use Rattle.xp_types.specs.Within.{AreTypes, IsType};
ghost use Rattle.xp_poly.specs.Roles.{is_family, is_of, role, role_of};
ghost use Rattle.xp_poly.specs.Acceptance.{has_nonarray, is_nonarray, uses};

use xp_base::TypeNo;
use xp_catalog::{Catalog, Family, PseudoType};
use xp_types::pseudo_type;

/// What a member of a family stands for, by the family's type.
#[derive(Clone, Copy, Debug, PartialEq, Eq)]
pub enum Form {
    /// The type.
    Element,
    /// The type, which is no array.
    NonArray,
    /// An array over it.
    Array,
    /// A range over it.
    Range,
}

/// What a declared type stands for.
#[derive(Clone, Copy, Debug, PartialEq, Eq)]
pub enum Role {
    /// Itself.
    Plain,
    /// Every type.
    Any,
    Member { family: Family, form: Form },
}

/// Whether the two are one family.
pub fn is_family(family: Family, of: Family) -> bool
    ensures { result ≡ is_family family of }
{
    match (family, of) {
        (Family::First, Family::First) | (Family::Second, Family::Second) => true,
        _ => false,
    }
}

impl Role {
    pub fn is_of(self, family: Family) -> bool
        ensures { result ≡ is_of family self }
    {
        match self {
            Role::Member { family: of, .. } => is_family(family, of),
            _ => false,
        }
    }

    /// Whether it is anycompatiblenonarray.
    pub fn is_nonarray(self) -> bool
        ensures { result ≡ is_nonarray self }
    {
        matches!(
            self,
            Role::Member {
                family: Family::Second,
                form: Form::NonArray
            }
        )
    }
}

fn member(family: Family, form: Form) -> Role
    ensures { result ≡ Role.Member family form }
{
    Role::Member { family, form }
}

fn role_of(of: PseudoType) -> Role
    ensures { result ≡ role_of of }
{
    match of {
        PseudoType::Any => Role::Any,
        PseudoType::AnyElement => member(Family::First, Form::Element),
        PseudoType::AnyNonArray => member(Family::First, Form::NonArray),
        PseudoType::AnyArray => member(Family::First, Form::Array),
        PseudoType::AnyRange => member(Family::First, Form::Range),
        PseudoType::AnyCompatible => member(Family::Second, Form::Element),
        PseudoType::AnyCompatibleNonArray => member(Family::Second, Form::NonArray),
        PseudoType::AnyCompatibleArray => member(Family::Second, Form::Array),
        PseudoType::AnyCompatibleRange => member(Family::Second, Form::Range),
    }
}

/// What the declared type stands for.
pub fn declared_role(c: &Catalog, declared: TypeNo) -> Role
    requires { IsType c.now declared }
    ensures { result ≡ role c.now declared }
{
    match pseudo_type(c, declared) {
        Some(of) => role_of(of),
        None => Role::Plain,
    }
}

/// Whether some declared type is of the family.
pub fn uses(c: &Catalog, family: Family, declared: &[TypeNo]) -> bool
    requires { AreTypes c.now declared.now }
    ensures { result ≡ uses c.now family declared.now }
{
    for ty in declared {
        if declared_role(c, *ty).is_of(family) {
            return true;
        }
    }
    false
}

/// Whether anycompatiblenonarray is declared somewhere.
pub fn has_nonarray(c: &Catalog, declared: &[TypeNo]) -> bool
    requires { AreTypes c.now declared.now }
    ensures { result ≡ has_nonarray c.now declared.now }
{
    for ty in declared {
        if declared_role(c, *ty).is_nonarray() {
            return true;
        }
    }
    false
}
