//! The known inputs at the positions of a family (manual 38.2.5).
ghost use Rattle.std.specs.Prelude.{◌≡◌, ◌<◌, ◌≤◌, All, IfSome, find, is_some, length, take, zip};
ghost use Rattle.xp_base.specs.declared.limits.TheConstants.{ARGUMENT_LIMIT};
ghost use Rattle.xp_types.specs.Within.{AreTypes, IsType};
ghost use Rattle.xp_poly.specs.Members.{AreKnownTypes, counts_as, counts_by, given, given_at, given_by, is_of_range, is_range_form, range_given};

use crate::roles::{Form, Role, declared_role, is_family};
use crate::room::put;
use xp_base::TypeNo;
use xp_catalog::{Catalog, Family};
use xp_types::{UNKNOWN, base, element, is_known, subtype};

/// A known input, and what its position stands for.
#[derive(Clone, Copy, Debug)]
pub struct KnownInput {
    pub form: Form,
    pub input: TypeNo,
}

/// Stands where nothing is given yet.
pub const NOTHING: KnownInput = KnownInput {
    form: Form::Element,
    input: UNKNOWN,
};

fn given_by(family: Family, input: TypeNo, role: Role) -> Option<KnownInput>
    ensures { result ≡ given_by family input role }
{
    match role {
        Role::Member { family: of, form } if is_family(family, of) => Some(KnownInput {
            form,
            input,
        }),
        _ => None,
    }
}

/// What the input gives to the family at its position.
fn given_at(c: &Catalog, family: Family, declared: TypeNo, input: TypeNo) -> Option<KnownInput>
    requires declared { IsType c.now declared }
    requires input { IsType c.now input }
    ensures value { result ≡ given_at c.now family (declared, input) }
    ensures within { IfSome result (λ given. IsType c.now given.input) }
{
    if is_known(input) {
        given_by(family, input, declared_role(c, declared))
    } else {
        None
    }
}

/// Puts what the inputs give to the family at the front of the room, and tells how many they are.
pub fn given(
    c: &Catalog,
    family: Family,
    declared: &[TypeNo],
    inputs: &[TypeNo],
    room: &mut [KnownInput],
) -> usize
    requires lengths { length declared.now ≡ length inputs.now }
    requires few { length inputs.now ≤ ARGUMENT_LIMIT }
    requires room { length room.old ≡ ARGUMENT_LIMIT }
    requires declared { AreTypes c.now declared.now }
    requires inputs { AreTypes c.now inputs.now }
    ensures count { result ≤ length inputs.now }
    ensures list { take result room.new ≡ given c.now family (zip declared.now inputs.now) }
    ensures within { AreKnownTypes c.now (take result room.new) }
{
    let mut count = 0;
    for place in 0..inputs.len() {
        let one = given_at(c, family, declared[place], inputs[place]);
        count = put(room, count, one);
    }
    count
}

fn counts_by(c: &Catalog, form: Form, ty: TypeNo) -> Option<TypeNo>
    requires { IsType c.now ty }
    ensures value { result ≡ counts_by c.now form ty }
    ensures within { IfSome result (IsType c.now) }
{
    match form {
        Form::Element | Form::NonArray => Some(ty),
        Form::Array => element(c, ty),
        Form::Range => subtype(c, ty),
    }
}

/// The type that an input counts as; none where an array or a range is declared and it is none.
pub fn counts_as(c: &Catalog, given: KnownInput) -> Option<TypeNo>
    requires { IsType c.now given.input }
    ensures value { result ≡ counts_as c.now given }
    ensures within { IfSome result (IsType c.now) }
{
    counts_by(c, given.form, base(c, given.input))
}

fn is_range_form(form: Form) -> bool
    ensures { result ≡ is_range_form form }
{
    matches!(form, Form::Range)
}

/// The range type of the first input where a range is declared.
pub fn range_given(c: &Catalog, inputs: &[KnownInput]) -> Option<TypeNo>
    requires { AreKnownTypes c.now inputs.now }
    ensures value { result ≡ range_given c.now inputs.now }
    ensures within { IfSome result (IsType c.now) }
{
    for given in inputs {
        if is_range_form(given.form) {
            return Some(base(c, given.input));
        }
    }
    None
}

/// Whether the input is of the range type, where a range is declared.
pub fn is_of_range(c: &Catalog, range: Option<TypeNo>, given: KnownInput) -> bool
    requires { IsType c.now given.input }
    ensures { result ≡ is_of_range c.now range given }
{
    match range {
        Some(range) => !is_range_form(given.form) || base(c, given.input).0 == range.0,
        None => !is_range_form(given.form),
    }
}
