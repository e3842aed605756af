//! Whether declared types accept inputs (manual 38.2.5, 10.2 step 3.a, 10.3 step 4.a).
ghost use Rattle.std.specs.Prelude.{◌≡◌, ◌<◌, ◌≤◌, IfSome, length, take, zip};
ghost use Rattle.std.specs.List.{list_all};
ghost use Rattle.xp_base.specs.declared.limits.TheConstants.{ARGUMENT_LIMIT};
ghost use Rattle.xp_types.specs.Within.{AreTypes, IsType};
ghost use Rattle.xp_poly.specs.Members.{AreKnownTypes, given, range_given};
ghost use Rattle.xp_poly.specs.Acceptance.{accepts, accepts_first, accepts_plain, accepts_second, array_type, compatible_type, counted, element_type, fit_compatible, fit_element, fits_compatible, fits_element, one_of, plain_accepts, reaches};

use crate::members::{KnownInput, NOTHING, counts_as, given, is_of_range, range_given};
use crate::roles::{Form, Role, declared_role, has_nonarray, uses};
use crate::room::{ROOM, put};
use xp_base::TypeNo;
use xp_catalog::{Catalog, Family};
use xp_types::{CommonType, UNKNOWN, array_of, base, common, converts, is_array};

fn accepts_plain(c: &Catalog, declared: TypeNo, input: TypeNo) -> bool
    requires declared { IsType c.now declared }
    requires input { IsType c.now input }
    ensures { result ≡ accepts_plain c.now (declared, input) }
{
    match declared_role(c, declared) {
        Role::Plain => converts(c, input, declared),
        _ => true,
    }
}

fn all_plain(c: &Catalog, declared: &[TypeNo], inputs: &[TypeNo]) -> bool
    requires lengths { length declared.now ≡ length inputs.now }
    requires declared { AreTypes c.now declared.now }
    requires inputs { AreTypes c.now inputs.now }
    ensures { result ≡ list_all (accepts_plain c.now) (zip declared.now inputs.now) }
{
    for place in 0..inputs.len() {
        if !accepts_plain(c, declared[place], inputs[place]) {
            return false;
        }
    }
    true
}

/// The type that the inputs of the first family count as.
pub fn element_type(c: &Catalog, inputs: &[KnownInput]) -> Option<TypeNo>
    requires { AreKnownTypes c.now inputs.now }
    ensures value { result ≡ element_type c.now inputs.now }
    ensures within { IfSome result (IsType c.now) }
{
    if inputs.is_empty() {
        None
    } else {
        counts_as(c, inputs[0])
    }
}

fn fits_element(c: &Catalog, ty: TypeNo, range: Option<TypeNo>, given: KnownInput) -> bool
    requires { IsType c.now given.input }
    ensures { result ≡ fits_element c.now ty range given }
{
    let counts = match counts_as(c, given) {
        Some(counts) => ty.0 == counts.0,
        None => false,
    };
    let array = matches!(given.form, Form::NonArray) && is_array(c, base(c, given.input));
    counts && !array && is_of_range(c, range, given)
}

fn fit_element(c: &Catalog, inputs: &[KnownInput], ty: Option<TypeNo>) -> bool
    requires { AreKnownTypes c.now inputs.now }
    ensures { result ≡ fit_element c.now inputs.now ty }
{
    let Some(ty) = ty else {
        return false;
    };
    let range = range_given(c, inputs);
    for given in inputs {
        if !fits_element(c, ty, range, *given) {
            return false;
        }
    }
    true
}

fn accepts_first(c: &Catalog, inputs: &[KnownInput]) -> bool
    requires { AreKnownTypes c.now inputs.now }
    ensures { result ≡ accepts_first c.now inputs.now }
{
    inputs.is_empty() || fit_element(c, inputs, element_type(c, inputs))
}

/// Puts what the inputs count as at the front of the room, and tells how many they are.
fn counted(c: &Catalog, inputs: &[KnownInput], room: &mut [TypeNo]) -> usize
    requires inputs { AreKnownTypes c.now inputs.now }
    requires few { length inputs.now ≤ ARGUMENT_LIMIT }
    requires room { length room.old ≡ ARGUMENT_LIMIT }
    ensures count { result ≤ length inputs.now }
    ensures list { take result room.new ≡ counted c.now inputs.now }
    ensures within { AreTypes c.now (take result room.new) }
{
    let mut count = 0;
    for place in 0..inputs.len() {
        let one = counts_as(c, inputs[place]);
        count = put(room, count, one);
    }
    count
}

/// The common type of what the inputs of the second family count as, and text where there are none.
pub fn compatible_type(c: &Catalog, inputs: &[KnownInput]) -> Option<TypeNo>
    requires inputs { AreKnownTypes c.now inputs.now }
    requires few { length inputs.now ≤ ARGUMENT_LIMIT }
    ensures value { result ≡ compatible_type c.now inputs.now }
    ensures within { IfSome result (IsType c.now) }
{
    let text = c.type_named("text")?;
    let mut room = [UNKNOWN; ROOM];
    let count = counted(c, inputs, &mut room);
    if count == 0 {
        return Some(text);
    }
    match common(c, &room[..count]) {
        CommonType::One(ty) => Some(ty),
        _ => None,
    }
}

/// The array type over the type, and `unknown` where there is none.
pub fn array_type(c: &Catalog, ty: TypeNo) -> TypeNo
    requires { IsType c.now ty }
    ensures value { result ≡ array_type c.now ty }
    ensures within { IsType c.now result }
{
    match array_of(c, ty) {
        Some(array) => array,
        None => UNKNOWN,
    }
}

fn reaches(c: &Catalog, ty: TypeNo, given: KnownInput, counts: Option<TypeNo>) -> bool
    requires ty { IsType c.now ty }
    requires input { IsType c.now given.input }
    ensures { result ≡ reaches c.now ty given.input counts given.form }
{
    match given.form {
        Form::Element | Form::NonArray => converts(c, given.input, ty),
        Form::Array => counts.is_some() && converts(c, given.input, array_type(c, ty)),
        Form::Range => match counts {
            Some(counts) => ty.0 == counts.0,
            None => false,
        },
    }
}

fn fits_compatible(c: &Catalog, ty: TypeNo, range: Option<TypeNo>, given: KnownInput) -> bool
    requires ty { IsType c.now ty }
    requires input { IsType c.now given.input }
    ensures { result ≡ fits_compatible c.now ty range given }
{
    reaches(c, ty, given, counts_as(c, given)) && is_of_range(c, range, given)
}

fn all_compatible(c: &Catalog, ty: TypeNo, inputs: &[KnownInput]) -> bool
    requires ty { IsType c.now ty }
    requires inputs { AreKnownTypes c.now inputs.now }
    ensures { result ≡ list_all (fits_compatible c.now ty (range_given c.now inputs.now)) inputs.now }
{
    let range = range_given(c, inputs);
    for given in inputs {
        if !fits_compatible(c, ty, range, *given) {
            return false;
        }
    }
    true
}

fn fit_compatible(
    c: &Catalog,
    declared: &[TypeNo],
    inputs: &[KnownInput],
    ty: Option<TypeNo>,
) -> bool
    requires declared { AreTypes c.now declared.now }
    requires inputs { AreKnownTypes c.now inputs.now }
    requires ty { IfSome ty (IsType c.now) }
    ensures { result ≡ fit_compatible c.now declared.now inputs.now ty }
{
    match ty {
        Some(ty) => {
            inputs.is_empty()
                || (!(has_nonarray(c, declared) && is_array(c, ty))
                    && all_compatible(c, ty, inputs))
        }
        None => false,
    }
}

fn accepts_second(c: &Catalog, declared: &[TypeNo], inputs: &[KnownInput]) -> bool
    requires declared { AreTypes c.now declared.now }
    requires inputs { AreKnownTypes c.now inputs.now }
    requires few { length inputs.now ≤ ARGUMENT_LIMIT }
    ensures { result ≡ accepts_second c.now declared.now inputs.now }
{
    !uses(c, Family::Second, declared)
        || fit_compatible(c, declared, inputs, compatible_type(c, inputs))
}

/// Whether the declared types accept the inputs, all positions taken together. An input of type
/// `unknown` is accepted everywhere, but by the second family in a catalogue without `text`.
pub fn accepts(c: &Catalog, declared: &[TypeNo], inputs: &[TypeNo]) -> bool
    requires lengths { length declared.now ≡ length inputs.now }
    requires few { length inputs.now ≤ ARGUMENT_LIMIT }
    requires declared { AreTypes c.now declared.now }
    requires inputs { AreTypes c.now inputs.now }
    ensures { result ≡ accepts c.now declared.now inputs.now }
{
    let mut first = [NOTHING; ROOM];
    let first_count = given(c, Family::First, declared, inputs, &mut first);
    let mut second = [NOTHING; ROOM];
    let second_count = given(c, Family::Second, declared, inputs, &mut second);
    all_plain(c, declared, inputs)
        && accepts_first(c, &first[..first_count])
        && accepts_second(c, declared, &second[..second_count])
}
