//! The types that stand for declared types in a call (manual 38.2.5).
ghost use Rattle.std.specs.Prelude.{◌≡◌, ◌<◌, ◌≤◌, IfSome, cond, find, length, map, unwrap_or, zip};
ghost use Rattle.std.specs.Option.{option_map_or};
ghost use Rattle.xp_base.specs.declared.limits.TheConstants.{ARGUMENT_LIMIT};
ghost use Rattle.xp_types.specs.Common.{text};
ghost use Rattle.xp_types.specs.Readers.{is_same, unknown};
ghost use Rattle.xp_types.specs.Within.{AreTypes, IsType};
ghost use Rattle.xp_poly.specs.Members.{AreKnownTypes, given};
ghost use Rattle.xp_poly.specs.Bound.{AreBonds, IfConcrete, IsBond, bond_of, any_type, bonds, bound, concrete, concrete_at, concrete_by, concrete_types, first_bond, has_no_element, is_indeterminate, member_type, range_over, second_bond};
ghost use Rattle.xp_poly.specs.Roles.{role};
ghost use Rattle.xp_catalog.specs.declared.rows.Family.TheVariants.{First, Second};

use crate::acceptance::{array_type, compatible_type, element_type};
use crate::members::{KnownInput, NOTHING, given, range_given};
use crate::roles::{Form, Role, declared_role, uses};
use crate::room::ROOM;
use xp_base::{RowNo, TypeNo};
use xp_catalog::{Catalog, Family};
use xp_types::{UNKNOWN, is_known};

/// What a call's polymorphic types come to.
#[derive(Clone, Copy, Debug, PartialEq, Eq)]
pub enum Binding {
    /// The type of the result; the types of the arguments are written out.
    Concrete(TypeNo),
    /// No known input tells the element type of the first family.
    Indeterminate,
}

/// What a family is bound to: a type, and the range type of an input where a range is declared.
#[derive(Clone, Copy, Debug)]
pub struct Bond {
    pub element: TypeNo,
    pub range: Option<TypeNo>,
}

/// What the two families are bound to.
#[derive(Clone, Copy, Debug)]
pub struct Bonds {
    pub first: Bond,
    pub second: Bond,
}

fn known_or_unknown(ty: Option<TypeNo>) -> TypeNo
    ensures { result ≡ unwrap_or ty unknown }
{
    match ty {
        Some(ty) => ty,
        None => UNKNOWN,
    }
}

fn first_bond(c: &Catalog, inputs: &[KnownInput]) -> Bond
    requires inputs { AreKnownTypes c.now inputs.now }
    requires some { 0 < length c.now.types }
    ensures value { result ≡ first_bond c.now inputs.now }
    ensures within { IsBond c.now result }
{
    Bond {
        element: known_or_unknown(element_type(c, inputs)),
        range: range_given(c, inputs),
    }
}

fn second_bond(c: &Catalog, inputs: &[KnownInput]) -> Bond
    requires inputs { AreKnownTypes c.now inputs.now }
    requires few { length inputs.now ≤ ARGUMENT_LIMIT }
    requires some { 0 < length c.now.types }
    ensures value { result ≡ second_bond c.now inputs.now }
    ensures within { IsBond c.now result }
{
    Bond {
        element: known_or_unknown(compatible_type(c, inputs)),
        range: range_given(c, inputs),
    }
}

/// The range type of the first range record over the type, and `unknown` where there is none.
fn range_over(c: &Catalog, ty: TypeNo) -> TypeNo
    requires { IsType c.now ty }
    ensures value { result ≡ range_over c.now ty }
    ensures within { IsType c.now result }
{
    for row in 0..c.counts().ranges {
        let range = c.range_row(RowNo(row));
        if range.subtype.0 == ty.0 {
            return range.ty;
        }
    }
    UNKNOWN
}

fn member_type(c: &Catalog, bond: Bond, form: Form) -> TypeNo
    requires { IsBond c.now bond }
    ensures value { result ≡ member_type c.now bond form }
    ensures within { IsType c.now result }
{
    match form {
        Form::Element | Form::NonArray => bond.element,
        Form::Array => array_type(c, bond.element),
        Form::Range => match bond.range {
            Some(range) => range,
            None => range_over(c, bond.element),
        },
    }
}

fn bond_of(both: Bonds, family: Family) -> Bond
    ensures { result ≡ bond_of both family }
{
    match family {
        Family::First => both.first,
        Family::Second => both.second,
    }
}

/// The type of the input, and `text` where it has none.
fn any_type(c: &Catalog, input: TypeNo) -> TypeNo
    requires { IsType c.now input }
    ensures value { result ≡ any_type c.now input }
    ensures within { IsType c.now result }
{
    if is_known(input) {
        return input;
    }
    match c.type_named("text") {
        Some(text) => text,
        None => UNKNOWN,
    }
}

/// The type that stands for the declared type.
fn concrete(c: &Catalog, both: Bonds, declared: TypeNo, input: TypeNo) -> TypeNo
    requires bonds { AreBonds c.now both }
    requires declared { IsType c.now declared }
    requires input { IsType c.now input }
    ensures value { result ≡ concrete c.now both declared input }
    ensures within { IsType c.now result }
{
    match declared_role(c, declared) {
        Role::Plain => declared,
        Role::Any => any_type(c, input),
        Role::Member { family, form } => member_type(c, bond_of(both, family), form),
    }
}

/// Writes the types that stand for the declared types.
fn write_types(c: &Catalog, both: Bonds, declared: &[TypeNo], inputs: &[TypeNo], out: &mut [TypeNo])
    requires lengths { length declared.now ≡ length inputs.now }
    requires out { length out.old ≡ length inputs.now }
    requires bonds { AreBonds c.now both }
    requires declared { AreTypes c.now declared.now }
    requires inputs { AreTypes c.now inputs.now }
    ensures value { out.new ≡ map (concrete_at c.now both) (zip declared.now inputs.now) }
    ensures within { AreTypes c.now out.new }
{
    for place in 0..inputs.len() {
        out[place] = concrete(c, both, declared[place], inputs[place]);
    }
}

/// Whether the first family is declared and nothing is given to it.
fn is_indeterminate(c: &Catalog, declared: &[TypeNo], first: &[KnownInput]) -> bool
    requires { AreTypes c.now declared.now }
    ensures { result ≡ has_no_element c.now declared.now first.now }
{
    uses(c, Family::First, declared) && first.is_empty()
}

/// The types that stand in the call for the declared types, and for that of the result. Whether the
/// declared types accept the inputs is not asked. The types are written to `out`, which stays as it
/// is where the answer is `Indeterminate`. An array type or a range type that isn't there is given
/// as `unknown`.
pub fn bind(
    c: &Catalog,
    declared: &[TypeNo],
    declared_result: TypeNo,
    inputs: &[TypeNo],
    out: &mut [TypeNo],
) -> Binding
    requires lengths { length declared.now ≡ length inputs.now }
    requires out { length out.old ≡ length inputs.now }
    requires few { length inputs.now ≤ ARGUMENT_LIMIT }
    requires declared { AreTypes c.now declared.now }
    requires declared_result { IsType c.now declared_result }
    requires inputs { AreTypes c.now inputs.now }
    ensures binding { result ≡ bound c.now declared.now declared_result inputs.now }
    ensures out { out.new ≡ cond (is_indeterminate c.now declared.now inputs.now) out.old (concrete_types c.now (zip declared.now inputs.now)) }
    ensures within { IfConcrete result (IsType c.now) }
    ensures out_within { IfConcrete result (λ ty. AreTypes c.now out.new) }
{
    let mut first = [NOTHING; ROOM];
    let first_count = given(c, Family::First, declared, inputs, &mut first);
    let first = &first[..first_count];
    if is_indeterminate(c, declared, first) {
        return Binding::Indeterminate;
    }
    let mut second = [NOTHING; ROOM];
    let second_count = given(c, Family::Second, declared, inputs, &mut second);
    let both = Bonds {
        first: first_bond(c, first),
        second: second_bond(c, &second[..second_count]),
    };
    write_types(c, both, declared, inputs, out);
    Binding::Concrete(concrete(c, both, declared_result, UNKNOWN))
}
