//! The common type of several inputs (manual 10.5).
ghost use Rattle.std.specs.Prelude.{◌≡◌, ◌<◌, All, true, IsSome, codes, length, position};
ghost use Rattle.std.specs.List.{list_all};
ghost use Rattle.xp_catalog.specs.Lookups.{type_named};
ghost use Rattle.xp_types.specs.Readers.{is_known, is_same};
ghost use Rattle.xp_types.specs.Common.{IfOne, are_of, candidate_of, common, common_of, considered, converted, selected, shared_type, text};
ghost use Rattle.xp_types.specs.Paths.{converts};
ghost use Rattle.xp_types.specs.Within.{AreTypes, IsType};

use crate::paths::converts;
use crate::readers::{UNKNOWN, base, category, is_known, preferred};
use xp_base::TypeNo;
use xp_catalog::Catalog;

/// What several inputs come to.
#[derive(Clone, Copy, Debug, PartialEq, Eq)]
pub enum CommonType {
    /// This type, to which each input has an implicit path.
    One(TypeNo),
    /// The known inputs have more than one category.
    Mixed,
    /// The input at this place, counted from 0, has no implicit path to the type that was selected.
    NoPath { at: usize },
}

/// Whether the others are the same type.
fn are_same(first: TypeNo, others: &[TypeNo]) -> bool
    ensures { result ≡ list_all (is_same first) others.now }
{
    others.iter().all(|other| first.0 == other.0)
}

/// The type of all inputs, where they have one and it is known.
fn shared_type(inputs: &[TypeNo]) -> Option<TypeNo>
    requires { 0 < length inputs.now }
    ensures { result ≡ shared_type inputs.now }
{
    let first = inputs[0];
    if is_known(first) && are_same(first, &inputs[1..]) {
        Some(first)
    } else {
        None
    }
}

/// The place of the first known input.
fn first_known(inputs: &[TypeNo]) -> Option<usize>
    ensures { result ≡ position is_known inputs.now }
{
    inputs.iter().position(|input| is_known(*input))
}

/// The type `text`.
fn text(c: &Catalog) -> TypeNo
    requires { IsSome (type_named c.now (codes "text")) }
    ensures value { result ≡ text c.now }
    ensures within { IsType c.now result }
{
    match c.type_named("text") {
        Some(text) => text,
        None => UNKNOWN,
    }
}

/// Whether the known inputs are of the category.
fn are_of(c: &Catalog, letter: u8, inputs: &[TypeNo]) -> bool
    requires { AreTypes c.now inputs.now }
    ensures { result ≡ are_of c.now letter (considered c.now inputs.now) }
{
    for input in inputs {
        if is_known(*input) && category(c, base(c, *input)) != letter {
            return false;
        }
    }
    true
}

fn selected(c: &Catalog, candidate: TypeNo, other: TypeNo) -> TypeNo
    requires candidate { IsType c.now candidate }
    requires other { IsType c.now other }
    ensures value { result ≡ selected c.now candidate other }
    ensures within { IsType c.now result }
{
    if converts(c, candidate, other) && !converts(c, other, candidate) {
        other
    } else {
        candidate
    }
}

/// The type that is selected among the first and the known ones of the other inputs.
fn candidate_of(c: &Catalog, first: TypeNo, others: &[TypeNo]) -> TypeNo
    requires first { IsType c.now first }
    requires others { AreTypes c.now others.now }
    ensures value { result ≡ candidate_of c.now first (considered c.now others.now) }
    ensures within { IsType c.now result }
{
    let mut candidate = first;
    for other in others {
        if preferred(c, candidate) {
            return candidate;
        }
        if is_known(*other) {
            candidate = selected(c, candidate, base(c, *other));
        }
    }
    candidate
}

/// The type, if each input can be converted to it.
fn converted(c: &Catalog, inputs: &[TypeNo], ty: TypeNo) -> CommonType
    requires inputs { AreTypes c.now inputs.now }
    requires ty { IsType c.now ty }
    ensures value { result ≡ converted c.now inputs.now ty }
    ensures within { IfOne result (IsType c.now) }
    ensures converts { IfOne result (λ t. All (λ s. converts c.now s t ≡ true) inputs.now) }
{
    for (place, input) in inputs.iter().enumerate() {
        if !converts(c, *input, ty) {
            return CommonType::NoPath { at: place };
        }
    }
    CommonType::One(ty)
}

/// The steps behind the first.
fn common_of(c: &Catalog, inputs: &[TypeNo]) -> CommonType
    requires inputs { AreTypes c.now inputs.now }
    requires text { IsSome (type_named c.now (codes "text")) }
    ensures value { result ≡ common_of c.now inputs.now (considered c.now inputs.now) }
    ensures within { IfOne result (IsType c.now) }
    ensures converts { IfOne result (λ t. All (λ s. converts c.now s t ≡ true) inputs.now) }
{
    match first_known(inputs) {
        None => CommonType::One(text(c)),
        Some(place) => {
            let first = base(c, inputs[place]);
            let others = &inputs[place + 1..];
            if are_of(c, category(c, first), others) {
                converted(c, inputs, candidate_of(c, first, others))
            } else {
                CommonType::Mixed
            }
        }
    }
}

/// The type that the inputs of UNION, CASE, VALUES, ARRAY, COALESCE, GREATEST or LEAST come to.
pub fn common(c: &Catalog, inputs: &[TypeNo]) -> CommonType
    requires some { 0 < length inputs.now }
    requires inputs { AreTypes c.now inputs.now }
    requires text { IsSome (type_named c.now (codes "text")) }
    ensures value { result ≡ common c.now inputs.now }
    ensures within { IfOne result (IsType c.now) }
    ensures converts { IfOne result (λ t. All (λ s. converts c.now s t ≡ true) inputs.now) }
{
    match shared_type(inputs) {
        Some(ty) => CommonType::One(ty),
        None => common_of(c, inputs),
    }
}
