//! What the parameters of a call ask of its arguments.
ghost use Rattle.std.specs.Prelude.{◌≡◌, ◌<◌, ◌≤◌, ◌+◌, ◌==◌, ◌&&◌, IfOk, IfSome, Some, [], length, true, zip};
ghost use Rattle.xp_types.specs.Common.{text};
ghost use Rattle.xp_types.specs.Readers.{element};
ghost use Rattle.std.specs.List.{All};
ghost use Rattle.xp_types.specs.Within.{AreTypes, IsType};
ghost use Rattle.xp_resolve.specs.Targets as spec;
ghost use Rattle.xp_resolve.specs.inner.Sources.{IsTarget};

use crate::nodes::Taking;
use sqlite_items::Items;
use std::alloc::Global;
use xp_base::{Memory, TypeNo};
use xp_catalog::Catalog;
use xp_poly::{Form, Role, declared_role};
use xp_types::{UNKNOWN, array_of, element, is_array, subtype};

/// What an argument is converted to.
#[derive(Clone, Copy, Debug, PartialEq, Eq)]
pub enum Target {
    /// A value of the type.
    Of(TypeNo),
    /// A text, by an explicit cast.
    Text,
    /// The text that stands for the value.
    Written,
    /// An array of the texts that stand for the elements.
    ElementsWritten,
}

pub type Targets = Items<Target>;

fn if_there(there: bool, ty: TypeNo) -> Option<Target>
    ensures { result ≡ spec.if_there there ty }
{
    if there { Some(Target::Of(ty)) } else { None }
}

fn by_member(taking: Taking, c: &Catalog, ty: TypeNo, form: Form) -> Option<Target>
    requires { IsType c.now ty }
    ensures value { result ≡ spec.by_member taking c.now ty form }
    ensures within { IfSome result (IsTarget c.now) }
{
    match (taking, form) {
        (Taking::AsText, Form::Element | Form::NonArray) => Some(Target::Text),
        (Taking::ElementsAsText, Form::Array) => Some(Target::ElementsWritten),
        (_, Form::Element | Form::NonArray) => Some(Target::Of(ty)),
        (_, Form::Array) => if_there(is_array(c, ty), ty),
        (_, Form::Range) => if_there(subtype(c, ty).is_some(), ty),
    }
}

fn by_any(spread: bool) -> Target
    ensures { result ≡ spec.by_any spread }
{
    if spread {
        Target::ElementsWritten
    } else {
        Target::Written
    }
}

/// What a declared type asks for, for which `ty` stands in the call.
fn target_of(
    taking: Taking,
    c: &Catalog,
    spread: bool,
    declared: TypeNo,
    ty: TypeNo,
) -> Option<Target>
    requires declared { IsType c.now declared }
    requires ty { IsType c.now ty }
    ensures value { result ≡ spec.target_of taking c.now spread (declared, ty) }
    ensures within { IfSome result (IsTarget c.now) }
{
    match declared_role(c, declared) {
        Role::Plain => Some(Target::Of(ty)),
        Role::Any => Some(by_any(spread)),
        Role::Member { form, .. } => by_member(taking, c, ty, form),
    }
}

/// Whether the argument at that place is spread.
fn is_spread(variadic: bool, place: usize, count: usize) -> bool
    requires { place < count }
    ensures { result ≡ (variadic && (place + 1 == count)) }
{
    variadic && place + 1 == count
}

/// What each asks for, from left to right; of a variadic record the last argument is spread.
#[tactic(auto, using(crate::proofs::TargetLists::stopped, crate::proofs::TargetLists::at_end))]
fn each_target(
    alloc: Global,
    taking: Taking,
    c: &Catalog,
    variadic: bool,
    declared: &[TypeNo],
    types: &[TypeNo],
) -> Result<Option<Targets>, Memory>
    requires lengths { length declared.now ≡ length types.now }
    requires declared { AreTypes c.now declared.now }
    requires types { AreTypes c.now types.now }
    ensures value { IfOk result (λ list. list ≡ spec.targets taking c.now variadic [] (zip declared.now types.now)) }
    ensures within { IfOk result (λ list. IfSome list (λ ts. All (IsTarget c.now) ts)) }
{
    let mut list = Items::new(alloc);
    for place in 0..declared.len() {
        let spread = is_spread(variadic, place, declared.len());
        match target_of(taking, c, spread, declared[place], types[place]) {
            Some(target) => list.push(target)?,
            None => return Ok(None),
        }
    }
    Ok(Some(list))
}

/// The targets with that many of one behind them.
fn with_copies(targets: Targets, each: Target, copies: usize) -> Result<Targets, Memory>
    ensures { IfOk result (λ list. list ≡ spec.with_copies targets copies each) }
{
    let mut list = targets;
    for _copy in 0..copies {
        list.push(each)?;
    }
    Ok(list)
}

/// What the last one asks for.
#[tactic(auto, using(crate::proofs::TargetLists::last_pair, crate::proofs::TargetLists::no_last_pair, crate::proofs::TargetLists::no_other_pair))]
fn last_target(taking: Taking, c: &Catalog, declared: &[TypeNo], types: &[TypeNo]) -> Option<Target>
    requires lengths { length declared.now ≡ length types.now }
    requires declared { AreTypes c.now declared.now }
    requires types { AreTypes c.now types.now }
    ensures value { result ≡ spec.last_target taking c.now (zip declared.now types.now) }
    ensures within { IfSome result (IsTarget c.now) }
{
    match (declared.last(), types.last()) {
        (Some(declared), Some(ty)) => target_of(taking, c, false, *declared, *ty),
        _ => None,
    }
}

/// What the arguments of a variadic parameter ask for, and those in front of them.
#[tactic(auto, using(crate::proofs::TargetLists::in_front, crate::proofs::TargetLists::all_copies))]
fn spread_targets(
    alloc: Global,
    taking: Taking,
    c: &Catalog,
    extra: usize,
    declared: &[TypeNo],
    types: &[TypeNo],
) -> Result<Option<Targets>, Memory>
    requires lengths { length declared.now ≡ length types.now }
    requires declared { AreTypes c.now declared.now }
    requires types { AreTypes c.now types.now }
    requires extra { extra ≤ length declared.now }
    ensures value { IfOk result (λ list. list ≡ spec.spread_targets taking c.now extra (zip declared.now types.now)) }
    ensures within { IfOk result (λ list. IfSome list (λ ts. All (IsTarget c.now) ts)) }
{
    let front = declared.len() - extra;
    let Some(list) = each_target(alloc, taking, c, false, &declared[..front], &types[..front])?
    else {
        return Ok(None);
    };
    match last_target(taking, c, declared, types) {
        Some(each) => Ok(Some(with_copies(list, each, extra)?)),
        None => Ok(None),
    }
}

/// What the declared types ask of the arguments, of which `extra` stand for the elements of a variadic
/// parameter.
pub fn targets_of(
    alloc: Global,
    taking: Taking,
    c: &Catalog,
    variadic: bool,
    extra: usize,
    declared: &[TypeNo],
    types: &[TypeNo],
) -> Result<Option<Targets>, Memory>
    requires lengths { length declared.now ≡ length types.now }
    requires declared { AreTypes c.now declared.now }
    requires types { AreTypes c.now types.now }
    requires extra { extra ≤ length declared.now }
    ensures value { IfOk result (λ list. list ≡ spec.targets_of taking c.now variadic extra (zip declared.now types.now)) }
    ensures within { IfOk result (λ list. IfSome list (λ ts. All (IsTarget c.now) ts)) }
{
    if extra == 0 {
        each_target(alloc, taking, c, variadic, declared, types)
    } else {
        spread_targets(alloc, taking, c, extra, declared, types)
    }
}

/// The type text, and `unknown` in a catalogue without it.
#[tactic(auto, using(xp_coerce::proofs::Constants::some_types))]
fn text_or_unknown(c: &Catalog) -> TypeNo
    ensures value { result ≡ text c.now }
    ensures within { IsType c.now result }
{
    // the type `unknown` is one of every catalogue
    c.is_well_formed_law();
    c.type_named("text").unwrap_or(UNKNOWN)
}

/// The type of an argument that is converted.
#[tactic(auto, using(xp_coerce::proofs::Constants::some_types))]
pub fn type_at(c: &Catalog, target: Target) -> TypeNo
    requires { IsTarget c.now target }
    ensures value { result ≡ spec.type_at c.now target }
    ensures within { IsType c.now result }
{
    // the type `unknown` is one of every catalogue
    c.is_well_formed_law();
    match target {
        Target::Of(ty) => ty,
        Target::Text | Target::Written => text_or_unknown(c),
        Target::ElementsWritten => array_of(c, text_or_unknown(c)).unwrap_or(UNKNOWN),
    }
}

fn is_array_over(c: &Catalog, array: TypeNo, ty: TypeNo) -> bool
    requires { IsType c.now array }
    ensures value { result ≡ spec.is_array_over c.now array ty }
    ensures over { result ≡ true → element c.now array ≡ Some ty }
{
    match element(c, array) {
        Some(element) => element == ty,
        None => false,
    }
}

/// The array type that arguments of a variadic parameter of that type make together.
pub fn spread_type(c: &Catalog, declared: TypeNo, each: Target) -> Option<TypeNo>
    requires declared { IsType c.now declared }
    requires each { IsTarget c.now each }
    ensures value { result ≡ spec.spread_type c.now declared each }
    ensures within { IfSome result (IsType c.now) }
    ensures over { IfSome result (λ array. element c.now array ≡ Some (spec.type_at c.now each)) }
{
    let ty = type_at(c, each);
    if is_array_over(c, declared, ty) {
        Some(declared)
    } else {
        array_of(c, ty)
    }
}
