//! What is left without a type in a catalogue without the type text.
ghost use Rattle.std.specs.Prelude.{◌≡◌, map, option_map};
ghost use Rattle.xp_analyse.specs.Untyped as spec;
ghost use Rattle.xp_analyse.specs.inner.Untyped.{arm_left};
ghost use Rattle.xp_analyse.specs.inner.Views.{list_in, lists_in};

use crate::lists::{ExpressionList, ExpressionLists};
use sqlite_items::Boxed;
use xp_catalog::Catalog;
use xp_grammar::{Arm, Ast, TruthTest};

/// What an expression leaves without a type.
#[derive(Clone, Copy, Debug, PartialEq, Eq)]
pub enum Untyped {
    Nothing,
    /// It is a literal or NULL at that place.
    Itself(u64),
    /// The first literal or NULL in it that is left stands at that place.
    Within(u64),
}

/// What two parts of a form leave.
fn first_of_two(left: Untyped, right: Untyped) -> Untyped
    ensures { result ≡ spec.first_of_two left right }
{
    match (left, right) {
        (Untyped::Within(at), _) | (Untyped::Nothing | Untyped::Itself(_), Untyped::Within(at)) =>
            Untyped::Within(at),
        _ => Untyped::Nothing,
    }
}

/// What IS NULL leaves over an operand.
fn under_null(operand: Untyped) -> Untyped
    ensures { result ≡ spec.under_null operand }
{
    match operand {
        Untyped::Itself(at) => Untyped::Within(at),
        other => other,
    }
}

/// What the expression leaves.
#[cycle(untyped)]
fn left_of(ast: &Ast) -> Untyped
    ensures { result ≡ spec.untyped ast.now }
{
    match ast {
        Ast::Number { .. }
        | Ast::Wide { .. }
        | Ast::Bool { .. }
        | Ast::Column { .. }
        | Ast::Typed { .. } => Untyped::Nothing,
        Ast::Text { at, .. } | Ast::Null { at } => Untyped::Itself(u64::from(at.start)),
        Ast::Paren { inner, .. } => left_of(inner.get()),
        Ast::Call { args, .. } | Ast::Selection { args, .. } | Ast::Substring { args, .. } => {
            left_of_all(args.as_slice())
        }
        Ast::Array { elements, .. } => left_of_all(elements.as_slice()),
        Ast::Cast { inner, .. } => first_of_two(left_of(inner.get()), Untyped::Nothing),
        Ast::Case {
            operand,
            arms,
            otherwise,
            ..
        } => {
            let behind = first_of_two(left_of_arms(arms.as_slice()), left_of_part(otherwise));
            first_of_two(left_of_part(operand), behind)
        }
        Ast::Position { part, whole, .. } => first_of_two(
            left_of(part.get()),
            left_of(whole.get()),
        ),
        Ast::SubstringFrom {
            text,
            from,
            length,
            ..
        } => {
            let behind = first_of_two(left_of_part(from), left_of_part(length));
            first_of_two(left_of(text.get()), behind)
        }
        Ast::Trim { text, set, .. } => first_of_two(left_of(text.get()), left_of_part(set)),
        Ast::TrimFrom { set, text, .. } => first_of_two(left_of_part(set), left_of(text.get())),
        Ast::Extract { source, .. } => first_of_two(left_of(source.get()), Untyped::Nothing),
        Ast::Subscript { array, index, .. } => first_of_two(
            left_of(array.get()),
            left_of(index.get()),
        ),
        Ast::Sign { arg, .. } | Ast::Prefix { arg, .. } | Ast::Not { arg, .. } => {
            first_of_two(left_of(arg.get()), Untyped::Nothing)
        }
        Ast::Between { arg, low, high, .. } => {
            first_of_two(
                left_of(arg.get()),
                first_of_two(left_of(low.get()), left_of(high.get())),
            )
        }
        Ast::In { arg, list, .. } => {
            first_of_two(left_of(arg.get()), left_of_all(list.as_slice()))
        }
        Ast::Is { test, arg, .. } => match test {
            TruthTest::Null => under_null(left_of(arg.get())),
            TruthTest::True | TruthTest::False | TruthTest::Unknown => {
                first_of_two(left_of(arg.get()), Untyped::Nothing)
            }
        },
        Ast::NullIf { left, right, .. }
        | Ast::Power { left, right, .. }
        | Ast::Product { left, right, .. }
        | Ast::Sum { left, right, .. }
        | Ast::Other { left, right, .. }
        | Ast::Like { left, right, .. }
        | Ast::Compare { left, right, .. }
        | Ast::IsDistinct { left, right, .. }
        | Ast::And { left, right, .. }
        | Ast::Or { left, right, .. } => first_of_two(left_of(left.get()), left_of(right.get())),
    }
}

/// What a part leaves that may be left out.
#[cycle(untyped)]
fn left_of_part(part: &Option<Boxed<Ast>>) -> Untyped
    ensures { result ≡ spec.in_part (option_map spec.untyped part.now) }
{
    match part {
        Some(part) => left_of(part.get()),
        None => Untyped::Nothing,
    }
}

/// What several parts leave.
#[cycle(untyped)]
#[tactic(auto, using(xp_base::proofs::Lists::drop_one, xp_base::proofs::Lists::drop_none))]
fn left_of_all(parts: &[Ast]) -> Untyped
    ensures { result ≡ spec.first_of_all (map spec.untyped parts.now) }
{
    'parts: for part in parts {
        if let Untyped::Within(at) = left_of(part) {
            return Untyped::Within(at);
        }
    }
    Untyped::Nothing
}

/// What an arm of CASE leaves.
#[cycle(untyped)]
fn left_of_arm(arm: &Arm) -> Untyped
    ensures { result ≡ arm_left arm.now }
{
    first_of_two(left_of(&arm.when), left_of(&arm.gives))
}

/// What the arms of CASE leave.
#[cycle(untyped)]
#[tactic(auto, using(xp_base::proofs::Lists::drop_one, xp_base::proofs::Lists::drop_none))]
fn left_of_arms(arms: &[Arm]) -> Untyped
    ensures { result ≡ spec.first_of_all (map arm_left arms.now) }
{
    'arms: for arm in arms {
        if let Untyped::Within(at) = left_of_arm(arm) {
            return Untyped::Within(at);
        }
    }
    Untyped::Nothing
}

fn place_in(left: Untyped) -> Option<u64>
    ensures { result ≡ spec.place_in left }
{
    match left {
        Untyped::Nothing => None,
        Untyped::Itself(at) | Untyped::Within(at) => Some(at),
    }
}

/// The place of the first literal that the expressions of a list leave, or are.
#[tactic(auto, using(xp_base::proofs::Lists::drop_one, xp_base::proofs::Lists::drop_none))]
fn first_left(list: ExpressionList<'_>) -> Option<u64>
    ensures { result ≡ spec.first_left (list_in list.entry) }
{
    for place in 0..list.len() {
        let left = place_in(left_of(list.at(place)));
        if left.is_some() {
            return left;
        }
    }
    None
}

/// The same of all lists.
#[tactic(auto, using(xp_base::proofs::Lists::drop_one, xp_base::proofs::Lists::drop_none))]
fn some_left(lists: ExpressionLists<'_>) -> Option<u64>
    ensures { result ≡ spec.some_left (lists_in lists.entry) }
{
    for place in 0..lists.len() {
        let left = first_left(lists.at(place));
        if left.is_some() {
            return left;
        }
    }
    None
}

/// The place, unless the catalogue has the type text.
fn without_text(c: &Catalog, place: Option<u64>) -> Option<u64>
    ensures { result ≡ spec.without_text c.now place }
{
    let at = place?;
    match c.type_named("text") {
        Some(_) => None,
        None => Some(at),
    }
}

/// The place of the first literal that is left without a type, where the catalogue has no type text.
pub fn left_without_text(c: &Catalog, lists: ExpressionLists<'_>) -> Option<u64>
    ensures { result ≡ spec.without_text c.now (spec.some_left (lists_in lists.entry)) }
{
    without_text(c, some_left(lists))
}

/// The same of what is stored: a source that is a literal gets the type in which it is stored.
pub fn left_in_source(c: &Catalog, source: &Ast) -> Option<u64>
    ensures { result ≡ spec.without_text c.now (spec.left_behind (spec.untyped source.now)) }
{
    match left_of(source) {
        Untyped::Within(at) => without_text(c, Some(at)),
        Untyped::Nothing | Untyped::Itself(_) => None,
    }
}
