//! The rules that look at what a record adds, against the rows of the records before it. Those on
//! types are asked where each type that the record names is there.
ghost use Rattle.std.specs.Prelude.{◌≡◌, ◌<◌, is_some, length, option_map, slice_get, true};
ghost use Rattle.std.specs.List.{All, list_any};
ghost use Rattle.xp_catalog.specs.Lookups.{oper_at, operands};
ghost use Rattle.xp_catalog.specs.Rules.{casts_by, has_function, has_good_args, has_good_base, has_good_last, has_known_types, has_member, is_any_kind, is_castable, is_domain_kind, is_member, is_new, is_pseudo_kind, kind_of, is_range_over, may_be_binary, may_be_variadic, name_of, takes_exactly};
ghost use Rattle.xp_loader.specs.Refusing.{fits_body};

use crate::types::{is_opaque, kind_of, name_of};
use xp_base::{ARGUMENT_LIMIT, RowNo, TypeNo};
use xp_bodies::fits;
use xp_catalog::names::{is_plain, is_pseudo, is_range, is_text_type};
use xp_catalog::{
    CastMethod, CastRow, Catalog, Family, FuncRow, OperRow, PseudoType, Record, TypeKind,
};

fn is_old_operator(c: &Catalog, oper: &OperRow) -> bool
    ensures { result ≡ is_some (oper_at c.now oper.now.name (operands oper.now.left oper.now.right)) }
{
    let name = oper.name.as_str();
    match oper.left {
        Some(left) => c.oper_at(name, &[left, oper.right]).is_some(),
        None => c.oper_at(name, &[oper.right]).is_some(),
    }
}

/// Whether no earlier record gave what this one gives.
pub fn is_new(c: &Catalog, r: &Record) -> bool
    ensures { result ≡ is_new c.now r.now }
{
    match r {
        Record::Plain { name, .. } | Record::Range { name, .. } | Record::Domain { name, .. } => {
            !c.type_named(name.as_str()).is_some()
        }
        Record::Cast(cast) => !c.cast_between(cast.from, cast.to).is_some(),
        Record::Function(func) => !c
            .func_at(func.name.as_str(), func.args.as_slice())
            .is_some(),
        Record::Operator(oper) => !is_old_operator(c, oper),
    }
}

fn is_range_over(name: &[u8], subtype: &[u8]) -> bool
    ensures { result ≡ is_range_over name.now subtype.now }
{
    if name == b"int4range".as_slice() {
        subtype == b"int4".as_slice()
    } else if name == b"int8range".as_slice() {
        subtype == b"int8".as_slice()
    } else if name == b"daterange".as_slice() {
        subtype == b"date".as_slice()
    } else {
        subtype == b"int4".as_slice()
            || subtype == b"int8".as_slice()
            || subtype == b"date".as_slice()
    }
}

fn is_domain(c: &Catalog, ty: TypeNo) -> bool
    requires { ty.0 < length c.now.types }
    ensures { result ≡ is_domain_kind (kind_of c.now ty) }
{
    matches!(kind_of(c, ty), TypeKind::Domain { .. })
}

fn is_pseudo_type(c: &Catalog, ty: TypeNo) -> bool
    requires { ty.0 < length c.now.types }
    ensures { result ≡ is_pseudo_kind (kind_of c.now ty) }
{
    matches!(kind_of(c, ty), TypeKind::Pseudo(_))
}

/// Whether a type is one over which a record's kind may define one, and the name one which it may give.
pub fn has_good_base(c: &Catalog, r: &Record) -> bool
    requires { has_known_types c.now r.now ≡ true }
    ensures { result ≡ has_good_base c.now r.now }
{
    match r {
        Record::Plain { name, .. } => !is_range(name.as_str().as_bytes()),
        Record::Range { name, subtype, .. } => {
            let name = name.as_str().as_bytes();
            !is_plain(name) && !is_pseudo(name) && is_range_over(name, name_of(c, *subtype))
        }
        Record::Domain { name, base, .. } => {
            let name = name.as_str().as_bytes();
            !is_domain(c, *base)
                && !is_pseudo_type(c, *base)
                && !is_plain(name)
                && !is_pseudo(name)
                && !is_range(name)
        }
        Record::Cast(_) | Record::Function(_) | Record::Operator(_) => true,
    }
}

fn is_any(c: &Catalog, ty: TypeNo) -> bool
    requires { ty.0 < length c.now.types }
    ensures { result ≡ is_any_kind (kind_of c.now ty) }
{
    matches!(kind_of(c, ty), TypeKind::Pseudo(PseudoType::Any))
}

fn may_be_variadic(c: &Catalog, ty: TypeNo) -> bool
    requires { ty.0 < length c.now.types }
    ensures { result ≡ may_be_variadic c.now ty }
{
    matches!(
        kind_of(c, ty),
        TypeKind::Array { .. }
            | TypeKind::Pseudo(
                PseudoType::Any | PseudoType::AnyArray | PseudoType::AnyCompatibleArray
            )
    )
}

fn has_good_last(c: &Catalog, variadic: bool, args: &[TypeNo]) -> bool
    requires { All (λ ty. ty.0 < length c.now.types) args.now }
    ensures { result ≡ has_good_last c.now variadic args.now }
{
    if !variadic {
        return true;
    }
    match args.last() {
        Some(last) => may_be_variadic(c, *last),
        None => false,
    }
}

fn is_member(c: &Catalog, family: Family, ty: TypeNo) -> bool
    requires { ty.0 < length c.now.types }
    ensures { result ≡ is_member family (kind_of c.now ty) }
{
    match kind_of(c, ty) {
        TypeKind::Pseudo(pseudo) => pseudo.is_of(family),
        _ => false,
    }
}

fn has_argument(c: &Catalog, family: Family, args: &[TypeNo]) -> bool
    requires { All (λ ty. ty.0 < length c.now.types) args.now }
    ensures { result ≡ list_any (λ arg. is_member family (kind_of c.now arg)) args.now }
{
    for arg in args {
        if is_member(c, family, *arg) {
            return true;
        }
    }
    false
}

fn has_member(c: &Catalog, family: Family, args: &[TypeNo], gives: TypeNo) -> bool
    requires args { All (λ ty. ty.0 < length c.now.types) args.now }
    requires gives { gives.0 < length c.now.types }
    ensures { result ≡ has_member c.now family args.now gives }
{
    !is_member(c, family, gives) || has_argument(c, family, args)
}

fn has_good_signature(c: &Catalog, func: &FuncRow) -> bool
    requires { has_known_types c.now (Record.Function func.now) ≡ true }
    ensures { result ≡ has_good_args c.now (Record.Function func.now) }
{
    func.args.len() <= ARGUMENT_LIMIT as usize
        && has_good_last(c, func.variadic, func.args.as_slice())
        && !is_any(c, func.result)
        && has_member(c, Family::First, func.args.as_slice(), func.result)
        && has_member(c, Family::Second, func.args.as_slice(), func.result)
}

fn has_good_operands(c: &Catalog, oper: &OperRow) -> bool
    requires { has_known_types c.now (Record.Operator oper.now) ≡ true }
    ensures { result ≡ has_good_args c.now (Record.Operator oper.now) }
{
    match oper.left {
        Some(left) => !is_any(c, left) && !is_any(c, oper.right),
        None => !is_any(c, oper.right),
    }
}

fn may_be_binary(c: &Catalog, cast: &CastRow) -> bool
    requires { has_known_types c.now (Record.Cast cast.now) ≡ true }
    ensures { result ≡ may_be_binary c.now cast.now }
{
    is_opaque(c, cast.from)
        || is_opaque(c, cast.to)
        || (is_text_type(name_of(c, cast.from)) && is_text_type(name_of(c, cast.to)))
}

fn is_castable(c: &Catalog, ty: TypeNo) -> bool
    requires { ty.0 < length c.now.types }
    ensures { result ≡ is_castable c.now ty }
{
    !is_domain(c, ty) && !is_pseudo_type(c, ty)
}

fn has_good_types(c: &Catalog, cast: &CastRow) -> bool
    requires { has_known_types c.now (Record.Cast cast.now) ≡ true }
    ensures { result ≡ has_good_args c.now (Record.Cast cast.now) }
{
    is_castable(c, cast.from)
        && is_castable(c, cast.to)
        && cast.from != cast.to
        && (cast.method != CastMethod::Binary || may_be_binary(c, cast))
}

/// Whether a function's arguments and result, an operator's operands and a cast's types may stand together.
pub fn has_good_args(c: &Catalog, r: &Record) -> bool
    requires { has_known_types c.now r.now ≡ true }
    ensures { result ≡ has_good_args c.now r.now }
{
    match r {
        Record::Function(func) => has_good_signature(c, func),
        Record::Operator(oper) => has_good_operands(c, oper),
        Record::Cast(cast) => has_good_types(c, cast),
        Record::Plain { .. } | Record::Range { .. } | Record::Domain { .. } => true,
    }
}

fn func_row(c: &Catalog, number: RowNo) -> Option<&FuncRow>
    ensures { option_map (λ row. row.now) result ≡ slice_get c.now.funcs number.0 }
{
    if number.0 < c.counts().funcs {
        Some(c.func_row(number))
    } else {
        None
    }
}

fn takes_exactly(c: &Catalog, number: RowNo, args: &[TypeNo]) -> bool
    ensures { result ≡ takes_exactly c.now number args.now }
{
    match func_row(c, number) {
        Some(func) => func.args.as_slice() == args,
        None => false,
    }
}

fn casts_by(c: &Catalog, number: RowNo, from: TypeNo, to: TypeNo) -> bool
    ensures { result ≡ casts_by c.now number from to }
{
    match func_row(c, number) {
        Some(func) => func.args.as_slice() == [from].as_slice() && func.result == to,
        None => false,
    }
}

fn has_cast_function(c: &Catalog, cast: &CastRow) -> bool
    ensures { result ≡ has_function c.now (Record.Cast cast.now) }
{
    match cast.method {
        CastMethod::Function(number) => casts_by(c, number, cast.from, cast.to),
        CastMethod::Binary | CastMethod::None => true,
    }
}

fn has_oper_function(c: &Catalog, oper: &OperRow) -> bool
    ensures { result ≡ has_function c.now (Record.Operator oper.now) }
{
    match oper.left {
        Some(left) => takes_exactly(c, oper.function, &[left, oper.right]),
        None => takes_exactly(c, oper.function, &[oper.right]),
    }
}

/// Whether the function that a cast or an operator names is there.
pub fn has_function(c: &Catalog, r: &Record) -> bool
    ensures { result ≡ has_function c.now r.now }
{
    match r {
        Record::Cast(cast) => has_cast_function(c, cast),
        Record::Operator(oper) => has_oper_function(c, oper),
        Record::Plain { .. } | Record::Range { .. } | Record::Domain { .. } | Record::Function(_) =>
            true,
    }
}

/// Whether a function is as its body says.
pub fn fits_body(c: &Catalog, r: &Record) -> bool
    requires { has_known_types c.now r.now ≡ true }
    ensures { result ≡ fits_body c.now r.now }
{
    match r {
        Record::Function(func) => fits(c, func),
        _ => true,
    }
}
