//! Variadic records with their last parameter as several arguments.
ghost use Rattle.std.specs.Prelude.{◌≡◌, ◌+◌, ◌<◌, ◌≤◌, IfOk, IfSome, length, replicate, take, ◌++◌};
ghost use Rattle.std.specs.Option.{ForSome};
ghost use Rattle.xp_base.specs.declared.limits.TheConstants.{ARGUMENT_LIMIT};
ghost use Rattle.xp_types.specs.Within.{AreTypes};
ghost use Rattle.xp_catalog.specs.Known.{IsKnownFunc};
ghost use Rattle.xp_candidates.specs.Accepted.{IsCandidate};
ghost use Rattle.xp_func.specs.Candidates.{element_of, expanded_of, expansion};

use sqlite_items::Items;
use std::alloc::{AllocError, Global};
use xp_base::{RowNo, TypeNo};
use xp_candidates::Candidate;
use xp_catalog::{Catalog, FuncRow, PseudoType};
use xp_types::{element, pseudo_type};

/// The type of one argument of a variadic parameter of that type.
fn element_of(c: &Catalog, ty: TypeNo) -> Option<TypeNo>
    requires { ty.0 < length c.now.types }
    ensures value { result ≡ element_of c.now ty }
    ensures within { IfSome result (λ type. type.0 < length c.now.types) }
{
    match pseudo_type(c, ty) {
        Some(PseudoType::Any) => Some(ty),
        Some(PseudoType::AnyArray) => c.type_named("anyelement"),
        Some(PseudoType::AnyCompatibleArray) => c.type_named("anycompatible"),
        _ => element(c, ty),
    }
}

/// The types with that many of one type behind them.
fn with_copies(
    alloc: Global,
    c: &Catalog,
    types: &[TypeNo],
    ty: TypeNo,
    copies: usize,
) -> Result<Items<TypeNo>, AllocError>
    requires types { AreTypes c.now types.now }
    requires ty { ty.0 < length c.now.types }
    ensures value { IfOk result (λ list. list ≡ types.now ++ replicate copies ty) }
    ensures known { IfOk result (λ list. AreTypes c.now list) }
{
    let mut list = Items::from_slice(alloc, types)?;
    for _copy in 0..copies {
        list.push(ty)?;
    }
    Ok(list)
}

/// A variadic record for a call of `count` arguments, which are one at least for its last
/// parameter.
pub fn expansion(
    alloc: Global,
    c: &Catalog,
    count: usize,
    number: u32,
    func: &FuncRow,
) -> Result<Option<Candidate>, AllocError>
    requires known { IsKnownFunc c.now func.now }
    requires number { number < length c.now.funcs }
    requires room { count ≤ ARGUMENT_LIMIT }
    ensures value { IfOk result (λ form. form ≡ expansion c.now count number func.now) }
    ensures known { IfOk result (λ form. ForSome form (IsCandidate c.now count)) }
    ensures row { IfOk result (λ form. ForSome form (λ candidate. candidate.row.0 < length c.now.funcs)) }
{
    let args = func.args.as_slice();
    if args.len() > count {
        return Ok(None);
    }
    let Some(last) = args.last() else {
        return Ok(None);
    };
    let Some(ty) = element_of(c, *last) else {
        return Ok(None);
    };
    let front = args.len() - 1;
    let extra = count - front;
    Ok(Some(Candidate {
        row: RowNo(number),
        declared: with_copies(alloc, c, &args[..front], ty, extra)?,
        result_type: func.result,
        expanded: extra as u32,
    }))
}
