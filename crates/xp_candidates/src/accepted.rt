//! The candidates that accept the inputs.
ghost use Rattle.std.specs.Prelude.{◌≡◌, ◌<◌, ◌≤◌, IfOk, false, length, map};
ghost use Rattle.std.specs.List.{All};
ghost use Rattle.std.specs.Option.{ForSome};
ghost use Rattle.xp_base.specs.declared.limits.TheConstants.{ARGUMENT_LIMIT};
ghost use Rattle.xp_types.specs.Within.{AreTypes};
ghost use Rattle.xp_catalog.specs.Rules.{last_of};
ghost use Rattle.xp_poly.specs.Acceptance.{accepts};
ghost use Rattle.xp_candidates.specs.Accepted.{IsCandidate, accepts_variadic_any, is_any, is_array_based, takes, takes_as};

use crate::Candidate;
use crate::known::taken_as;
use std::alloc::{AllocError, Global};
use xp_base::TypeNo;
use xp_catalog::{Catalog, PseudoType};
use xp_poly::accepts;
use xp_types::{base, is_array, is_known, pseudo_type};

fn is_any(of: Option<PseudoType>) -> bool
    ensures { result ≡ is_any of }
{
    matches!(of, Some(PseudoType::Any))
}

fn is_array_based(c: &Catalog, ty: TypeNo) -> bool
    requires { ty.0 < length c.now.types }
    ensures { result ≡ is_array_based c.now ty }
{
    is_known(ty) && is_array(c, base(c, ty))
}

/// Whether behind the word VARIADIC the last input may stand at the last type.
fn accepts_variadic_any(c: &Catalog, declared: &[TypeNo], inputs: &[TypeNo]) -> bool
    requires declared { AreTypes c.now declared.now }
    requires inputs { AreTypes c.now inputs.now }
    ensures { result ≡ accepts_variadic_any c.now (last_of declared.now) (last_of inputs.now) }
{
    match (declared.last(), inputs.last()) {
        (Some(ty), Some(input)) => !is_any(pseudo_type(c, *ty)) || is_array_based(c, *input),
        _ => true,
    }
}

fn takes(c: &Catalog, candidate: &Candidate, inputs: &[TypeNo], variadic: bool) -> bool
    requires candidate { IsCandidate c.now (length inputs.now) candidate.now }
    requires inputs { AreTypes c.now inputs.now }
    requires room { length inputs.now ≤ ARGUMENT_LIMIT }
    ensures { result ≡ takes c.now variadic inputs.now candidate.now }
{
    let declared = candidate.declared.as_slice();
    accepts(c, declared, inputs) && (!variadic || accepts_variadic_any(c, declared, inputs))
}

/// Marks the candidates that accept the inputs.
pub fn mark_taking(
    alloc: Global,
    c: &Catalog,
    candidates: &[Candidate],
    inputs: &[TypeNo],
    variadic: bool,
) -> Result<Vec<bool>, AllocError>
    requires candidates { All (IsCandidate c.now (length inputs.now)) candidates.now }
    requires inputs { AreTypes c.now inputs.now }
    requires room { length inputs.now ≤ ARGUMENT_LIMIT }
    ensures { IfOk result (λ marks. marks.items ≡ map (takes c.now variadic inputs.now) candidates.now) }
{
    let mut marks = Vec::new(alloc);
    for candidate in candidates {
        marks.push(takes(c, candidate, inputs, variadic))?;
    }
    Ok(marks)
}

/// Marks the candidates that accept these types.
fn mark_accepting(
    alloc: Global,
    c: &Catalog,
    candidates: &[Candidate],
    types: &[TypeNo],
) -> Result<Vec<bool>, AllocError>
    requires candidates { All (IsCandidate c.now (length types.now)) candidates.now }
    requires types { AreTypes c.now types.now }
    requires room { length types.now ≤ ARGUMENT_LIMIT }
    ensures { IfOk result (λ marks. marks.items ≡ map (λ candidate. accepts c.now candidate.declared types.now) candidates.now) }
{
    let mut marks = Vec::new(alloc);
    for candidate in candidates {
        marks.push(accepts(c, candidate.declared.as_slice(), types))?;
    }
    Ok(marks)
}

fn mark_none(alloc: Global, candidates: &[Candidate]) -> Result<Vec<bool>, AllocError>
    ensures { IfOk result (λ marks. marks.items ≡ map (λ candidate. false) candidates.now) }
{
    let mut marks = Vec::new(alloc);
    for _candidate in candidates {
        marks.push(false)?;
    }
    Ok(marks)
}

/// Marks the candidates that accept the inputs with the unknown ones taken as that type, and none
/// where there is no such type.
pub fn mark_taking_as(
    alloc: Global,
    c: &Catalog,
    candidates: &[Candidate],
    inputs: &[TypeNo],
    known: Option<TypeNo>,
) -> Result<Vec<bool>, AllocError>
    requires candidates { All (IsCandidate c.now (length inputs.now)) candidates.now }
    requires inputs { AreTypes c.now inputs.now }
    requires room { length inputs.now ≤ ARGUMENT_LIMIT }
    requires known { ForSome known (λ type. type.0 < length c.now.types) }
    ensures { IfOk result (λ marks. marks.items ≡ map (takes_as c.now known inputs.now) candidates.now) }
{
    match known {
        Some(ty) => {
            let types = taken_as(alloc, c, ty, inputs)?;
            mark_accepting(alloc, c, candidates, types.as_slice())
        }
        None => mark_none(alloc, candidates),
    }
}
