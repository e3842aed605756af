//! Whether the types to which a candidate's polymorphic types are bound are there.
ghost use Rattle.std.specs.Prelude.{◌≡◌, ◌<◌, ◌≤◌, length, true};
ghost use Rattle.std.specs.List.{list_all};
ghost use Rattle.xp_base.specs.declared.limits.TheConstants.{ARGUMENT_LIMIT};
ghost use Rattle.xp_types.specs.Within.{AreTypes};
ghost use Rattle.xp_poly.specs.Acceptance.{accepts};
ghost use Rattle.xp_candidates.specs.Accepted.{IsCandidate};
ghost use Rattle.xp_candidates.specs.Bound.{binds, has_array, is_element, is_of_elements, is_there};
ghost use Rattle.xp_types.specs.Readers.{is_known};

use crate::Candidate;
use xp_base::{ARGUMENT_LIMIT, TypeNo};
use xp_catalog::{Catalog, PseudoType};
use xp_poly::{Binding, bind};
use xp_types::{UNKNOWN, array_of, is_known, pseudo_type};

/// Room for a type at each input of a call.
const ROOM: usize = ARGUMENT_LIMIT as usize;

fn is_element(of: Option<PseudoType>) -> bool
    ensures { result ≡ is_element of }
{
    matches!(
        of,
        Some(PseudoType::AnyElement) | Some(PseudoType::AnyCompatible)
    )
}

/// Whether its last arguments stand for those of a polymorphic array.
fn is_of_elements(c: &Catalog, candidate: &Candidate) -> bool
    requires { AreTypes c.now candidate.now.declared }
    ensures { result ≡ is_of_elements c.now candidate.now }
{
    match candidate.declared.as_slice().last() {
        Some(ty) => candidate.expanded != 0 && is_element(pseudo_type(c, *ty)),
        None => false,
    }
}

/// Whether the type that the expanded arguments are bound to has an array type, where it must.
fn has_array(c: &Catalog, candidate: &Candidate, types: &[TypeNo]) -> bool
    requires candidate { AreTypes c.now candidate.now.declared }
    requires types { AreTypes c.now types.now }
    ensures { result ≡ has_array c.now candidate.now types.now }
{
    if !is_of_elements(c, candidate) {
        return true;
    }
    match types.last() {
        Some(ty) => array_of(c, *ty).is_some(),
        None => false,
    }
}

fn all_known(types: &[TypeNo]) -> bool
    ensures { result ≡ list_all is_known types.now }
{
    types.iter().all(|ty| is_known(*ty))
}

/// Whether the types that the candidate is bound to are there.
fn are_there(c: &Catalog, candidate: &Candidate, result_type: TypeNo, types: &[TypeNo]) -> bool
    requires candidate { AreTypes c.now candidate.now.declared }
    requires types { AreTypes c.now types.now }
    ensures { result ≡ is_there c.now candidate.now (Binding.Concrete result_type) types.now }
{
    is_known(result_type) && all_known(types) && has_array(c, candidate, types)
}

/// Whether each type that the candidate is bound to, by inputs that it accepts, is there.
pub fn binds(c: &Catalog, candidate: &Candidate, inputs: &[TypeNo]) -> bool
    requires candidate { IsCandidate c.now (length inputs.now) candidate.now }
    requires inputs { AreTypes c.now inputs.now }
    requires room { length inputs.now ≤ ARGUMENT_LIMIT }
    requires accepted { accepts c.now candidate.now.declared inputs.now ≡ true }
    ensures { result ≡ binds c.now inputs.now candidate.now }
{
    let mut out = [UNKNOWN; ROOM];
    let types = &mut out[..inputs.len()];
    match bind(
        c,
        candidate.declared.as_slice(),
        candidate.result_type,
        inputs,
        types,
    ) {
        Binding::Concrete(result_type) => are_there(c, candidate, result_type, types),
        Binding::Indeterminate => true,
    }
}
