//! The record that a call uses, and what its arguments are converted to.
ghost use Rattle.std.specs.Prelude.{◌≡◌, ◌<◌, ◌≤◌, IfOk, length, slice_get, zip};
ghost use Rattle.std.specs.List.{All};
ghost use Rattle.std.specs.Option.{ForSome};
ghost use Rattle.xp_base.specs.OrMemory.{OrMemory};
ghost use Rattle.xp_base.specs.declared.limits.TheConstants.{ARGUMENT_LIMIT};
ghost use Rattle.xp_candidates.specs.Accepted.{IsCandidate};
ghost use Rattle.xp_catalog.specs.Known.{IsKnownFunc};
ghost use Rattle.xp_poly.specs.Bound as binding;
ghost use Rattle.xp_types.specs.Within.{AreTypes};
ghost use Rattle.xp_resolve.specs.Calls as spec;
ghost use Rattle.xp_resolve.specs.Made.{is_memory};
ghost use Rattle.xp_resolve.specs.inner.Sources.{IsTarget};
ghost use Rattle.xp_resolve.specs.inner.Choices.{IsChoice, IsForm};

use crate::made::refused;
use crate::nodes::taking_of;
use crate::targets::{Targets, targets_of};
use std::alloc::Global;
use xp_base::{ARGUMENT_LIMIT, Code, Memory, RowNo, TypeNo};
use xp_candidates::Candidate;
use xp_catalog::{Catalog, FuncRow};
use xp_func::{expansion, unexpanded_of};
use xp_named::Refusal;
use xp_poly::{Binding, bind};
use xp_types::{UNKNOWN, is_known};

/// Room for one type at each argument of a call.
const ROOM: usize = ARGUMENT_LIMIT as usize;

/// The record that is chosen.
#[derive(Drop)]
pub struct Choice {
    /// The function's row.
    pub row: RowNo,
    /// How many arguments stand for the elements of a variadic parameter, and 0 where none do.
    pub extra: u32,
    /// What each argument is converted to.
    pub targets: Targets,
    /// The type of the result in this call.
    pub result: TypeNo,
}

/// The parameters at which so many arguments stand.
#[tactic(auto, using(crate::proofs::Forms::form_is))]
fn parameters(
    alloc: Global,
    c: &Catalog,
    count: usize,
    row: RowNo,
    extra: u32,
    func: &FuncRow,
) -> Result<Option<Candidate>, Memory>
    requires row { row.0 < length c.now.funcs }
    requires known { IsKnownFunc c.now func.now }
    requires room { count ≤ ARGUMENT_LIMIT }
    ensures value { IfOk result (λ candidate. candidate ≡ spec.parameters c.now count row extra func.now) }
    ensures known { IfOk result (λ candidate. ForSome candidate (IsCandidate c.now count)) }
    ensures form { IfOk result (λ candidate. ForSome candidate (IsForm func.now count)) }
{
    if extra != 0 {
        return Ok(expansion(alloc, c, count, row.0, func)?);
    }
    if func.args.len() != count {
        return Ok(None);
    }
    Ok(Some(unexpanded_of(alloc, row.0, func)?))
}

/// What the record asks of the arguments, for whose declared types these stand.
fn targeted(
    alloc: Global,
    c: &Catalog,
    at: u64,
    row: RowNo,
    func: &FuncRow,
    candidate: &Candidate,
    bound: TypeNo,
    types: &[TypeNo],
) -> Result<Choice, Refusal>
    requires candidate { IsCandidate c.now (length types.now) candidate.now }
    requires types { AreTypes c.now types.now }
    requires few { candidate.now.expanded ≤ length types.now }
    ensures value { OrMemory is_memory (spec.targeted c.now at row func.now candidate.now bound (zip candidate.now.declared types.now)) result }
    ensures within { IfOk result (λ choice. All (IsTarget c.now) choice.targets) }
{
    let taking = taking_of(func.body);
    let declared = candidate.declared.as_slice();
    let extra = candidate.expanded;
    match targets_of(
        alloc,
        taking,
        c,
        func.variadic,
        extra as usize,
        declared,
        types,
    )? {
        Some(targets) => Ok(Choice {
            row,
            extra,
            targets,
            result: bound,
        }),
        None => refused(Code::Undefined, at),
    }
}

/// What the record asks of the arguments, whose types it is bound to.
fn bound_choice(
    alloc: Global,
    c: &Catalog,
    at: u64,
    row: RowNo,
    func: &FuncRow,
    candidate: &Candidate,
    inputs: &[TypeNo],
) -> Result<Choice, Refusal>
    requires candidate { IsCandidate c.now (length inputs.now) candidate.now }
    requires inputs { AreTypes c.now inputs.now }
    requires room { length inputs.now ≤ ARGUMENT_LIMIT }
    requires there { slice_get c.now.funcs row.0 ≡ Some func.now }
    requires stands { IsForm func.now (length inputs.now) candidate.now }
    ensures value { OrMemory is_memory (spec.bound_choice c.now at row func.now candidate.now inputs.now (binding.bound c.now candidate.now.declared candidate.now.result_type inputs.now)) result }
    ensures choice { IfOk result (IsChoice c.now) }
    ensures count { IfOk result (λ choice. length choice.targets ≡ length inputs.now) }
{
    let mut out = [UNKNOWN; ROOM];
    let types = &mut out[..inputs.len()];
    let declared = candidate.declared.as_slice();
    let result = match bind(c, declared, candidate.result_type, inputs, types) {
        Binding::Indeterminate => return refused(Code::Indeterminate, at),
        Binding::Concrete(result) => result,
    };
    if !is_known(result) {
        return refused(Code::Undefined, at);
    }
    targeted(alloc, c, at, row, func, candidate, result, types)
}

/// The function of that row for arguments of these types, of which `extra` stand for the elements of a
/// variadic parameter.
pub fn chosen_call(
    alloc: Global,
    c: &Catalog,
    at: u64,
    inputs: &[TypeNo],
    row: RowNo,
    extra: u32,
) -> Result<Choice, Refusal>
    requires inputs { AreTypes c.now inputs.now }
    requires room { length inputs.now ≤ ARGUMENT_LIMIT }
    requires row { row.0 < length c.now.funcs }
    ensures value { OrMemory is_memory (spec.chosen_call c.now at inputs.now row extra (slice_get c.now.funcs row.0)) result }
    ensures choice { IfOk result (IsChoice c.now) }
    ensures count { IfOk result (λ choice. length choice.targets ≡ length inputs.now) }
{
    let func = c.func_row(row);
    match parameters(alloc, c, inputs.len(), row, extra, func)? {
        Some(candidate) => { bound_choice(alloc, c, at, row, func, &candidate, inputs) }
        None => refused(Code::Undefined, at),
    }
}
