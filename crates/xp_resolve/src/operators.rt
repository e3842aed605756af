//! Operators.
ghost use Rattle.std.specs.Prelude.{◌≡◌, ◌<◌, ◌≤◌, ◌∷◌, [], IfOk, IfSome, length};
ghost use Rattle.xp_base.specs.OrMemory.{OrMemory};
ghost use Rattle.xp_base.specs.declared.limits.TheConstants.{ARGUMENT_LIMIT};
ghost use Rattle.xp_coerce.specs.Asked.{IsSource};
ghost use Rattle.xp_types.specs.Within.{AreTypes};
ghost use Rattle.xp_resolve.specs.Calls.{types_of};
ghost use Rattle.xp_resolve.specs.Operators as spec;
ghost use Rattle.xp_resolve.specs.Made.{is_memory};
ghost use Rattle.xp_resolve.specs.inner.Sources.{AreSources, IsScene};

use crate::calls::{choice_made, inputs_of, refusal_of};
use crate::choice::chosen_call;
use crate::made::{Gathered, Made, Part};
use crate::order::Order;
use crate::scene::Scene;
use crate::typed::Use;
use std::alloc::Global;
use xp_base::{RowNo, TypeNo};
use xp_named::Refusal;
use xp_oper::pick_operator;

/// The call of an operator's function.
fn function_call(
    alloc: Global,
    scene: &Scene<'_>,
    at: u64,
    before: u64,
    gathered: Gathered,
    inputs: &[TypeNo],
    row: RowNo,
    function: RowNo,
) -> Result<Made, Refusal>
    requires scene { IsScene scene.now }
    requires sources { AreSources scene.now.c gathered.parts }
    requires inputs { AreTypes scene.now.c inputs.now }
    requires few { length inputs.now ≤ ARGUMENT_LIMIT }
    requires count { length inputs.now ≡ length gathered.parts }
    requires function { function.0 < length scene.now.c.funcs }
    ensures value { OrMemory is_memory (spec.function_call scene.now at before gathered inputs.now row function) result }
    ensures source { IfOk result (λ m. IsSource scene.now.c m.part.tree) }
{
    let choice = chosen_call(alloc, scene.catalog(), at, inputs, function, 0)?;
    let used = Use::Operator {
        row,
        result: choice.result,
    };
    choice_made(
        alloc,
        scene,
        Order::AsWritten,
        at,
        before,
        gathered,
        used,
        choice,
    )
}

/// The call of the operator of that row.
fn operator_call(
    alloc: Global,
    scene: &Scene<'_>,
    at: u64,
    before: u64,
    gathered: Gathered,
    inputs: &[TypeNo],
    row: RowNo,
) -> Result<Made, Refusal>
    requires scene { IsScene scene.now }
    requires sources { AreSources scene.now.c gathered.parts }
    requires inputs { AreTypes scene.now.c inputs.now }
    requires few { length inputs.now ≤ ARGUMENT_LIMIT }
    requires count { length inputs.now ≡ length gathered.parts }
    requires row { row.0 < length scene.now.c.opers }
    ensures value { OrMemory is_memory (spec.operator_call scene.now at before gathered inputs.now row) result }
    ensures source { IfOk result (λ m. IsSource scene.now.c m.part.tree) }
{
    let function = scene.catalog().oper_row(row).function;
    function_call(alloc, scene, at, before, gathered, inputs, row, function)
}

/// What is picked of that name over these types.
#[tactic(auto, using(crate::proofs::Picking::operation_ok, crate::proofs::Picking::operation_err))]
fn operated_over(
    alloc: Global,
    scene: &Scene<'_>,
    at: u64,
    name: &str,
    before: u64,
    gathered: Gathered,
    inputs: &[TypeNo],
) -> Result<Made, Refusal>
    requires scene { IsScene scene.now }
    requires sources { AreSources scene.now.c gathered.parts }
    requires inputs { AreTypes scene.now.c inputs.now }
    requires few { length inputs.now ≤ 2 }
    requires count { length inputs.now ≡ length gathered.parts }
    ensures value { OrMemory is_memory (spec.operated_over scene.now at name.now before gathered inputs.now) result }
    ensures source { IfOk result (λ m. IsSource scene.now.c m.part.tree) }
{
    match pick_operator(alloc, scene.catalog(), name, inputs) {
        Ok(row) => operator_call(alloc, scene, at, before, gathered, inputs, row),
        Err(pick) => Err(refusal_of(pick, at)),
    }
}

/// The types of two operands, which take no list.
fn pair_of(scene: &Scene<'_>, parts: &[Part]) -> Option<(TypeNo, TypeNo)>
    requires { AreSources scene.now.c parts.now }
    ensures value { IfSome result (λ pair. types_of parts.now ≡ pair.0 ∷ pair.1 ∷ []) }
    ensures within { IfSome result (λ pair. AreTypes scene.now.c (pair.0 ∷ pair.1 ∷ [])) }
{
    match parts {
        [left, right] => Some((left.tree.type_of(), right.tree.type_of())),
        _ => None,
    }
}

/// The operator of that name over one operand, or over left and right, beside trees of `before` nodes.
pub fn operated(
    alloc: Global,
    scene: &Scene<'_>,
    at: u64,
    name: &str,
    before: u64,
    gathered: Gathered,
) -> Result<Made, Refusal>
    requires scene { IsScene scene.now }
    requires sources { AreSources scene.now.c gathered.parts }
    requires few { length gathered.parts ≤ 2 }
    ensures value { OrMemory is_memory (spec.operated scene.now at name.now before gathered) result }
    ensures source { IfOk result (λ m. IsSource scene.now.c m.part.tree) }
{
    let parts = gathered.parts.as_slice();
    if let Some((left, right)) = pair_of(scene, parts) {
        return operated_over(alloc, scene, at, name, before, gathered, &[left, right]);
    }
    let inputs = inputs_of(alloc, scene.catalog(), Order::AsWritten, parts)?;
    operated_over(alloc, scene, at, name, before, gathered, inputs.as_slice())
}
