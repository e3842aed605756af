//! Calls of functions.
ghost use Rattle.std.specs.Prelude.{◌≡◌, ◌<◌, ◌≤◌, ◌-◌, ◌++◌, ◌∷◌, [], IfOk, IfSome, Some, drop, length, true};
ghost use Rattle.std.specs.List.{All};
ghost use Rattle.xp_base.specs.OrMemory.{OrMemory};
ghost use Rattle.xp_bodies.specs.Fits.{IsFitted};
ghost use Rattle.xp_base.specs.declared.limits.TheConstants.{ARGUMENT_LIMIT};
ghost use Rattle.xp_coerce.specs.Asked.{IsSource};
ghost use Rattle.xp_coerce.specs.Types.{node_type};
ghost use Rattle.xp_tree.specs.Term.{terms, type_of};
ghost use Rattle.xp_tree.specs.Typed.{types_of};
ghost use Rattle.xp_types.specs.Readers.{element, is_known};
ghost use Rattle.xp_types.specs.Within.{AreTypes, IsType};
ghost use Rattle.xp_func.specs.Picked.{picked_function};
ghost use Rattle.xp_resolve.specs.Calls as spec;
ghost use Rattle.xp_resolve.specs.Made.{is_memory};
ghost use Rattle.xp_resolve.specs.Order.{in_order};
ghost use Rattle.xp_resolve.specs.inner.Sources.{AreOf, AreSources, IsScene};
ghost use Rattle.xp_resolve.specs.inner.Choices.{IsChoice};
ghost use Rattle.xp_resolve.specs.inner.Stands.{IsElementOf, StandAt};

use crate::choice::{Choice, chosen_call};
use crate::conversions::{arguments, convert};
use crate::lists::{push, split_last};
use crate::made::{Gathered, Made, Part, Progress, finished, refused};
use crate::nodes::{array_over, call_of};
use crate::order::{Order, in_order};
use crate::scene::Scene;
use crate::targets::{Target, Targets, spread_type};
use crate::typed::{Use, Uses};
use sqlite_items::Items;
use std::alloc::Global;
use xp_base::{ARGUMENT_LIMIT, Code, Memory, RowNo, TypeNo};
use xp_catalog::{Catalog, Context};
use xp_func::{Pick, PickedFunc, pick_function};
use xp_named::{NamedType, Refusal};
use xp_tree::{Modifier, Trees};
use xp_types::is_known;

/// The types of the trees.
pub fn types_of(alloc: Global, c: &Catalog, parts: &[Part]) -> Result<Items<TypeNo>, Memory>
    requires { AreSources c.now parts.now }
    ensures value { IfOk result (λ types. types ≡ spec.types_of parts.now) }
    ensures within { IfOk result (AreTypes c.now) }
{
    let mut types = Items::new(alloc);
    for part in parts {
        types.push(part.tree.type_of())?;
    }
    Ok(types)
}

/// The refusal of a choice.
pub fn refusal_of(pick: Pick, at: u64) -> Refusal
    ensures { result ≡ spec.refusal_of pick at }
{
    match pick {
        Pick::Undefined => Refusal::At {
            code: Code::Undefined,
            at,
        },
        Pick::Ambiguous { .. } => Refusal::At {
            code: Code::Ambiguous,
            at,
        },
        Pick::Memory => Refusal::Memory,
    }
}

/// The arguments that a record with a variadic parameter takes, of which the last ones are one array.
fn spread(
    alloc: Global,
    c: &Catalog,
    array_type: TypeNo,
    extra: usize,
    trees: Trees,
) -> Result<Trees, Memory>
    requires within { IsType c.now array_type }
    requires extra { extra ≤ length trees }
    requires alike { All (λ t. IsElementOf c.now array_type (type_of t)) (drop (length trees - extra) trees) }
    ensures value { IfOk result (λ args. args ≡ spec.spread c.now array_type extra trees) }
{
    let mut front = trees;
    let rest = split_last(alloc, &mut front, extra)?;
    let array = array_over(alloc, c, rest, array_type)?;
    push(&mut front, array)?;
    Ok(front)
}

/// The arguments that the chosen record takes, of these trees.
fn args_of(
    alloc: Global,
    c: &Catalog,
    choice: &Choice,
    trees: Trees,
) -> Result<Option<Trees>, Memory>
    requires fitted { IsFitted c.now }
    requires choice { IsChoice c.now choice.now }
    requires typed { AreOf c.now choice.now.targets trees }
    ensures value { IfOk result (λ args. args ≡ spec.args_of c.now choice.now trees) }
    ensures stands { IfOk result (λ args. IfSome args (λ list. StandAt c.now choice.now.row (types_of (terms list)))) }
{
    // the rules of records say which types have the names that bodies declare
    c.is_well_formed_law();
    if choice.extra == 0 {
        return Ok(Some(trees));
    }
    let func = c.func_row(choice.row);
    let (Some(declared), Some(each)) = (
        func.args.as_slice().last(),
        choice.targets.as_slice().last(),
    ) else {
        return Ok(None);
    };
    let Some(array_type) = spread_type(c, *declared, *each) else {
        return Ok(None);
    };
    Ok(Some(spread(alloc, c, array_type, choice.extra as usize, trees)?))
}

/// The call of what is chosen, over arguments that are converted.
fn call_made(
    alloc: Global,
    scene: &Scene<'_>,
    at: u64,
    before: u64,
    uses: Uses,
    choice: &Choice,
    trees: Trees,
) -> Result<Made, Refusal>
    requires scene { IsScene scene.now }
    requires choice { IsChoice scene.now.c choice.now }
    requires typed { AreOf scene.now.c choice.now.targets trees }
    ensures value { OrMemory is_memory (spec.call_made scene.now at before uses choice.now (spec.args_of scene.now.c choice.now trees)) result }
    ensures source { IfOk result (λ m. IsSource scene.now.c m.part.tree) }
{
    let c = scene.catalog();
    let Some(args) = args_of(alloc, c, choice, trees)? else {
        return refused(Code::Undefined, at);
    };
    let tree = call_of(alloc, c, choice.row, args, choice.result)?;
    finished(scene, at, before, uses, tree)
}

/// The targets in the order in which their arguments are written.
fn as_written(alloc: Global, order: Order, targets: &[Target]) -> Result<Targets, Memory>
    ensures { IfOk result (λ list. list ≡ in_order order targets.now) }
{
    in_order(order, Items::from_slice(alloc, targets)?)
}

/// The overloads that are chosen, with one more.
fn with_use(uses: Uses, used: Use) -> Result<Uses, Memory>
    ensures { IfOk result (λ all. all ≡ uses ++ used ∷ []) }
{
    let mut all = uses;
    push(&mut all, used)?;
    Ok(all)
}

/// The call over arguments that are written in its order.
fn written_made(
    alloc: Global,
    scene: &Scene<'_>,
    at: u64,
    before: u64,
    gathered: Gathered,
    used: Use,
    choice: &Choice,
) -> Result<Made, Refusal>
    requires scene { IsScene scene.now }
    requires sources { AreSources scene.now.c gathered.parts }
    requires choice { IsChoice scene.now.c choice.now }
    requires lengths { length gathered.parts ≡ length choice.now.targets }
    ensures value { OrMemory is_memory (spec.choice_made scene.now Order.AsWritten at before gathered used choice.now) result }
    ensures source { IfOk result (λ m. IsSource scene.now.c m.part.tree) }
{
    let Gathered {
        parts,
        progress: Progress { nodes, uses },
    } = gathered;
    let all = arguments(alloc, scene, at, nodes, parts, choice.targets.as_slice())?;
    let uses = with_use(uses, used)?;
    call_made(alloc, scene, at, before, uses, choice, all.trees)
}

/// The call over two arguments of which the second is written first.
fn swapped_made(
    alloc: Global,
    scene: &Scene<'_>,
    at: u64,
    before: u64,
    gathered: Gathered,
    used: Use,
    choice: &Choice,
) -> Result<Made, Refusal>
    requires scene { IsScene scene.now }
    requires sources { AreSources scene.now.c gathered.parts }
    requires choice { IsChoice scene.now.c choice.now }
    requires lengths { length gathered.parts ≡ length choice.now.targets }
    ensures value { OrMemory is_memory (spec.choice_made scene.now Order.Swapped at before gathered used choice.now) result }
    ensures source { IfOk result (λ m. IsSource scene.now.c m.part.tree) }
{
    let Gathered {
        parts,
        progress: Progress { nodes, uses },
    } = gathered;
    let targets = as_written(alloc, Order::Swapped, choice.targets.as_slice())?;
    let all = arguments(alloc, scene, at, nodes, parts, targets.as_slice())?;
    let trees = in_order(Order::Swapped, all.trees)?;
    let uses = with_use(uses, used)?;
    call_made(alloc, scene, at, before, uses, choice, trees)
}

/// The call of what is chosen: its arguments are converted as they are written, and then it is made.
pub fn choice_made(
    alloc: Global,
    scene: &Scene<'_>,
    order: Order,
    at: u64,
    before: u64,
    gathered: Gathered,
    used: Use,
    choice: Choice,
) -> Result<Made, Refusal>
    requires scene { IsScene scene.now }
    requires sources { AreSources scene.now.c gathered.parts }
    requires choice { IsChoice scene.now.c choice }
    requires lengths { length gathered.parts ≡ length choice.targets }
    ensures value { OrMemory is_memory (spec.choice_made scene.now order at before gathered used choice) result }
    ensures source { IfOk result (λ m. IsSource scene.now.c m.part.tree) }
{
    match order {
        Order::AsWritten => written_made(alloc, scene, at, before, gathered, used, &choice),
        Order::Swapped => swapped_made(alloc, scene, at, before, gathered, used, &choice),
    }
}

/// The argument, cast to the type.
#[tactic(auto, using(crate::proofs::Reading::known_source))]
fn cast_part(
    alloc: Global,
    scene: &Scene<'_>,
    at: u64,
    before: u64,
    progress: Progress,
    ty: TypeNo,
    part: Part,
) -> Result<Made, Refusal>
    requires scene { IsScene scene.now }
    requires source { IsSource scene.now.c part.tree }
    requires within { IsType scene.now.c ty }
    requires known { is_known ty ≡ true }
    ensures value { OrMemory is_memory (spec.cast_part scene.now at before progress ty part) result }
    ensures source { IfOk result (λ m. IsSource scene.now.c m.part.tree) }
{
    let Progress { nodes, mut uses } = progress;
    let named = NamedType {
        ty,
        modifier: Modifier::None,
    };
    let one = convert(alloc, scene, at, nodes, part, named, Context::Explicit)?;
    push(&mut uses, Use::Cast { target: ty })?;
    finished(scene, at, before, uses, one.tree)
}

/// A call that stands for a cast.
#[tactic(auto, using(crate::proofs::Converting::first_is))]
fn cast_made(
    alloc: Global,
    scene: &Scene<'_>,
    at: u64,
    before: u64,
    gathered: Gathered,
    ty: TypeNo,
) -> Result<Made, Refusal>
    requires scene { IsScene scene.now }
    requires sources { AreSources scene.now.c gathered.parts }
    requires within { IsType scene.now.c ty }
    ensures value { OrMemory is_memory (spec.cast_made scene.now at before gathered ty gathered.parts) result }
    ensures source { IfOk result (λ m. IsSource scene.now.c m.part.tree) }
{
    let Gathered {
        mut parts,
        progress,
    } = gathered;
    let (Some(part), true) = (parts.pop(), parts.is_empty()) else {
        return refused(Code::Undefined, at);
    };
    if is_known(ty) {
        cast_part(alloc, scene, at, before, progress, ty, part)
    } else {
        refused(Code::Undefined, at)
    }
}

/// The types of the arguments, in the order of the call.
#[tactic(auto, using(crate::proofs::Ordered::all_ordered, crate::proofs::Ordered::as_many))]
pub fn inputs_of(
    alloc: Global,
    c: &Catalog,
    order: Order,
    parts: &[Part],
) -> Result<Items<TypeNo>, Memory>
    requires { AreSources c.now parts.now }
    ensures value { IfOk result (λ types. types ≡ in_order order (spec.types_of parts.now)) }
    ensures within { IfOk result (AreTypes c.now) }
    ensures count { IfOk result (λ types. length types ≡ length parts.now) }
{
    in_order(order, types_of(alloc, c, parts)?)
}

/// The call of the record that is picked.
fn call_picked(
    alloc: Global,
    scene: &Scene<'_>,
    order: Order,
    at: u64,
    before: u64,
    gathered: Gathered,
    inputs: &[TypeNo],
    row: RowNo,
    extra: u32,
) -> Result<Made, Refusal>
    requires scene { IsScene scene.now }
    requires sources { AreSources scene.now.c gathered.parts }
    requires inputs { AreTypes scene.now.c inputs.now }
    requires few { length inputs.now ≤ ARGUMENT_LIMIT }
    requires count { length inputs.now ≡ length gathered.parts }
    requires row { row.0 < length scene.now.c.funcs }
    ensures value { OrMemory is_memory (spec.call_picked scene.now order at before gathered inputs.now row extra) result }
    ensures source { IfOk result (λ m. IsSource scene.now.c m.part.tree) }
{
    let choice = chosen_call(alloc, scene.catalog(), at, inputs, row, extra)?;
    let used = Use::Function {
        row,
        result: choice.result,
    };
    choice_made(alloc, scene, order, at, before, gathered, used, choice)
}

/// What is picked of that name over these types.
#[tactic(auto, using(crate::proofs::Picking::call_ok, crate::proofs::Picking::call_err))]
fn picked(
    alloc: Global,
    scene: &Scene<'_>,
    order: Order,
    at: u64,
    name: &str,
    variadic: bool,
    before: u64,
    gathered: Gathered,
    inputs: &[TypeNo],
) -> Result<Made, Refusal>
    requires scene { IsScene scene.now }
    requires sources { AreSources scene.now.c gathered.parts }
    requires inputs { AreTypes scene.now.c inputs.now }
    requires few { length inputs.now ≤ ARGUMENT_LIMIT }
    requires count { length inputs.now ≡ length gathered.parts }
    ensures value { OrMemory is_memory (spec.picked_call scene.now order at before gathered inputs.now (picked_function scene.now.c name.now inputs.now variadic)) result }
    ensures source { IfOk result (λ m. IsSource scene.now.c m.part.tree) }
{
    match pick_function(alloc, scene.catalog(), name, inputs, variadic) {
        Ok(PickedFunc::Call { row, expanded }) => {
            call_picked(
                alloc, scene, order, at, before, gathered, inputs, row, expanded,
            )
        }
        Ok(PickedFunc::CastRequest(ty)) => cast_made(alloc, scene, at, before, gathered, ty),
        Err(pick) => Err(refusal_of(pick, at)),
    }
}

/// The call of that name over arguments that are resolved, beside trees of `before` nodes.
pub fn called(
    alloc: Global,
    scene: &Scene<'_>,
    order: Order,
    at: u64,
    name: &str,
    variadic: bool,
    before: u64,
    gathered: Gathered,
) -> Result<Made, Refusal>
    requires scene { IsScene scene.now }
    requires sources { AreSources scene.now.c gathered.parts }
    ensures value { OrMemory is_memory (spec.called scene.now order at name.now variadic before gathered) result }
    ensures source { IfOk result (λ m. IsSource scene.now.c m.part.tree) }
{
    let parts = gathered.parts.as_slice();
    if parts.len() > ARGUMENT_LIMIT as usize {
        return refused(Code::TooBig, at);
    }
    let inputs = inputs_of(alloc, scene.catalog(), order, parts)?;
    picked(
        alloc,
        scene,
        order,
        at,
        name,
        variadic,
        before,
        gathered,
        inputs.as_slice(),
    )
}
