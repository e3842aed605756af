//! CASE.
ghost use Rattle.std.specs.Prelude.{◌≡◌, ◌∷◌, ◌++◌, ◌<◌, IfOk, [], length, map, true};
ghost use Rattle.std.specs.List.{All};
ghost use Rattle.xp_base.specs.OrMemory.{OrMemory};
ghost use Rattle.xp_coerce.specs.Asked.{IsSource};
ghost use Rattle.xp_coerce.specs.Types.{node_type};
ghost use Rattle.xp_tree.specs.Term.{case, type_of};
ghost use Rattle.xp_tree.specs.Typed.{ArmsTyped, IsBool};
ghost use Rattle.xp_tree.specs.View.{arms_of};
ghost use Rattle.xp_types.specs.Within.{AreTypes, IsType};
ghost use Rattle.xp_resolve.specs.Made.{is_memory};
ghost use Rattle.xp_resolve.specs.inner.Sources.{IsScene};
ghost use Rattle.xp_forms.specs.inner.Arms.{AreResolved, IsResolved};
ghost use Rattle.xp_forms.specs.Cases as spec;

use crate::common::decided;
use crate::truths::{as_truth, bool_type};
use sqlite_items::Items;
use std::alloc::Global;
use xp_base::{Memory, TypeNo};
use xp_catalog::{Catalog, Context};
use xp_coerce::node_type;
use xp_named::Refusal;
use xp_resolve::{
    Made, Part, Progress, Scene, convert, finished, plainly, push, reversed, text_type,
};
use xp_tree::{CaseArm, CaseArms, Tree};

/// An arm of CASE whose condition and result are resolved.
#[derive(Drop)]
pub struct When {
    /// The place of its WHEN.
    pub at: u64,
    pub condition: Part,
    pub result: Part,
}

/// The arms of CASE in their order.
pub type Whens = Items<When>;

/// Arms that are converted, and how many nodes there are then.
#[derive(Drop)]
pub struct ArmsMade {
    pub arms: CaseArms,
    pub nodes: u64,
}

/// The types of the results, that behind ELSE first.
fn result_types(
    alloc: Global,
    c: &Catalog,
    whens: &[When],
    otherwise: &Part,
) -> Result<Items<TypeNo>, Memory>
    requires arms { AreResolved c.now whens.now }
    requires otherwise { IsSource c.now otherwise.now.tree }
    ensures value { IfOk result (λ types. types ≡ spec.result_types whens.now otherwise.now) }
    ensures within { IfOk result (AreTypes c.now) }
    ensures some { IfOk result (λ types. 0 < length types) }
{
    let mut types = Items::new(alloc);
    types.push(otherwise.tree.type_of())?;
    for arm in whens {
        types.push(arm.result.tree.type_of())?;
    }
    Ok(types)
}

/// The place of the first WHEN.
fn first_when(at: u64, whens: &[When]) -> u64
    ensures { result ≡ spec.first_when at whens.now }
{
    match whens {
        [first, ..] => first.at,
        [] => at,
    }
}

/// The arm behind those before it.
#[tactic(auto, using(crate::proofs::Armed::arms_typed))]
fn arm_made(
    alloc: Global,
    scene: &Scene<'_>,
    at: u64,
    bool_type: TypeNo,
    ty: TypeNo,
    before: ArmsMade,
    arm: When,
) -> Result<ArmsMade, Refusal>
    requires scene { IsScene scene.now }
    requires arm { IsResolved scene.now.c arm }
    requires bool_within { IsType scene.now.c bool_type }
    requires within { IsType scene.now.c ty }
    requires kept { IsBool (node_type scene.now.c bool_type) }
    ensures value { OrMemory is_memory (spec.arm_made scene.now at bool_type ty before arm) result }
    ensures typed { ArmsTyped (node_type scene.now.c ty) (arms_of before.arms) → IfOk result (λ all. ArmsTyped (node_type scene.now.c ty) (arms_of all.arms)) }
{
    let ArmsMade { mut arms, nodes } = before;
    let When {
        at: when_at,
        condition,
        result: gives,
    } = arm;
    let condition = as_truth(alloc, scene, when_at, nodes, bool_type, condition)?;
    let nodes = condition.nodes;
    let gives = convert(
        alloc,
        scene,
        at,
        nodes,
        gives,
        plainly(ty),
        Context::Implicit,
    )?;
    condition.tree.is_typed_law();
    gives.tree.is_typed_law();
    let arm = CaseArm {
        condition: condition.tree,
        result: gives.tree,
    };
    push(&mut arms, arm)?;
    Ok(ArmsMade {
        arms,
        nodes: gives.nodes,
    })
}

/// The arms from left to right.
fn arms_made(
    alloc: Global,
    scene: &Scene<'_>,
    at: u64,
    bool_type: TypeNo,
    ty: TypeNo,
    nodes: u64,
    whens: Whens,
) -> Result<ArmsMade, Refusal>
    requires scene { IsScene scene.now }
    requires arms { AreResolved scene.now.c whens }
    requires bool_within { IsType scene.now.c bool_type }
    requires within { IsType scene.now.c ty }
    requires kept { IsBool (node_type scene.now.c bool_type) }
    ensures value { OrMemory is_memory (spec.arms_made scene.now at bool_type ty (spec.no_arms nodes) whens) result }
    ensures typed { IfOk result (λ all. ArmsTyped (node_type scene.now.c ty) (arms_of all.arms)) }
{
    let mut left = reversed(alloc, whens)?;
    let mut made = ArmsMade {
        arms: Items::new(alloc),
        nodes,
    };
    while let Some(arm) = left.pop() {
        made = arm_made(alloc, scene, at, bool_type, ty, made, arm)?;
    }
    Ok(made)
}

/// CASE over results of one type.
fn case_over(
    alloc: Global,
    c: &Catalog,
    arms: CaseArms,
    otherwise: Tree,
    ty: TypeNo,
) -> Result<Tree, Memory>
    requires within { IsType c.now ty }
    requires arms { ArmsTyped (node_type c.now ty) (arms_of arms) }
    requires typed { type_of otherwise ≡ node_type c.now ty }
    ensures { IfOk result (λ t. t ≡ case (arms_of arms) otherwise (node_type c.now ty)) }
{
    otherwise.is_typed_law();
    Tree::make_case(alloc, arms, otherwise, node_type(c, ty))
}

/// CASE over its arms and the result behind ELSE, whose results are of these types.
#[tactic(auto, using(xp_resolve::proofs::Reading::known_source))]
fn cased_over(
    alloc: Global,
    scene: &Scene<'_>,
    at: u64,
    before: u64,
    whens: Whens,
    otherwise: Made,
    inputs: &[TypeNo],
) -> Result<Made, Refusal>
    requires scene { IsScene scene.now }
    requires arms { AreResolved scene.now.c whens }
    requires otherwise { IsSource scene.now.c otherwise.part.tree }
    requires inputs { AreTypes scene.now.c inputs.now }
    requires some { 0 < length inputs.now }
    ensures value { OrMemory is_memory (spec.cased_over scene.now at before whens otherwise inputs.now) result }
    ensures source { IfOk result (λ m. IsSource scene.now.c m.part.tree) }
{
    let Made {
        part,
        progress: Progress { nodes, uses },
    } = otherwise;
    text_type(scene.catalog(), at)?;
    let truth = bool_type(scene.catalog(), first_when(at, whens.as_slice()))?;
    let ty = decided(scene.catalog(), at, inputs)?;
    let all = arms_made(alloc, scene, at, truth, ty, nodes, whens)?;
    let last = convert(
        alloc,
        scene,
        at,
        all.nodes,
        part,
        plainly(ty),
        Context::Implicit,
    )?;
    let tree = case_over(alloc, scene.catalog(), all.arms, last.tree, ty)?;
    finished(scene, at, before, uses, tree)
}

/// CASE over its arms and the result behind ELSE, which is NULL where ELSE is left out, beside trees of
/// `before` nodes. An arm of a CASE over an operand has as its condition what `=` is over the operand
/// and the value behind WHEN.
pub fn cased(
    alloc: Global,
    scene: &Scene<'_>,
    at: u64,
    before: u64,
    whens: Whens,
    otherwise: Made,
) -> Result<Made, Refusal>
    requires scene { IsScene scene.now }
    requires arms { AreResolved scene.now.c whens }
    requires otherwise { IsSource scene.now.c otherwise.part.tree }
    ensures value { OrMemory is_memory (spec.cased scene.now at before whens otherwise) result }
    ensures source { IfOk result (λ m. IsSource scene.now.c m.part.tree) }
{
    let arms = whens.as_slice();
    let inputs = result_types(alloc, scene.catalog(), arms, &otherwise.part)?;
    cased_over(
        alloc,
        scene,
        at,
        before,
        whens,
        otherwise,
        inputs.as_slice(),
    )
}
