//! Inputs that come to one type.
ghost use Rattle.std.specs.Prelude.{◌≡◌, ◌<◌, IfOk, IsSome, codes, length, true};
ghost use Rattle.std.specs.List.{All};
ghost use Rattle.xp_base.specs.OrMemory.{OrMemory};
ghost use Rattle.xp_catalog.specs.Lookups.{type_named};
ghost use Rattle.xp_coerce.specs.Asked.{IsSource};
ghost use Rattle.xp_coerce.specs.Types.{node_type};
ghost use Rattle.xp_tree.specs.Term.{many, terms, type_of};
ghost use Rattle.xp_types.specs.Common.{common};
ghost use Rattle.xp_types.specs.Readers.{is_known};
ghost use Rattle.xp_types.specs.Within.{AreTypes, IsType};
ghost use Rattle.xp_resolve.specs.Made.{is_memory};
ghost use Rattle.xp_resolve.specs.inner.Sources.{AreSources, IsScene};
ghost use Rattle.xp_forms.specs.Common as spec;

use sqlite_items::Items;
use std::alloc::Global;
use xp_base::{Code, Memory, TypeNo};
use xp_catalog::Catalog;
use xp_coerce::node_type;
use xp_grammar::Selection;
use xp_named::Refusal;
use xp_resolve::{
    ConvertedAll, Gathered, Made, Part, Parts, Progress, Scene, Target, Targets, are_typed_law,
    arguments, finished, push, refused, text_type, types_of,
};
use xp_tree::{Tree, Trees};
use xp_types::{CommonType, common};

/// The type that the inputs come to, which is asked for at that place.
pub fn decided(c: &Catalog, at: u64, inputs: &[TypeNo]) -> Result<TypeNo, Refusal>
    requires some { 0 < length inputs.now }
    requires inputs { AreTypes c.now inputs.now }
    requires text { IsSome (type_named c.now (codes "text")) }
    ensures value { result ≡ spec.decided at (common c.now inputs.now) }
    ensures within { IfOk result (IsType c.now) }
    ensures known { IfOk result (λ type. is_known type ≡ true) }
{
    // the rules of records say that a domain isn't over `unknown`
    c.is_well_formed_law();
    match common(c, inputs) {
        CommonType::One(ty) => Ok(ty),
        CommonType::Mixed => refused(Code::Mismatch, at),
        CommonType::NoPath { .. } => refused(Code::CannotCoerce, at),
    }
}

/// The type that the inputs come to, in a catalogue that may lack the type text.
pub fn common_type(c: &Catalog, at: u64, inputs: &[TypeNo]) -> Result<TypeNo, Refusal>
    requires some { 0 < length inputs.now }
    requires inputs { AreTypes c.now inputs.now }
    ensures value { result ≡ spec.common_type c.now at inputs.now }
    ensures within { IfOk result (IsType c.now) }
    ensures known { IfOk result (λ type. is_known type ≡ true) }
{
    text_type(c, at)?;
    decided(c, at, inputs)
}

/// So many times that type.
fn each_of(alloc: Global, ty: TypeNo, parts: &[Part]) -> Result<Targets, Memory>
    ensures { IfOk result (λ targets. targets ≡ spec.each_of ty parts.now) }
{
    let mut targets = Items::new(alloc);
    for part in parts {
        push(&mut targets, Target::Of(ty))?;
    }
    Ok(targets)
}

/// The operands, each converted to the type, from left to right.
#[tactic(auto, using(crate::proofs::AllAlike::all_targets, crate::proofs::AllAlike::alike_many, crate::proofs::AllAlike::alike_typed, crate::proofs::AllAlike::as_many_targets))]
pub fn alike(
    alloc: Global,
    scene: &Scene<'_>,
    at: u64,
    nodes: u64,
    ty: TypeNo,
    parts: Parts,
) -> Result<ConvertedAll, Refusal>
    requires scene { IsScene scene.now }
    requires sources { AreSources scene.now.c parts }
    requires within { IsType scene.now.c ty }
    ensures value { OrMemory is_memory (spec.alike scene.now at nodes ty parts) result }
    ensures typed { IfOk result (λ all. All (λ t. type_of t ≡ node_type scene.now.c ty) all.trees) }
    ensures count { IfOk result (λ all. length all.trees ≡ length parts) }
{
    let targets = each_of(alloc, ty, parts.as_slice())?;
    arguments(alloc, scene, at, nodes, parts, targets.as_slice())
}

/// The selection among values of one type.
#[tactic(auto, using(crate::proofs::AllAlike::are_alike))]
fn selection_over(
    alloc: Global,
    c: &Catalog,
    selection: Selection,
    trees: Trees,
    ty: TypeNo,
) -> Result<Tree, Memory>
    requires within { IsType c.now ty }
    requires some { 0 < length trees }
    requires typed { All (λ t. type_of t ≡ node_type c.now ty) trees }
    ensures { IfOk result (λ t. t ≡ many (spec.selecting selection) (terms trees) (node_type c.now ty)) }
{
    are_typed_law(trees.as_slice());
    match selection {
        Selection::Coalesce => Tree::make_coalesce(alloc, trees, node_type(c, ty)),
        Selection::Greatest => Tree::make_greatest(alloc, trees, node_type(c, ty)),
        Selection::Least => Tree::make_least(alloc, trees, node_type(c, ty)),
    }
}

/// The selection among operands of these types.
#[tactic(auto, using(xp_resolve::proofs::Reading::known_source))]
fn selected_over(
    alloc: Global,
    scene: &Scene<'_>,
    selection: Selection,
    at: u64,
    before: u64,
    operands: Gathered,
    inputs: &[TypeNo],
) -> Result<Made, Refusal>
    requires scene { IsScene scene.now }
    requires some { 0 < length operands.parts }
    requires sources { AreSources scene.now.c operands.parts }
    requires inputs { AreTypes scene.now.c inputs.now }
    requires count { 0 < length inputs.now }
    ensures value { OrMemory is_memory (spec.selected_over scene.now selection at before operands inputs.now) result }
    ensures source { IfOk result (λ m. IsSource scene.now.c m.part.tree) }
{
    let Gathered {
        parts,
        progress: Progress { nodes, uses },
    } = operands;
    let ty = common_type(scene.catalog(), at, inputs)?;
    let all = alike(alloc, scene, at, nodes, ty, parts)?;
    let tree = selection_over(alloc, scene.catalog(), selection, all.trees, ty)?;
    finished(scene, at, before, uses, tree)
}

/// The selection among the operands, of which there is one at least, beside trees of `before` nodes.
pub fn selected(
    alloc: Global,
    scene: &Scene<'_>,
    selection: Selection,
    at: u64,
    before: u64,
    operands: Gathered,
) -> Result<Made, Refusal>
    requires scene { IsScene scene.now }
    requires some { 0 < length operands.parts }
    requires sources { AreSources scene.now.c operands.parts }
    ensures value { OrMemory is_memory (spec.selected scene.now selection at before operands) result }
    ensures source { IfOk result (λ m. IsSource scene.now.c m.part.tree) }
{
    let parts = operands.parts.as_slice();
    let inputs = types_of(alloc, scene.catalog(), parts)?;
    selected_over(
        alloc,
        scene,
        selection,
        at,
        before,
        operands,
        inputs.as_slice(),
    )
}
