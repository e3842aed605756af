//! ARRAY and subscripts.
ghost use Rattle.std.specs.Prelude.{◌≡◌, ◌<◌, IfOk, Some, length, true};
ghost use Rattle.std.specs.List.{All};
ghost use Rattle.xp_base.specs.OrMemory.{OrMemory};
ghost use Rattle.xp_coerce.specs.Asked.{IsSource};
ghost use Rattle.xp_coerce.specs.Types.{IsTypeOf, node_type};
ghost use Rattle.xp_tree.specs.Term.{subscript, two, type_of};
ghost use Rattle.xp_types.specs.Readers.{base, element, is_array, is_known};
ghost use Rattle.xp_types.specs.Within.{AreTypes, IsType};
ghost use Rattle.xp_resolve.specs.Made.{is_memory};
ghost use Rattle.xp_resolve.specs.inner.Sources.{AreSources, IsScene};
ghost use Rattle.xp_value.specs.declared.value.Rep.TheVariants as rep;
ghost use Rattle.xp_forms.specs.Arrays as spec;

use crate::common::{alike, common_type};
use crate::operands::Both;
use sqlite_items::Items;
use std::alloc::Global;
use xp_base::{Code, Memory, TypeNo};
use xp_catalog::{Catalog, Context};
use xp_coerce::node_type;
use xp_named::Refusal;
use xp_resolve::{
    Converted, Gathered, Made, Part, Progress, Scene, array_over, convert, finished, plainly,
    refused, types_of,
};
use xp_tree::Tree;
use xp_types::{array_of, base, element};

/// An array of that type over elements that come to one type.
#[tactic(auto, using(xp_resolve::proofs::Reading::known_source, crate::proofs::Elements::are_elements))]
fn array_as(
    alloc: Global,
    scene: &Scene<'_>,
    at: u64,
    before: u64,
    operands: Gathered,
    ty: TypeNo,
    array_type: TypeNo,
) -> Result<Made, Refusal>
    requires scene { IsScene scene.now }
    requires sources { AreSources scene.now.c operands.parts }
    requires within { IsType scene.now.c ty }
    requires array_within { IsType scene.now.c array_type }
    requires known { is_known array_type ≡ true }
    requires over { element scene.now.c array_type ≡ Some ty }
    ensures value { OrMemory is_memory (spec.array_over scene.now at before operands ty array_type) result }
    ensures source { IfOk result (λ m. IsSource scene.now.c m.part.tree) }
{
    let Gathered {
        parts,
        progress: Progress { nodes, uses },
    } = operands;
    let all = alike(alloc, scene, at, nodes, ty, parts)?;
    let tree = array_over(alloc, scene.catalog(), all.trees, array_type)?;
    finished(scene, at, before, uses, tree)
}

#[tactic(auto, using(crate::proofs::Elements::array_known))]
fn array_from(
    alloc: Global,
    scene: &Scene<'_>,
    at: u64,
    before: u64,
    operands: Gathered,
    inputs: &[TypeNo],
) -> Result<Made, Refusal>
    requires scene { IsScene scene.now }
    requires sources { AreSources scene.now.c operands.parts }
    requires inputs { AreTypes scene.now.c inputs.now }
    requires count { 0 < length inputs.now }
    ensures value { OrMemory is_memory (spec.array_from scene.now at before operands inputs.now) result }
    ensures source { IfOk result (λ m. IsSource scene.now.c m.part.tree) }
{
    let c = scene.catalog();
    // the rules of records say which types are arrays
    c.is_well_formed_law();
    let ty = common_type(c, at, inputs)?;
    match array_of(c, ty) {
        Some(array_type) => array_as(alloc, scene, at, before, operands, ty, array_type),
        None => refused(Code::NestedArray, at),
    }
}

/// ARRAY over elements, of which there is one at least, beside trees of `before` nodes.
pub fn array_made(
    alloc: Global,
    scene: &Scene<'_>,
    at: u64,
    before: u64,
    operands: Gathered,
) -> Result<Made, Refusal>
    requires scene { IsScene scene.now }
    requires some { 0 < length operands.parts }
    requires sources { AreSources scene.now.c operands.parts }
    ensures value { OrMemory is_memory (spec.array_made scene.now at before operands) result }
    ensures source { IfOk result (λ m. IsSource scene.now.c m.part.tree) }
{
    let parts = operands.parts.as_slice();
    let inputs = types_of(alloc, scene.catalog(), parts)?;
    array_from(alloc, scene, at, before, operands, inputs.as_slice())
}

/// An array of that type without elements.
#[tactic(auto, using(xp_resolve::proofs::Reading::known_source))]
fn no_elements(
    alloc: Global,
    scene: &Scene<'_>,
    at: u64,
    ty: TypeNo,
    progress: Progress,
) -> Result<Made, Refusal>
    requires within { IsType scene.now.c ty }
    requires array { is_array scene.now.c ty ≡ true }
    requires known { is_known ty ≡ true }
    ensures value { OrMemory is_memory (spec.empty_array scene.now at ty progress) result }
    ensures source { IfOk result (λ m. IsSource scene.now.c m.part.tree) }
{
    let tree = Tree::make_array(alloc, Items::new(alloc), node_type(scene.catalog(), ty))?;
    finished(scene, at, progress.nodes, progress.uses, tree)
}

/// ARRAY without elements, which stands directly under a cast to that array type.
pub fn empty_array(
    alloc: Global,
    scene: &Scene<'_>,
    at: u64,
    ty: TypeNo,
    progress: Progress,
) -> Result<Made, Refusal>
    requires within { IsType scene.now.c ty }
    requires array { is_array scene.now.c ty ≡ true }
    ensures value { OrMemory is_memory (spec.empty_array scene.now at ty progress) result }
    ensures source { IfOk result (λ m. IsSource scene.now.c m.part.tree) }
{
    // the rules of records say which types are arrays
    scene.catalog().is_well_formed_law();
    no_elements(alloc, scene, at, ty, progress)
}

/// The type int4, which is asked for at that place.
#[tactic(auto, using(crate::proofs::Named::int4_kept))]
fn index_type(c: &Catalog, at: u64) -> Result<TypeNo, Refusal>
    ensures value { result ≡ spec.index_type c.now at }
    ensures within { IfOk result (IsType c.now) }
    ensures kept { IfOk result (λ int4. (node_type c.now int4).rep ≡ rep.Int4) }
{
    // the rules of records say how values of the type of that name are kept
    c.is_well_formed_law();
    match c.type_named("int4") {
        Some(ty) => Ok(ty),
        None => refused(Code::UnknownType, at),
    }
}

/// The index as an int4, to which it is assigned.
fn as_index(
    alloc: Global,
    scene: &Scene<'_>,
    at: u64,
    nodes: u64,
    ty: TypeNo,
    part: Part,
) -> Result<Converted, Refusal>
    requires scene { IsScene scene.now }
    requires source { IsSource scene.now.c part.tree }
    requires within { IsType scene.now.c ty }
    ensures value { OrMemory is_memory (spec.as_index scene.now at nodes ty part) result }
    ensures typed { IfOk result (λ one. type_of one.tree ≡ node_type scene.now.c ty) }
{
    convert(
        alloc,
        scene,
        at,
        nodes,
        part,
        plainly(ty),
        Context::Assignment,
    )
}

/// The element of an array at an index.
fn subscript_over(
    alloc: Global,
    c: &Catalog,
    array: Tree,
    index: Tree,
    ty: TypeNo,
) -> Result<Tree, Memory>
    requires array { IsTypeOf c.now (type_of array) }
    requires element { element c.now (base c.now (type_of array).no) ≡ Some ty }
    requires within { IsType c.now ty }
    requires index { (type_of index).rep ≡ rep.Int4 }
    ensures { IfOk result (λ t. t ≡ two subscript array index (node_type c.now ty)) }
{
    array.is_typed_law();
    index.is_typed_law();
    Tree::make_subscript(alloc, array, index, node_type(c, ty))
}

#[tactic(auto, using(xp_resolve::proofs::Reading::known_source))]
fn element_at(
    alloc: Global,
    scene: &Scene<'_>,
    at: u64,
    before: u64,
    operands: Both,
    int4: TypeNo,
    ty: TypeNo,
) -> Result<Made, Refusal>
    requires scene { IsScene scene.now }
    requires left { IsSource scene.now.c operands.left.tree }
    requires right { IsSource scene.now.c operands.right.tree }
    requires int4_within { IsType scene.now.c int4 }
    requires kept { (node_type scene.now.c int4).rep ≡ rep.Int4 }
    requires element { element scene.now.c (base scene.now.c (type_of operands.left.tree).no) ≡ Some ty }
    requires within { IsType scene.now.c ty }
    requires known { is_known ty ≡ true }
    ensures value { OrMemory is_memory (spec.element_at scene.now at before operands int4 ty) result }
    ensures source { IfOk result (λ m. IsSource scene.now.c m.part.tree) }
{
    let Both {
        left,
        right,
        progress: Progress { nodes, uses },
    } = operands;
    let index = as_index(alloc, scene, at, nodes, int4, right)?;
    let tree = subscript_over(alloc, scene.catalog(), left.tree, index.tree, ty)?;
    finished(scene, at, before, uses, tree)
}

/// The element of the left operand at the index that the right one is, beside trees of `before` nodes.
pub fn subscripted(
    alloc: Global,
    scene: &Scene<'_>,
    at: u64,
    before: u64,
    operands: Both,
) -> Result<Made, Refusal>
    requires scene { IsScene scene.now }
    requires left { IsSource scene.now.c operands.left.tree }
    requires right { IsSource scene.now.c operands.right.tree }
    ensures value { OrMemory is_memory (spec.subscripted scene.now at before operands) result }
    ensures source { IfOk result (λ m. IsSource scene.now.c m.part.tree) }
{
    let c = scene.catalog();
    // the rules of records say which types are arrays
    c.is_well_formed_law();
    let int4 = index_type(c, at)?;
    match element(c, base(c, operands.left.tree.type_of())) {
        Some(ty) => element_at(alloc, scene, at, before, operands, int4, ty),
        None => refused(Code::Mismatch, at),
    }
}
