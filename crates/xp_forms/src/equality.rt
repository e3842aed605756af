//! NULLIF and IS DISTINCT FROM.
ghost use Rattle.std.specs.Prelude.{◌≡◌, ◌<◌, ◌∷◌, IfOk, MatchOption, [], length, true};
ghost use Rattle.xp_base.specs.OrMemory.{OrMemory};
ghost use Rattle.xp_coerce.specs.Asked.{IsSource};
ghost use Rattle.xp_coerce.specs.Types.{IsTypeOf, node_type};
ghost use Rattle.xp_oper.specs.Picked.{picked_operator};
ghost use Rattle.xp_tree.specs.Rests.{Rests};
ghost use Rattle.xp_tree.specs.Term.{distinct as distinct_node, null_if as null_if_node, two, type_of};
ghost use Rattle.xp_tree.specs.Typed.{IsBool};
ghost use Rattle.xp_types.specs.Readers.{is_known};
ghost use Rattle.xp_types.specs.Within.{AreTypes, IsType};
ghost use Rattle.xp_resolve.specs.Made.{is_memory};
ghost use Rattle.xp_resolve.specs.inner.Choices.{IsChoice};
ghost use Rattle.xp_resolve.specs.inner.Sources.{AreOf, AreSources, IsScene};
ghost use Rattle.xp_forms.specs.inner.Comparing.{IsCompared};
ghost use Rattle.xp_forms.specs.Distinct as spec;

use crate::tests::with_not;
use crate::truths::bool_type;
use std::alloc::Global;
use xp_base::{Code, Memory, RowNo, TypeNo};
use xp_catalog::Catalog;
use xp_coerce::{callee_of, node_type};
use xp_named::Refusal;
use xp_oper::pick_operator;
use xp_resolve::{
    Choice, Gathered, Made, Progress, Scene, Use, Uses, arguments, chosen_call, finished, push,
    refusal_of, refused, types_of,
};
use xp_tree::{Callee, Tree, Trees};
use xp_types::{base, is_known};

/// What the operator `=` is over two operands, and what they become for it.
#[derive(Drop)]
pub struct Comparison {
    pub callee: Callee,
    pub left: Tree,
    pub right: Tree,
    /// The overloads that are chosen, the operator last.
    pub uses: Uses,
}

/// Two operands that are converted.
#[derive(Drop)]
struct Pair {
    left: Tree,
    right: Tree,
}

/// Whether values of the type are truth values.
fn is_truth(c: &Catalog, ty: TypeNo) -> bool
    requires { IsType c.now ty }
    ensures { result ≡ spec.is_truth c.now ty }
{
    match c.type_named("bool") {
        Some(truth) => base(c, ty).0 == truth.0,
        None => false,
    }
}

/// The trees of a list of two.
#[tactic(auto, using(crate::proofs::Comparing::no_pair, crate::proofs::Comparing::one_alone, crate::proofs::Comparing::more_than_two, crate::proofs::Comparing::pair_is))]
fn pair_of(trees: Trees) -> Option<Pair>
    ensures { MatchOption result (length trees ≡ 2 → ⊥) (λ pair. trees ≡ pair.left ∷ pair.right ∷ []) }
{
    let mut left = trees;
    let Some(second) = left.pop() else {
        return None;
    };
    let Some(first) = left.pop() else {
        return None;
    };
    if left.is_empty() {
        Some(Pair {
            left: first,
            right: second,
        })
    } else {
        None
    }
}

/// The operator over the two operands that are converted for it.
fn compared_pair(
    scene: &Scene<'_>,
    at: u64,
    used: Uses,
    choice: &Choice,
    pair: Pair,
) -> Result<Comparison, Refusal>
    requires scene { IsScene scene.now }
    requires choice { IsChoice scene.now.c choice.now }
    requires whole { choice.now.extra ≡ 0 }
    requires typed { AreOf scene.now.c choice.now.targets (pair.left ∷ pair.right ∷ []) }
    ensures value { result ≡ spec.compared_with scene.now at used choice.now (pair.left ∷ pair.right ∷ []) }
    ensures compared { IfOk result (IsCompared scene.now.c) }
{
    let c = scene.catalog();
    // the rules of records say which types have the names that bodies declare
    c.is_well_formed_law();
    if !is_truth(c, choice.result) {
        return refused(Code::NotBoolean, at);
    }
    Ok(Comparison {
        callee: callee_of(c, choice.row),
        left: pair.left,
        right: pair.right,
        uses: used,
    })
}

/// The operator over the operands that are converted for it, of which there are two.
#[tactic(auto, using(crate::proofs::Comparing::not_two))]
fn compared_with(
    scene: &Scene<'_>,
    at: u64,
    used: Uses,
    choice: &Choice,
    trees: Trees,
) -> Result<Comparison, Refusal>
    requires scene { IsScene scene.now }
    requires choice { IsChoice scene.now.c choice.now }
    requires whole { choice.now.extra ≡ 0 }
    requires typed { AreOf scene.now.c choice.now.targets trees }
    ensures value { result ≡ spec.compared_with scene.now at used choice.now trees }
    ensures compared { IfOk result (IsCompared scene.now.c) }
{
    match pair_of(trees) {
        Some(pair) => compared_pair(scene, at, used, choice, pair),
        None => refused(Code::Undefined, at),
    }
}

/// The operands are converted for the function of the operator.
fn compared_as(
    alloc: Global,
    scene: &Scene<'_>,
    at: u64,
    operands: Gathered,
    inputs: &[TypeNo],
    row: RowNo,
    function: RowNo,
) -> Result<Comparison, Refusal>
    requires scene { IsScene scene.now }
    requires sources { AreSources scene.now.c operands.parts }
    requires inputs { AreTypes scene.now.c inputs.now }
    requires two { length inputs.now ≡ 2 }
    requires count { length inputs.now ≡ length operands.parts }
    requires function { function.0 < length scene.now.c.funcs }
    ensures value { OrMemory is_memory (spec.compared_as scene.now at operands inputs.now row function) result }
    ensures compared { IfOk result (IsCompared scene.now.c) }
{
    let choice = chosen_call(alloc, scene.catalog(), at, inputs, function, 0)?;
    let Gathered {
        parts,
        progress: Progress { nodes, mut uses },
    } = operands;
    let all = arguments(alloc, scene, at, nodes, parts, choice.targets.as_slice())?;
    let used = Use::Operator {
        row,
        result: choice.result,
    };
    push(&mut uses, used)?;
    compared_with(scene, at, uses, &choice, all.trees)
}

/// The operator of that row over the operands.
fn compared_at(
    alloc: Global,
    scene: &Scene<'_>,
    at: u64,
    operands: Gathered,
    inputs: &[TypeNo],
    row: RowNo,
) -> Result<Comparison, Refusal>
    requires scene { IsScene scene.now }
    requires sources { AreSources scene.now.c operands.parts }
    requires inputs { AreTypes scene.now.c inputs.now }
    requires two { length inputs.now ≡ 2 }
    requires count { length inputs.now ≡ length operands.parts }
    requires row { row.0 < length scene.now.c.opers }
    ensures value { OrMemory is_memory (spec.compared_at scene.now at operands inputs.now row) result }
    ensures compared { IfOk result (IsCompared scene.now.c) }
{
    let function = scene.catalog().oper_row(row).function;
    compared_as(alloc, scene, at, operands, inputs, row, function)
}

/// The operator `=` over operands of these types.
fn compared_over(
    alloc: Global,
    scene: &Scene<'_>,
    at: u64,
    operands: Gathered,
    inputs: &[TypeNo],
) -> Result<Comparison, Refusal>
    requires scene { IsScene scene.now }
    requires sources { AreSources scene.now.c operands.parts }
    requires inputs { AreTypes scene.now.c inputs.now }
    requires two { length inputs.now ≡ 2 }
    requires count { length inputs.now ≡ length operands.parts }
    ensures value { OrMemory is_memory (spec.compared_over scene.now at operands inputs.now) result }
    ensures compared { IfOk result (IsCompared scene.now.c) }
{
    match pick_operator(alloc, scene.catalog(), "=", inputs) {
        Ok(row) => compared_at(alloc, scene, at, operands, inputs, row),
        Err(pick) => Err(refusal_of(pick, at)),
    }
}

/// The operator `=` over two operands, and what they become for it.
fn compared(
    alloc: Global,
    scene: &Scene<'_>,
    at: u64,
    operands: Gathered,
) -> Result<Comparison, Refusal>
    requires scene { IsScene scene.now }
    requires sources { AreSources scene.now.c operands.parts }
    requires two { length operands.parts ≡ 2 }
    ensures value { OrMemory is_memory (spec.compared scene.now at operands) result }
    ensures compared { IfOk result (IsCompared scene.now.c) }
{
    let parts = operands.parts.as_slice();
    let inputs = types_of(alloc, scene.catalog(), parts)?;
    compared_over(alloc, scene, at, operands, inputs.as_slice())
}

/// The left value, or null where the operator finds both equal.
fn null_if_over(
    alloc: Global,
    c: &Catalog,
    callee: Callee,
    left: Tree,
    right: Tree,
) -> Result<Tree, Memory>
    requires left { IsTypeOf c.now (type_of left) }
    requires rests { Rests callee (type_of left ∷ type_of right ∷ []) }
    ensures { IfOk result (λ t. t ≡ two (null_if_node callee) left right (type_of left)) }
{
    left.is_typed_law();
    right.is_typed_law();
    let ty = node_type(c, left.type_of());
    Tree::make_nullif(alloc, callee, left, right, ty)
}

/// NULLIF by the operator that is chosen.
#[tactic(auto, using(crate::proofs::Comparing::compared_source))]
fn null_if_as(
    alloc: Global,
    scene: &Scene<'_>,
    at: u64,
    before: u64,
    by: Comparison,
) -> Result<Made, Refusal>
    requires compared { IsCompared scene.now.c by }
    requires known { is_known (type_of by.left).no ≡ true }
    ensures value { OrMemory is_memory (spec.null_if_as scene.now at before by) result }
    ensures source { IfOk result (λ m. IsSource scene.now.c m.part.tree) }
{
    let tree = null_if_over(alloc, scene.catalog(), by.callee, by.left, by.right)?;
    finished(scene, at, before, by.uses, tree)
}

/// NULLIF by the operator that is chosen, of which the first operand has a type.
fn null_if_by(
    alloc: Global,
    scene: &Scene<'_>,
    at: u64,
    before: u64,
    by: Comparison,
) -> Result<Made, Refusal>
    requires compared { IsCompared scene.now.c by }
    ensures value { OrMemory is_memory (spec.null_if_by scene.now at before by) result }
    ensures source { IfOk result (λ m. IsSource scene.now.c m.part.tree) }
{
    if is_known(by.left.type_of()) {
        null_if_as(alloc, scene, at, before, by)
    } else {
        refused(Code::Undefined, at)
    }
}

/// NULLIF over two operands, beside trees of `before` nodes.
pub fn null_if(
    alloc: Global,
    scene: &Scene<'_>,
    at: u64,
    before: u64,
    operands: Gathered,
) -> Result<Made, Refusal>
    requires scene { IsScene scene.now }
    requires sources { AreSources scene.now.c operands.parts }
    requires two { length operands.parts ≡ 2 }
    ensures value { OrMemory is_memory (spec.null_if scene.now at before operands) result }
    ensures source { IfOk result (λ m. IsSource scene.now.c m.part.tree) }
{
    let by = compared(alloc, scene, at, operands)?;
    null_if_by(alloc, scene, at, before, by)
}

/// Whether the values differ, nulls being equal.
fn distinct_over(
    alloc: Global,
    c: &Catalog,
    callee: Callee,
    left: Tree,
    right: Tree,
    ty: TypeNo,
) -> Result<Tree, Memory>
    requires within { IsType c.now ty }
    requires kept { IsBool (node_type c.now ty) }
    requires rests { Rests callee (type_of left ∷ type_of right ∷ []) }
    ensures { IfOk result (λ t. t ≡ two (distinct_node callee) left right (node_type c.now ty)) }
{
    left.is_typed_law();
    right.is_typed_law();
    Tree::make_distinct(alloc, callee, left, right, node_type(c, ty))
}

/// IS DISTINCT FROM by the operator that is chosen.
#[tactic(auto, using(xp_resolve::proofs::Reading::known_source))]
fn distinct_by(
    alloc: Global,
    scene: &Scene<'_>,
    negated: bool,
    at: u64,
    before: u64,
    ty: TypeNo,
    by: Comparison,
) -> Result<Made, Refusal>
    requires compared { IsCompared scene.now.c by }
    requires within { IsType scene.now.c ty }
    requires known { is_known ty ≡ true }
    requires kept { IsBool (node_type scene.now.c ty) }
    ensures value { OrMemory is_memory (spec.distinct_by scene.now negated at before ty by) result }
    ensures source { IfOk result (λ m. IsSource scene.now.c m.part.tree) }
{
    let c = scene.catalog();
    let tree = distinct_over(alloc, c, by.callee, by.left, by.right, ty)?;
    let tree = with_not(alloc, c, negated, tree, ty)?;
    finished(scene, at, before, by.uses, tree)
}

/// IS DISTINCT FROM over two operands, beside trees of `before` nodes.
pub fn distinct(
    alloc: Global,
    scene: &Scene<'_>,
    negated: bool,
    at: u64,
    before: u64,
    operands: Gathered,
) -> Result<Made, Refusal>
    requires scene { IsScene scene.now }
    requires sources { AreSources scene.now.c operands.parts }
    requires two { length operands.parts ≡ 2 }
    ensures value { OrMemory is_memory (spec.distinct scene.now negated at before operands) result }
    ensures source { IfOk result (λ m. IsSource scene.now.c m.part.tree) }
{
    let ty = bool_type(scene.catalog(), at)?;
    let by = compared(alloc, scene, at, operands)?;
    distinct_by(alloc, scene, negated, at, before, ty, by)
}
