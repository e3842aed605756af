//! AND, OR and NOT.
ghost use Rattle.std.specs.Prelude.{◌≡◌, IfOk, true};
ghost use Rattle.xp_base.specs.OrMemory.{OrMemory};
ghost use Rattle.xp_coerce.specs.Asked.{IsSource};
ghost use Rattle.xp_coerce.specs.Types.{node_type};
ghost use Rattle.xp_tree.specs.Term.{negation, one, two, type_of};
ghost use Rattle.xp_tree.specs.Typed.{IsBool};
ghost use Rattle.xp_types.specs.Within.{IsType};
ghost use Rattle.xp_resolve.specs.Made.{is_memory};
ghost use Rattle.xp_resolve.specs.inner.Sources.{IsScene};
ghost use Rattle.xp_forms.specs.Connectives as spec;

use crate::operands::Both;
use crate::truths::{as_truth, bool_type};
use std::alloc::Global;
use xp_base::{Memory, TypeNo};
use xp_catalog::Catalog;
use xp_coerce::node_type;
use xp_named::Refusal;
use xp_resolve::{Made, Progress, Scene, finished};
use xp_tree::Tree;

#[derive(Clone, Copy, Debug, PartialEq, Eq)]
pub enum Connective {
    And,
    Or,
}

/// The connective over two truth values.
fn joined(
    alloc: Global,
    c: &Catalog,
    connective: Connective,
    left: Tree,
    right: Tree,
    ty: TypeNo,
) -> Result<Tree, Memory>
    requires within { IsType c.now ty }
    requires kept { IsBool (node_type c.now ty) }
    requires left { type_of left ≡ node_type c.now ty }
    requires right { type_of right ≡ node_type c.now ty }
    ensures { IfOk result (λ t. t ≡ two (spec.joining connective) left right (node_type c.now ty)) }
{
    left.is_typed_law();
    right.is_typed_law();
    match connective {
        Connective::And => Tree::make_and(alloc, left, right, node_type(c, ty)),
        Connective::Or => Tree::make_or(alloc, left, right, node_type(c, ty)),
    }
}

/// The connective over the left operand and the right one, beside trees of `before` nodes.
#[tactic(auto, using(xp_resolve::proofs::Reading::known_source))]
pub fn connected(
    alloc: Global,
    scene: &Scene<'_>,
    connective: Connective,
    at: u64,
    before: u64,
    operands: Both,
) -> Result<Made, Refusal>
    requires scene { IsScene scene.now }
    requires left { IsSource scene.now.c operands.left.tree }
    requires right { IsSource scene.now.c operands.right.tree }
    ensures value { OrMemory is_memory (spec.connected scene.now connective at before operands) result }
    ensures source { IfOk result (λ m. IsSource scene.now.c m.part.tree) }
{
    let Both {
        left,
        right,
        progress: Progress { nodes, uses },
    } = operands;
    let ty = bool_type(scene.catalog(), at)?;
    let a = as_truth(alloc, scene, at, nodes, ty, left)?;
    let b = as_truth(alloc, scene, at, a.nodes, ty, right)?;
    let tree = joined(alloc, scene.catalog(), connective, a.tree, b.tree, ty)?;
    finished(scene, at, before, uses, tree)
}

/// NOT over a truth value.
pub fn not(alloc: Global, c: &Catalog, operand: Tree, ty: TypeNo) -> Result<Tree, Memory>
    requires within { IsType c.now ty }
    requires kept { IsBool (node_type c.now ty) }
    requires typed { type_of operand ≡ node_type c.now ty }
    ensures { IfOk result (λ t. t ≡ one negation operand (node_type c.now ty)) }
{
    operand.is_typed_law();
    Tree::make_not(alloc, operand, node_type(c, ty))
}

/// NOT over the operand, beside trees of `before` nodes.
#[tactic(auto, using(xp_resolve::proofs::Reading::known_source))]
pub fn negated(
    alloc: Global,
    scene: &Scene<'_>,
    at: u64,
    before: u64,
    operand: Made,
) -> Result<Made, Refusal>
    requires scene { IsScene scene.now }
    requires source { IsSource scene.now.c operand.part.tree }
    ensures value { OrMemory is_memory (spec.negated scene.now at before operand) result }
    ensures source { IfOk result (λ m. IsSource scene.now.c m.part.tree) }
{
    let Made {
        part,
        progress: Progress { nodes, uses },
    } = operand;
    let ty = bool_type(scene.catalog(), at)?;
    let a = as_truth(alloc, scene, at, nodes, ty, part)?;
    let tree = not(alloc, scene.catalog(), a.tree, ty)?;
    finished(scene, at, before, uses, tree)
}
