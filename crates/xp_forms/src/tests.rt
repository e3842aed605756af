//! IS [NOT] NULL, TRUE, FALSE and UNKNOWN.
ghost use Rattle.std.specs.Prelude.{◌≡◌, IfOk, true};
ghost use Rattle.xp_base.specs.OrMemory.{OrMemory};
ghost use Rattle.xp_coerce.specs.Asked.{IsSource};
ghost use Rattle.xp_coerce.specs.Types.{node_type};
ghost use Rattle.xp_grammar.specs.declared.ast.TruthTest.TheVariants.{Null};
ghost use Rattle.xp_tree.specs.Term.{one, type_of};
ghost use Rattle.xp_tree.specs.Typed.{FitsOne, IsBool};
ghost use Rattle.xp_types.specs.Within.{IsType};
ghost use Rattle.xp_resolve.specs.Made.{is_memory};
ghost use Rattle.xp_resolve.specs.inner.Sources.{IsScene};
ghost use Rattle.xp_forms.specs.Tests as spec;

use crate::connectives::not;
use crate::truths::{as_truth, bool_type};
use std::alloc::Global;
use xp_base::{Memory, TypeNo};
use xp_catalog::{Catalog, Context};
use xp_coerce::node_type;
use xp_grammar::TruthTest;
use xp_named::Refusal;
use xp_resolve::{Converted, Made, Part, Progress, Scene, convert, finished, plainly};
use xp_tree::Tree;
use xp_types::is_known;

/// A value of any type; a literal that has no type yet as a text, where the catalogue has that type.
fn any_value(alloc: Global, scene: &Scene<'_>, nodes: u64, part: Part) -> Result<Converted, Refusal>
    requires scene { IsScene scene.now }
    requires source { IsSource scene.now.c part.tree }
    ensures { OrMemory is_memory (spec.any_value scene.now nodes part) result }
{
    if !is_known(part.tree.type_of()) {
        if let Some(text) = scene.catalog().type_named("text") {
            let at = part.at;
            return convert(
                alloc,
                scene,
                at,
                nodes,
                part,
                plainly(text),
                Context::Implicit,
            );
        }
    }
    Ok(Converted {
        tree: part.tree,
        nodes,
    })
}

/// What the test takes.
fn subject(
    alloc: Global,
    scene: &Scene<'_>,
    test: TruthTest,
    at: u64,
    nodes: u64,
    ty: TypeNo,
    part: Part,
) -> Result<Converted, Refusal>
    requires scene { IsScene scene.now }
    requires source { IsSource scene.now.c part.tree }
    requires within { IsType scene.now.c ty }
    requires kept { IsBool (node_type scene.now.c ty) }
    ensures value { OrMemory is_memory (spec.subject scene.now test at nodes ty part) result }
    ensures fits { IfOk result (λ a. FitsOne (spec.testing test) (type_of a.tree) (node_type scene.now.c ty)) }
{
    match test {
        TruthTest::Null => any_value(alloc, scene, nodes, part),
        TruthTest::True => as_truth(alloc, scene, at, nodes, ty, part),
        TruthTest::False => as_truth(alloc, scene, at, nodes, ty, part),
        TruthTest::Unknown => as_truth(alloc, scene, at, nodes, ty, part),
    }
}

/// The test over what it takes.
fn test_over(
    alloc: Global,
    c: &Catalog,
    test: TruthTest,
    tree: Tree,
    ty: TypeNo,
) -> Result<Tree, Memory>
    requires within { IsType c.now ty }
    requires fits { FitsOne (spec.testing test) (type_of tree) (node_type c.now ty) }
    ensures { IfOk result (λ t. t ≡ one (spec.testing test) tree (node_type c.now ty)) }
{
    tree.is_typed_law();
    match test {
        TruthTest::Null => Tree::make_isnull(alloc, tree, node_type(c, ty)),
        TruthTest::True => Tree::make_istrue(alloc, tree, node_type(c, ty)),
        TruthTest::False => Tree::make_isfalse(alloc, tree, node_type(c, ty)),
        TruthTest::Unknown => Tree::make_isunknown(alloc, tree, node_type(c, ty)),
    }
}

/// The truth value, or NOT over it.
pub fn with_not(
    alloc: Global,
    c: &Catalog,
    negated: bool,
    tree: Tree,
    ty: TypeNo,
) -> Result<Tree, Memory>
    requires within { IsType c.now ty }
    requires kept { IsBool (node_type c.now ty) }
    requires typed { type_of tree ≡ node_type c.now ty }
    ensures { IfOk result (λ t. t ≡ spec.with_not negated (node_type c.now ty) tree) }
{
    if negated {
        not(alloc, c, tree, ty)
    } else {
        Ok(tree)
    }
}

/// The test over the operand, beside trees of `before` nodes.
#[tactic(auto, using(xp_resolve::proofs::Reading::known_source))]
pub fn tested(
    alloc: Global,
    scene: &Scene<'_>,
    test: TruthTest,
    negated: bool,
    at: u64,
    before: u64,
    operand: Made,
) -> Result<Made, Refusal>
    requires scene { IsScene scene.now }
    requires source { IsSource scene.now.c operand.part.tree }
    ensures value { OrMemory is_memory (spec.tested scene.now test negated at before operand) result }
    ensures source { IfOk result (λ m. IsSource scene.now.c m.part.tree) }
{
    let Made {
        part,
        progress: Progress { nodes, uses },
    } = operand;
    let c = scene.catalog();
    let ty = bool_type(c, at)?;
    let a = subject(alloc, scene, test, at, nodes, ty, part)?;
    let tree = test_over(alloc, c, test, a.tree, ty)?;
    let tree = with_not(alloc, c, negated, tree, ty)?;
    finished(scene, at, before, uses, tree)
}
