//! Trees that have no type yet once all expressions are there.
ghost use Rattle.std.specs.Prelude.{◌≡◌, ◌∷◌, ◌++◌, [], IfOk, length, map};
ghost use Rattle.xp_base.specs.OrMemory.{OrMemory};
ghost use Rattle.xp_coerce.specs.Asked.{IsSource};
ghost use Rattle.xp_resolve.specs.inner.Sources.{AreSources, IsScene};
ghost use Rattle.xp_resolve.specs.Conversions.{none_yet};
ghost use Rattle.xp_resolve.specs.Made.{is_memory};
ghost use Rattle.xp_columns.specs.inner.Tables.{AreLists};
ghost use Rattle.xp_analyse.specs.Statements as spec;

use sqlite_items::Items;
use std::alloc::Global;
use xp_catalog::Context;
use xp_columns::Table;
use xp_named::NamedType;
use xp_resolve::{
    Converted, ConvertedAll, Part, Parts, Queue, Refusal, Scene, convert, push, reversed, text_type,
};
use xp_tree::{Modifier, Trees};
use xp_types::is_known;

/// Trees of known types, list by list, and how many nodes there are then.
#[derive(Drop)]
pub struct SettledLists {
    pub lists: Items<Trees>,
    pub nodes: u64,
}

/// The tree, a text where it has no type yet.
fn settled_part(
    alloc: Global,
    scene: &Scene<'_>,
    nodes: u64,
    part: Part,
) -> Result<Converted, Refusal>
    requires scene { IsScene scene.now }
    requires source { IsSource scene.now.c part.tree }
    ensures { OrMemory is_memory (spec.settled_part scene.now nodes part) result }
{
    if is_known(part.tree.type_of()) {
        return Ok(Converted {
            tree: part.tree,
            nodes,
        });
    }
    let at = part.at;
    let named = NamedType {
        ty: text_type(scene.catalog(), at)?,
        modifier: Modifier::None,
    };
    convert(alloc, scene, at, nodes, part, named, Context::Implicit)
}

/// The trees from left to right, of which those that have no type yet become texts (manual 10.6).
fn settled(
    alloc: Global,
    scene: &Scene<'_>,
    nodes: u64,
    parts: Parts,
) -> Result<ConvertedAll, Refusal>
    requires scene { IsScene scene.now }
    requires sources { AreSources scene.now.c parts }
    ensures value { OrMemory is_memory (spec.settled scene.now (none_yet nodes) parts) result }
    ensures count { IfOk result (λ all. length all.trees ≡ length parts) }
{
    let mut queue = Queue::new(alloc, parts)?;
    let mut trees = Items::new(alloc);
    let mut nodes = nodes;
    while let Some(part) = queue.pop() {
        let one = settled_part(alloc, scene, nodes, part)?;
        push(&mut trees, one.tree)?;
        nodes = one.nodes;
    }
    Ok(ConvertedAll { trees, nodes })
}

/// The trees of a list, behind those of the lists before it.
fn with_settled(
    alloc: Global,
    scene: &Scene<'_>,
    before: SettledLists,
    parts: Parts,
) -> Result<SettledLists, Refusal>
    requires scene { IsScene scene.now }
    requires sources { AreSources scene.now.c parts }
    ensures value { OrMemory is_memory (spec.with_settled scene.now parts before) result }
    ensures shape { IfOk result (λ all. map length all.lists ≡ map length before.lists ++ length parts ∷ []) }
{
    let SettledLists { mut lists, nodes } = before;
    let all = settled(alloc, scene, nodes, parts)?;
    push(&mut lists, all.trees)?;
    Ok(SettledLists {
        lists,
        nodes: all.nodes,
    })
}

/// The trees of all lists, of which those that have no type yet become texts.
#[tactic(auto, using(crate::proofs::Listing::left_out, crate::proofs::Listing::long_out, xp_forms::proofs::Armed::left_is))]
pub fn all_settled(alloc: Global, scene: &Scene<'_>, table: Table) -> Result<SettledLists, Refusal>
    requires scene { IsScene scene.now }
    requires sources { AreLists scene.now.c table.lists }
    ensures value { OrMemory is_memory (spec.all_settled scene.now table) result }
    ensures shape { IfOk result (λ all. map length all.lists ≡ map length table.lists) }
{
    let Table { lists, nodes } = table;
    let mut left = reversed(alloc, lists)?;
    let mut all = SettledLists {
        lists: Items::new(alloc),
        nodes,
    };
    while let Some(parts) = left.pop() {
        all = with_settled(alloc, scene, all, parts)?;
    }
    Ok(all)
}
