//! Lists of items whose columns each come to one type: the lists of VALUES, and the arms of UNION ALL.
ghost use Rattle.std.specs.Prelude.{◌≡◌, ℕ, ◌+◌, ◌∷◌, ◌++◌, ◌<◌, IfOk, [], length, map, replicate, true};
ghost use Rattle.std.specs.List.{All};
ghost use Rattle.xp_base.specs.OrMemory.{OrMemory};
ghost use Rattle.xp_types.specs.Readers.{is_known};
ghost use Rattle.xp_types.specs.Within.{AreTypes, IsType};
ghost use Rattle.xp_resolve.specs.Calls.{types_of};
ghost use Rattle.xp_resolve.specs.Made.{is_memory};
ghost use Rattle.xp_resolve.specs.inner.Sources.{AreSources, IsScene};
ghost use Rattle.xp_columns.specs.Columns as spec;
ghost use Rattle.xp_columns.specs.inner.Tables.{AreArms, AreColumns, AreLists, AreOfWidth, IsColumn};

use sqlite_items::Items;
use std::alloc::Global;
use xp_base::{Code, Memory, TypeNo};
use xp_catalog::Catalog;
use xp_forms::{alike, common_type};
use xp_named::Refusal;
use xp_resolve::{Part, Parts, Queue, Scene, push, refused, reversed, types_of};
use xp_tree::Trees;

/// Lists of items.
pub type Lists = Items<Parts>;

/// Lists that are converted, and how many nodes there are then.
#[derive(Drop)]
pub struct Table {
    pub lists: Lists,
    pub nodes: u64,
}

/// A column that is converted, and how many nodes there are then.
#[derive(Drop)]
pub struct Column {
    pub parts: Parts,
    pub nodes: u64,
}

/// An arm of UNION ALL behind the first.
#[derive(Drop)]
pub struct UnionArm {
    /// The place of its UNION.
    pub at: u64,
    pub items: Parts,
}

/// Which items of a column are the inputs of its common type.
#[derive(Clone, Copy, Debug, PartialEq, Eq)]
pub enum Inputs {
    All,
    /// The first, which stands for all but the last, and the last.
    Ends,
}

/// The columns, in each of which one more item of the list stands at the end.
#[tactic(auto, using(crate::proofs::Listing::list_more, crate::proofs::Listing::list_out, xp_forms::proofs::Armed::left_is))]
fn with_list(alloc: Global, columns: Lists, list: Parts) -> Result<Lists, Memory>
    ensures { IfOk result (λ more. more ≡ spec.with_list columns list) }
{
    let mut left = reversed(alloc, columns)?;
    let mut items = Queue::new(alloc, list)?;
    let mut more = Items::new(alloc);
    while let Some(mut column) = left.pop() {
        let Some(item) = items.pop() else {
            return Ok(more);
        };
        push(&mut column, item)?;
        push(&mut more, column)?;
    }
    Ok(more)
}

/// So many lists without items.
fn empty_lists(alloc: Global, count: usize) -> Result<Lists, Memory>
    ensures { IfOk result (λ lists. lists ≡ replicate count []) }
{
    let mut lists = Items::new(alloc);
    for _list in 0..count {
        push(&mut lists, Items::new(alloc))?;
    }
    Ok(lists)
}

/// Lists of so many items as columns, and columns of so many items as lists.
#[tactic(auto, using(crate::proofs::Listing::lists_more, xp_forms::proofs::Armed::left_is))]
fn turned(alloc: Global, width: usize, lists: Lists) -> Result<Lists, Memory>
    ensures { IfOk result (λ columns. columns ≡ spec.turned width lists) }
{
    let mut left = reversed(alloc, lists)?;
    let mut columns = empty_lists(alloc, width)?;
    while let Some(list) = left.pop() {
        columns = with_list(alloc, columns, list)?;
    }
    Ok(columns)
}

/// How many items the first list has.
fn width_of(lists: &[Parts]) -> usize
    ensures { result ≡ spec.width_of lists.now }
{
    match lists {
        [first, ..] => first.len(),
        [] => 0,
    }
}

/// Whether all lists have as many items as the first.
fn are_as_long(lists: &[Parts]) -> bool
    ensures { result ≡ spec.are_as_long lists.now }
{
    let width = width_of(lists);
    for list in lists {
        if list.len() != width {
            return false;
        }
    }
    true
}

/// The first and the last.
#[tactic(auto, using(crate::proofs::Listing::ends_few, crate::proofs::Listing::ends_are))]
fn ends(alloc: Global, types: &[TypeNo]) -> Result<Items<TypeNo>, Memory>
    ensures { IfOk result (λ both. both ≡ spec.ends types.now) }
{
    if types.len() < 2 {
        return Ok(Items::from_slice(alloc, types)?);
    }
    let mut both = Items::new(alloc);
    both.push(types[0])?;
    both.push(types[types.len() - 1])?;
    Ok(both)
}

/// The inputs of the column's common type.
#[tactic(auto, using(crate::proofs::Listing::ends_within, crate::proofs::Listing::ends_some))]
fn column_inputs(
    alloc: Global,
    c: &Catalog,
    inputs: Inputs,
    parts: &[Part],
) -> Result<Items<TypeNo>, Memory>
    requires sources { AreSources c.now parts.now }
    requires some { 0 < length parts.now }
    ensures value { IfOk result (λ types. types ≡ spec.inputs_of inputs (types_of parts.now)) }
    ensures within { IfOk result (AreTypes c.now) }
    ensures some { IfOk result (λ types. 0 < length types) }
{
    let types = types_of(alloc, c, parts)?;
    match inputs {
        Inputs::All => Ok(types),
        Inputs::Ends => ends(alloc, types.as_slice()),
    }
}

/// The trees as items, which are known types' by now.
#[tactic(auto, using(crate::proofs::Listing::parts_more, xp_forms::proofs::Armed::left_is))]
fn parts_of(alloc: Global, at: u64, trees: Trees) -> Result<Parts, Memory>
    ensures { IfOk result (λ parts. parts ≡ spec.parts_of at trees) }
{
    let mut left = reversed(alloc, trees)?;
    let mut parts = Items::new(alloc);
    while let Some(tree) = left.pop() {
        push(&mut parts, Part { tree, at })?;
    }
    Ok(parts)
}

/// The items of a column, each converted to that type.
#[tactic(auto, using(crate::proofs::Listing::parts_sources, crate::proofs::Listing::as_many_parts))]
fn column_as(
    alloc: Global,
    scene: &Scene<'_>,
    at: u64,
    nodes: u64,
    parts: Parts,
    ty: TypeNo,
) -> Result<Column, Refusal>
    requires scene { IsScene scene.now }
    requires sources { AreSources scene.now.c parts }
    requires within { IsType scene.now.c ty }
    requires known { is_known ty ≡ true }
    ensures value { OrMemory is_memory (spec.column_as scene.now at nodes parts ty) result }
    ensures sources { IfOk result (λ column. AreSources scene.now.c column.parts) }
    ensures count { IfOk result (λ column. length column.parts ≡ length parts) }
{
    let all = alike(alloc, scene, at, nodes, ty, parts)?;
    let parts = parts_of(alloc, at, all.trees)?;
    Ok(Column {
        parts,
        nodes: all.nodes,
    })
}

/// The items of a column whose inputs are these, all converted to its type.
fn column_from(
    alloc: Global,
    scene: &Scene<'_>,
    at: u64,
    nodes: u64,
    parts: Parts,
    inputs: &[TypeNo],
) -> Result<Column, Refusal>
    requires scene { IsScene scene.now }
    requires sources { AreSources scene.now.c parts }
    requires inputs { AreTypes scene.now.c inputs.now }
    requires some { 0 < length inputs.now }
    ensures value { OrMemory is_memory (spec.column_from scene.now at nodes parts inputs.now) result }
    ensures sources { IfOk result (λ column. AreSources scene.now.c column.parts) }
    ensures count { IfOk result (λ column. length column.parts ≡ length parts) }
{
    let ty = common_type(scene.catalog(), at, inputs)?;
    column_as(alloc, scene, at, nodes, parts, ty)
}

/// The items of a column, all converted to its type.
fn column_made(
    alloc: Global,
    scene: &Scene<'_>,
    inputs: Inputs,
    at: u64,
    nodes: u64,
    parts: Parts,
) -> Result<Column, Refusal>
    requires scene { IsScene scene.now }
    requires column { IsColumn scene.now.c parts }
    ensures value { OrMemory is_memory (spec.column_made scene.now inputs at nodes parts) result }
    ensures sources { IfOk result (λ column. AreSources scene.now.c column.parts) }
    ensures count { IfOk result (λ column. length column.parts ≡ length parts) }
{
    let slice = parts.as_slice();
    let types = column_inputs(alloc, scene.catalog(), inputs, slice)?;
    column_from(alloc, scene, at, nodes, parts, types.as_slice())
}

/// The column, behind those before it.
#[tactic(auto, using(crate::proofs::Widths::lengths_push))]
fn with_column(
    alloc: Global,
    scene: &Scene<'_>,
    inputs: Inputs,
    at: u64,
    before: Table,
    parts: Parts,
) -> Result<Table, Refusal>
    requires scene { IsScene scene.now }
    requires column { IsColumn scene.now.c parts }
    ensures value { OrMemory is_memory (spec.with_column scene.now inputs at before parts) result }
    ensures sources { AreLists scene.now.c before.lists → IfOk result (λ all. AreLists scene.now.c all.lists) }
    ensures lengths { IfOk result (λ all. map length all.lists ≡ map length before.lists ++ length parts ∷ []) }
{
    let Table { mut lists, nodes } = before;
    let column = column_made(alloc, scene, inputs, at, nodes, parts)?;
    push(&mut lists, column.parts)?;
    Ok(Table {
        lists,
        nodes: column.nodes,
    })
}

/// The columns from left to right.
fn columns_made(
    alloc: Global,
    scene: &Scene<'_>,
    inputs: Inputs,
    at: u64,
    nodes: u64,
    columns: Lists,
) -> Result<Table, Refusal>
    requires scene { IsScene scene.now }
    requires columns { AreColumns scene.now.c columns }
    ensures value { OrMemory is_memory (spec.columns_made scene.now inputs at (spec.no_columns nodes) columns) result }
    ensures sources { IfOk result (λ all. AreLists scene.now.c all.lists) }
    ensures lengths { IfOk result (λ all. map length all.lists ≡ map length columns) }
{
    let mut left = reversed(alloc, columns)?;
    let mut made = Table {
        lists: Items::new(alloc),
        nodes,
    };
    while let Some(column) = left.pop() {
        made = with_column(alloc, scene, inputs, at, made, column)?;
    }
    Ok(made)
}

/// Lists of one length, column by column.
fn table_over(
    alloc: Global,
    scene: &Scene<'_>,
    inputs: Inputs,
    at: u64,
    nodes: u64,
    lists: Lists,
) -> Result<Table, Refusal>
    requires scene { IsScene scene.now }
    requires sources { AreLists scene.now.c lists }
    requires even { AreOfWidth (spec.width_of lists) lists }
    ensures value { OrMemory is_memory (spec.table_over scene.now inputs at nodes lists) result }
    ensures sources { IfOk result (λ all. AreLists scene.now.c all.lists) }
    ensures count { IfOk result (λ all. length all.lists ≡ length lists) }
    ensures widths { IfOk result (λ all. AreOfWidth (spec.width_of lists) all.lists) }
{
    let count = lists.len();
    let width = width_of(lists.as_slice());
    let columns = turned(alloc, width, lists)?;
    let all = columns_made(alloc, scene, inputs, at, nodes, columns)?;
    let lists = turned(alloc, count, all.lists)?;
    Ok(Table {
        lists,
        nodes: all.nodes,
    })
}

/// Lists whose columns each come to one type.
fn table_made(
    alloc: Global,
    scene: &Scene<'_>,
    inputs: Inputs,
    at: u64,
    nodes: u64,
    lists: Lists,
) -> Result<Table, Refusal>
    requires scene { IsScene scene.now }
    requires sources { AreLists scene.now.c lists }
    ensures value { OrMemory is_memory (spec.table_made scene.now inputs at nodes lists) result }
    ensures sources { IfOk result (λ all. AreLists scene.now.c all.lists) }
    ensures count { IfOk result (λ all. length all.lists ≡ length lists) }
    ensures widths { IfOk result (λ all. AreOfWidth (spec.width_of lists) all.lists) }
{
    if are_as_long(lists.as_slice()) {
        table_over(alloc, scene, inputs, at, nodes, lists)
    } else {
        refused(Code::Mismatch, at)
    }
}

/// The lists of VALUES, whose trees have so many nodes together with those before them: each column comes
/// to the common type of all its items.
pub fn values_made(
    alloc: Global,
    scene: &Scene<'_>,
    at: u64,
    nodes: u64,
    lists: Lists,
) -> Result<Table, Refusal>
    requires scene { IsScene scene.now }
    requires sources { AreLists scene.now.c lists }
    ensures value { OrMemory is_memory (spec.values_made scene.now at nodes lists) result }
    ensures sources { IfOk result (λ all. AreLists scene.now.c all.lists) }
    ensures count { IfOk result (λ all. length all.lists ≡ length lists) }
    ensures widths { IfOk result (λ all. AreOfWidth (spec.width_of lists) all.lists) }
{
    table_made(alloc, scene, Inputs::All, at, nodes, lists)
}

/// The arms so far, and the next one: each column comes to the common type of both.
fn arm_joined(
    alloc: Global,
    scene: &Scene<'_>,
    before: Table,
    arm: UnionArm,
) -> Result<Table, Refusal>
    requires scene { IsScene scene.now }
    requires sources { AreLists scene.now.c before.lists }
    requires items { AreSources scene.now.c arm.items }
    ensures value { OrMemory is_memory (spec.arm_joined scene.now before arm) result }
    ensures sources { IfOk result (λ all. AreLists scene.now.c all.lists) }
    ensures count { IfOk result (λ all. length all.lists ≡ length before.lists + 1) }
    ensures widths { (width : ℕ) → 0 < length before.lists → AreOfWidth width before.lists → IfOk result (λ all. AreOfWidth width all.lists) }
{
    let Table { mut lists, nodes } = before;
    push(&mut lists, arm.items)?;
    table_made(alloc, scene, Inputs::Ends, arm.at, nodes, lists)
}

/// The arms of UNION ALL, pairwise from the left: the first, whose trees and those of the others have so
/// many nodes together, and those behind it.
pub fn united(
    alloc: Global,
    scene: &Scene<'_>,
    first: Table,
    arms: Items<UnionArm>,
) -> Result<Table, Refusal>
    requires scene { IsScene scene.now }
    requires sources { AreLists scene.now.c first.lists }
    requires arms { AreArms scene.now.c arms }
    ensures value { OrMemory is_memory (spec.united scene.now first arms) result }
    ensures sources { IfOk result (λ all. AreLists scene.now.c all.lists) }
    ensures count { IfOk result (λ all. length all.lists ≡ length first.lists + length arms) }
    ensures widths { (width : ℕ) → 0 < length first.lists → AreOfWidth width first.lists → IfOk result (λ all. AreOfWidth width all.lists) }
{
    let mut left = reversed(alloc, arms)?;
    let mut made = first;
    while let Some(arm) = left.pop() {
        made = arm_joined(alloc, scene, made, arm)?;
    }
    Ok(made)
}
