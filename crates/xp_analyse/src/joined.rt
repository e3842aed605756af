//! How the lists of a statement are joined: the arms of UNION ALL, and the lists of VALUES (manual 10.5).
ghost use Rattle.std.specs.Prelude.{◌≡◌, IfOk, drop, length, map, reverse, take};
ghost use Rattle.std.specs.List.{All};
ghost use Rattle.xp_base.specs.OrMemory.{OrMemory};
ghost use Rattle.xp_resolve.specs.inner.Sources.{IsScene};
ghost use Rattle.xp_resolve.specs.Made.{is_memory};
ghost use Rattle.xp_columns.specs.inner.Tables.{AreArms, AreLists};
ghost use Rattle.xp_analyse.specs.Lists as spec;

use sqlite_items::Items;
use std::alloc::Global;
use xp_base::Memory;
use xp_columns::{Lists, Table, UnionArm, united, values_made};
use xp_grammar::{SelectArm, Statement};
use xp_resolve::{Refusal, Scene, push, reversed};

/// The trees of the arms behind the first, of which the next ones are last.
#[tactic(auto, using(crate::proofs::Arms::arms_next, crate::proofs::Arms::lists_out, crate::proofs::Arms::arms_out, xp_forms::proofs::Armed::left_is))]
fn arms_over(alloc: Global, arms: &[SelectArm], left: Lists) -> Result<Items<UnionArm>, Memory>
    ensures { IfOk result (λ all. all ≡ spec.arms_over (drop 1 arms.now) (reverse left)) }
{
    let mut left = left;
    let mut all = Items::new(alloc);
    for place in 1..arms.len() {
        let Some(items) = left.pop() else {
            return Ok(all);
        };
        let at = u64::from(arms[place].at.start);
        push(&mut all, UnionArm { at, items })?;
    }
    Ok(all)
}

/// The first list, and the others, of which the next ones are last.
#[tactic(auto, using(crate::proofs::Arms::first_split, crate::proofs::Arms::none_split, crate::proofs::Arms::others_split))]
fn split(alloc: Global, lists: Lists) -> Result<(Lists, Lists), Memory>
    ensures first { IfOk result (λ both. both.0 ≡ take 1 lists) }
    ensures others { IfOk result (λ both. reverse both.1 ≡ drop 1 lists) }
{
    let mut left = reversed(alloc, lists)?;
    let mut first = Items::new(alloc);
    match left.pop() {
        Some(items) => {
            push(&mut first, items)?;
            Ok((first, left))
        }
        None => Ok((first, left)),
    }
}

/// The arms of UNION ALL, whose trees have so many nodes together.
#[tactic(auto, using(crate::proofs::Arms::first_sources, crate::proofs::Arms::arms_sources))]
fn arms_united(
    alloc: Global,
    scene: &Scene<'_>,
    arms: &[SelectArm],
    nodes: u64,
    lists: Lists,
) -> Result<Table, Refusal>
    requires scene { IsScene scene.now }
    requires sources { AreLists scene.now.c lists }
    ensures value { OrMemory is_memory (spec.arms_united scene.now arms.now nodes lists) result }
    ensures sources { IfOk result (λ all. AreLists scene.now.c all.lists) }
{
    let (lists, left) = split(alloc, lists)?;
    let others = arms_over(alloc, arms, left)?;
    united(alloc, scene, Table { lists, nodes }, others)
}

/// The lists of the statement, whose trees have so many nodes together.
pub fn joined(
    alloc: Global,
    scene: &Scene<'_>,
    s: &Statement,
    nodes: u64,
    lists: Lists,
) -> Result<Table, Refusal>
    requires scene { IsScene scene.now }
    requires sources { AreLists scene.now.c lists }
    requires shape { map length lists ≡ map length (spec.lists_of s.now) }
    ensures value { OrMemory is_memory (spec.joined scene.now s.now nodes lists) result }
    ensures sources { IfOk result (λ all. AreLists scene.now.c all.lists) }
    ensures shape { IfOk result (λ all. map length all.lists ≡ map length lists) }
{
    match s {
        Statement::UnionAll { arms, .. } => {
            arms_united(alloc, scene, arms.as_slice(), nodes, lists)
        }
        Statement::Values { at, .. } => {
            values_made(alloc, scene, u64::from(at.start), nodes, lists)
        }
        Statement::Select { .. }
        | Statement::Store { .. }
        | Statement::Describe { .. }
        | Statement::Explain { .. }
        | Statement::ExplainAnalyze { .. } => Ok(Table { lists, nodes }),
    }
}
