//! What the expressions of a statement mean, list by list and from left to right.
ghost use Rattle.std.specs.Prelude.{◌≡◌, ◌∷◌, ◌++◌, [], IfOk, Ok, length, map};
ghost use Rattle.xp_base.specs.OrMemory.{OrMemory};
ghost use Rattle.xp_resolve.specs.inner.Sources.{AreSources, IsScene};
ghost use Rattle.xp_resolve.specs.Made.{is_memory};
ghost use Rattle.xp_columns.specs.inner.Tables.{AreLists};
ghost use Rattle.xp_expressions.specs.Expressions.{resolved};
ghost use Rattle.xp_expressions.specs.Operands.{begun, gathered};
ghost use Rattle.xp_analyse.specs.Lists as spec;
ghost use Rattle.xp_analyse.specs.inner.Views.{list_in, lists_in};

use crate::lists::{ExpressionList, ExpressionLists};
use sqlite_items::Items;
use std::alloc::Global;
use xp_columns::Lists;
use xp_expressions::{begun, nothing_yet, with_operand};
use xp_resolve::{Gathered, Progress, Refusal, Scene, push};

/// The trees of lists of expressions, and what is made so far with them.
#[derive(Drop)]
pub struct Listed {
    pub lists: Lists,
    pub progress: Progress,
}

/// The trees of a list, behind what is made so far.
fn gather_list(
    alloc: Global,
    scene: &Scene<'_>,
    list: ExpressionList<'_>,
    progress: Progress,
) -> Result<Gathered, Refusal>
    requires { IsScene scene.now }
    ensures value { OrMemory is_memory (gathered (Ok (begun progress)) (map (resolved scene.now) (list_in list.entry))) result }
    ensures sources { IfOk result (λ g. AreSources scene.now.c g.parts) }
    ensures count { IfOk result (λ g. length g.parts ≡ length (list_in list.entry)) }
{
    let mut all = Ok(begun(alloc, progress));
    for place in 0..list.len() {
        all = with_operand(alloc, scene, all, list.at(place));
    }
    all
}

/// The trees of a list, behind those of the lists before it.
fn with_list(
    alloc: Global,
    scene: &Scene<'_>,
    before: Listed,
    list: ExpressionList<'_>,
) -> Result<Listed, Refusal>
    requires { IsScene scene.now }
    ensures value { OrMemory is_memory (spec.with_list scene.now (list_in list.entry) before) result }
    ensures sources { AreLists scene.now.c before.lists → IfOk result (λ all. AreLists scene.now.c all.lists) }
    ensures shape { IfOk result (λ all. map length all.lists ≡ map length before.lists ++ length (list_in list.entry) ∷ []) }
{
    let Listed {
        mut lists,
        progress,
    } = before;
    let made = gather_list(alloc, scene, list, progress)?;
    push(&mut lists, made.parts)?;
    Ok(Listed {
        lists,
        progress: made.progress,
    })
}

/// The trees of all lists.
#[tactic(auto, using(crate::proofs::Listing::place_fault, crate::proofs::Listing::place_out, crate::proofs::Listing::long_out))]
pub fn gather(
    alloc: Global,
    scene: &Scene<'_>,
    lists: ExpressionLists<'_>,
) -> Result<Listed, Refusal>
    requires { IsScene scene.now }
    ensures value { OrMemory is_memory (spec.listed scene.now (lists_in lists.entry)) result }
    ensures sources { IfOk result (λ all. AreLists scene.now.c all.lists) }
    ensures shape { IfOk result (λ all. map length all.lists ≡ map length (lists_in lists.entry)) }
{
    let mut all = Listed {
        lists: Items::new(alloc),
        progress: nothing_yet(alloc),
    };
    for place in 0..lists.len() {
        all = with_list(alloc, scene, all, lists.at(place))?;
    }
    Ok(all)
}
