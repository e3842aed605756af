//! What is ready to be evaluated.
ghost use Rattle.std.specs.Prelude.{◌≡◌, IfNone, IfOk, length, map, true};
ghost use Rattle.std.specs.List.{All};
ghost use Rattle.xp_call.specs.Calls.{is_built};
ghost use Rattle.xp_meaning.specs.Evaluable.{all_evaluable};
ghost use Rattle.xp_tree.specs.Term.{terms};
ghost use Rattle.xp_analyse.specs.Statements as spec;
ghost use Rattle.xp_analyse.specs.inner.Views.{list_in, lists_in};

use crate::begins::first_of;
use crate::lists::{ExpressionList, ExpressionLists};
use crate::typed::{TypeNos, Typed, TypedArm};
use sqlite_items::Items;
use std::alloc::Global;
use xp_base::Memory;
use xp_eval::is_evaluable;
use xp_resolve::{Uses, push, reversed};
use xp_tree::{Tree, Trees};

/// The first byte of the first expression of a list whose tree can't be evaluated.
#[tactic(auto, using(xp_base::proofs::Lists::drop_one, xp_base::proofs::Lists::drop_none, crate::proofs::Readying::unready_next, crate::proofs::Readying::ready_next))]
fn first_unready(list: ExpressionList<'_>, trees: &[Tree]) -> Option<u64>
    requires { length trees.now ≡ length (list_in list) }
    ensures place { result ≡ spec.first_unready (list_in list.entry) trees.now }
    ensures ready { IfNone result (all_evaluable is_built (terms trees.now) ≡ true) }
{
    for place in 0..list.len() {
        let (expression, tree) = (list.at(place), &trees[place]);
        if !is_evaluable(tree) {
            return Some(first_of(expression));
        }
    }
    None
}

/// The first byte of the first expression whose tree can't be evaluated, list by list.
pub fn some_unready(lists: ExpressionLists<'_>, trees: &[Trees]) -> Option<u64>
    requires { map length trees.now ≡ map length (lists_in lists) }
    ensures place { result ≡ spec.some_unready (lists_in lists.entry) trees.now }
    ensures ready { IfNone result (All (λ list. all_evaluable is_built (terms list) ≡ true) trees.now) }
{
    for place in 0..lists.len() {
        let unready = first_unready(lists.at(place), trees[place].as_slice());
        if unready.is_some() {
            return unready;
        }
    }
    None
}

#[tactic(auto, using(xp_base::proofs::Lists::drop_one, xp_base::proofs::Lists::drop_none))]
fn types_of(alloc: Global, trees: &[Tree]) -> Result<TypeNos, Memory>
    ensures { IfOk result (λ types. types ≡ spec.types_of trees.now) }
{
    let mut types = Items::new(alloc);
    for tree in trees {
        push(&mut types, tree.type_of())?;
    }
    Ok(types)
}

/// The types of the columns that a statement gives.
fn column_types(alloc: Global, lists: &[Trees]) -> Result<TypeNos, Memory>
    ensures { IfOk result (λ types. types ≡ spec.column_types lists.now) }
{
    match lists {
        [first, ..] => types_of(alloc, first.as_slice()),
        [] => Ok(Items::new(alloc)),
    }
}

/// The lists of trees as the arms of a statement.
pub fn typed_of(
    alloc: Global,
    over_rows: bool,
    uses: Uses,
    lists: Items<Trees>,
) -> Result<Typed, Memory>
    ensures { IfOk result (λ typed. typed ≡ spec.typed_of over_rows uses lists) }
{
    let types = column_types(alloc, lists.as_slice())?;
    let mut left = reversed(alloc, lists)?;
    let mut arms = Items::new(alloc);
    while let Some(trees) = left.pop() {
        push(&mut arms, TypedArm { trees, over_rows })?;
    }
    Ok(Typed { types, arms, uses })
}
