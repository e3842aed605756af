//! Nodes over lists of trees: the tree, and columns.
ghost use Rattle.std.specs.Prelude.{◌≡◌, [], ◌∷◌, IfOk};
ghost use Rattle.xp_tree.specs.Term.{type_of};
ghost use Rattle.xp_tree.specs.Typed.{IsBool};

use crate::trees::{CALLEE, TRUTH, column};
use anyhow::{Result, bail};
use sqlite_items::Items;
use std::alloc::Global;
use xp_base::Memory;
use xp_tree::{CaseArm, CaseArms, Tree, Trees};

fn pair(alloc: Global, a: Tree, b: Tree) -> Result<Trees, Memory>
    ensures { IfOk result (λ args. args ≡ a ∷ b ∷ []) }
{
    let mut args = Items::new(alloc);
    args.push(a)?;
    args.push(b)?;
    Ok(args)
}

fn arm(alloc: Global, when: Tree, gives: Tree) -> Result<CaseArms, Memory>
    ensures { IfOk result (λ arms. arms ≡ record { condition = when; result = gives } ∷ []) }
{
    let mut arms = Items::new(alloc);
    arms.push(CaseArm {
        condition: when,
        result: gives,
    })?;
    Ok(arms)
}

pub fn link(alloc: Global, word: &str, tree: Tree) -> Result<Tree>
    requires { IsBool (type_of tree) }
    ensures { IfOk result (λ t. IsBool (type_of t)) }
{
    tree.is_typed_law();
    let ty = tree.node_type();
    let other = column(alloc, ty)?;
    other.is_typed_law();
    match word {
        "call" => Ok(Tree::make_call(alloc, CALLEE, pair(alloc, tree, other)?, TRUTH)?),
        "coalesce" => Ok(Tree::make_coalesce(alloc, pair(alloc, other, tree)?, ty)?),
        "greatest" => Ok(Tree::make_greatest(alloc, pair(alloc, tree, other)?, ty)?),
        "least" => Ok(Tree::make_least(alloc, pair(alloc, other, tree)?, ty)?),
        _ => case(alloc, word, tree, other),
    }
}

/// CASE with one arm, where the tree is the condition, the result or what stands behind ELSE.
fn case(alloc: Global, word: &str, tree: Tree, other: Tree) -> Result<Tree>
    requires types { IsBool (type_of tree) × (type_of other ≡ type_of tree) }
    ensures { IfOk result (λ t. IsBool (type_of t)) }
{
    tree.is_typed_law();
    other.is_typed_law();
    let ty = tree.node_type();
    let third = column(alloc, ty)?;
    third.is_typed_law();
    match word {
        "case-when" => Ok(Tree::make_case(alloc, arm(alloc, tree, other)?, third, ty)?),
        "case-then" => Ok(Tree::make_case(alloc, arm(alloc, other, tree)?, third, ty)?),
        "case-else" => Ok(Tree::make_case(alloc, arm(alloc, other, third)?, tree, ty)?),
        _ => bail!("no such node"),
    }
}
