//! Nodes over two trees, one of them a column.
ghost use Rattle.std.specs.Prelude.{IfOk};
ghost use Rattle.xp_tree.specs.Term.{type_of};
ghost use Rattle.xp_tree.specs.Typed.{IsBool};

use crate::trees::{CALLEE, TRUTH, column};
use anyhow::{Result, bail};
use std::alloc::Global;
use xp_base::RowNo;
use xp_tree::Tree;

pub fn link(alloc: Global, word: &str, tree: Tree) -> Result<Tree>
    requires { IsBool (type_of tree) }
    ensures { IfOk result (λ t. IsBool (type_of t)) }
{
    tree.is_typed_law();
    let ty = tree.node_type();
    let other = column(alloc, ty)?;
    other.is_typed_law();
    match word {
        "and" => Ok(Tree::make_and(alloc, tree, other, TRUTH)?),
        "or" => Ok(Tree::make_or(alloc, other, tree, TRUTH)?),
        "nullif" => Ok(Tree::make_nullif(alloc, CALLEE, tree, other, ty)?),
        "distinct" => Ok(Tree::make_distinct(alloc, CALLEE, other, tree, TRUTH)?),
        "domain-checked" => Ok(Tree::make_domain(alloc, tree, RowNo(0), false, Some(other), ty)?),
        "domain-check" => Ok(Tree::make_domain(alloc, other, RowNo(0), false, Some(tree), ty)?),
        _ => bail!("no such node"),
    }
}
