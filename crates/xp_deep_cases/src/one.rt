//! Nodes over one tree.
ghost use Rattle.std.specs.Prelude.{IfOk};
ghost use Rattle.xp_tree.specs.Term.{type_of};
ghost use Rattle.xp_tree.specs.Typed.{IsBool};

use crate::trees::TRUTH;
use anyhow::{Result, bail};
use std::alloc::Global;
use xp_base::RowNo;
use xp_tree::{Modifier, Tree};

pub fn link(alloc: Global, word: &str, tree: Tree) -> Result<Tree>
    requires { IsBool (type_of tree) }
    ensures { IfOk result (λ t. IsBool (type_of t)) }
{
    tree.is_typed_law();
    let ty = tree.node_type();
    match word {
        "relabel" => Ok(Tree::make_relabel(alloc, tree, TRUTH)?),
        "sizing" => Ok(Tree::make_sizing(alloc, tree, Modifier::None, false, ty)?),
        "not" => Ok(Tree::make_not(alloc, tree, TRUTH)?),
        "isnull" => Ok(Tree::make_isnull(alloc, tree, TRUTH)?),
        "istrue" => Ok(Tree::make_istrue(alloc, tree, TRUTH)?),
        "isfalse" => Ok(Tree::make_isfalse(alloc, tree, TRUTH)?),
        "isunknown" => Ok(Tree::make_isunknown(alloc, tree, TRUTH)?),
        "domain" => Ok(Tree::make_domain(alloc, tree, RowNo(0), true, None, ty)?),
        _ => bail!("no such node"),
    }
}
